//! Lemmas that a function calls where it needs what they say: a call returns nothing, and its clause says what holds.

ghost use Rattle.centre_past.specs.Idle.{AreKnownOf};
ghost use Rattle.centre_past.specs.IsKept.{IsKept, OnlyReadsIn};
ghost use Rattle.centre_past.specs.Legal.{Legal};
ghost use Rattle.centre_events.specs.Past.{Past};
ghost use Rattle.centre_events.specs.declared.settings.Settings.{Settings};
ghost use Rattle.centre_past.specs.Reaching.{TellsLines};
ghost use Rattle.centre_past.specs.declared.kept.Kept.{Kept};

use mirror::LineTable;

/// A lemma, not a test: it returns nothing, and its clause says what holds of the lines of each table.
pub fn tell_lines(tables: &LineTable)
    ensures { TellsLines tables.now }
{
    tables.tell_soundness();
}

/// A lemma, not a test: where lines were only read, what is kept stays what the past says.
#[tactic(auto, using(crate::proofs::ReadLemmas::reads_kept))]
pub fn tell_reads()
    ensures { (past : Past) (s t : Kept) → IsKept past s → OnlyReadsIn s t → IsKept past t }
{}

/// A lemma, not a test: the cells that are known by what is kept are those of the past.
#[tactic(auto, using(crate::proofs::ReadLemmas::known_kept))]
pub fn tell_known()
    ensures { (settings : Settings) (past : Past) (s : Kept) → Legal settings past → IsKept past s → TellsLines s.tables.lines → AreKnownOf past s.tables.lines s.plan.register }
{}
