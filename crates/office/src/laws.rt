//! Why those who aren't affected by an event need not be woken, as the contract of a call that does nothing.

ghost use Rattle.std.specs.Prelude.{◌≡◌, List, Ok};
ghost use Rattle.centre_events.specs.Past.{Past};
ghost use Rattle.centre_events.specs.Verdict.{verdict};
ghost use Rattle.centre_events.specs.declared.entry.Entry.{Entry};
ghost use Rattle.centre_events.specs.declared.settings.Settings.{Settings};
ghost use Rattle.centre_past.specs.Legal.{Known, Lawful, past};
ghost use Rattle.office.specs.Affecting.{IsDueAtItsBsc, LeavesIdle, LeavesOrders, MissesNobody};
ghost use Rattle.office.specs.declared.wish.Wish.{Wish};

/// Lemma: after every lawful history, an event that is accepted makes no order pending for a BSC that it doesn't affect.
#[tactic(auto, using(crate::proofs::LawfulLemmas::orders_left_lawful))]
pub fn orders_come_where_an_event_affects()
    ensures { (settings : Settings) (past : Past) (e : Entry) → Lawful settings past → verdict settings past e.event ≡ Ok e.answer → LeavesOrders past e }
{}

/// Lemma: after an event that is accepted, nothing is due for a BSC that it doesn't affect and for which nothing was due, unless it
/// fills the journal.
#[tactic(auto, using(crate::proofs::DueLemmas::idle_left))]
pub fn what_is_due_comes_where_an_event_affects()
    ensures { (centre : Known) (e : Entry) → Lawful centre.settings (past centre) → verdict centre.settings (past centre) e.event ≡ Ok e.answer → LeavesIdle centre e }
{}

/// Lemma: after an event that is accepted, something is due for whoever waited for a link only where those who wait for its BSC are
/// woken.
#[tactic(auto, using(crate::proofs::WakingLemmas::nobody_missed))]
pub fn whoever_has_work_is_woken()
    ensures { (centre : Known) (e : Entry) → Lawful centre.settings (past centre) → verdict centre.settings (past centre) e.event ≡ Ok e.answer → MissesNobody centre e }
{}

/// Lemma: after a wish that is kept, what is due for a link of another BSC is what was due before.
#[tactic(auto, using(crate::proofs::WakingLemmas::others_as_before))]
pub fn a_wish_is_due_at_its_bsc_alone()
    ensures { (centre : Known) (wishes : List Wish) (w : Wish) → IsDueAtItsBsc centre wishes w }
{}
