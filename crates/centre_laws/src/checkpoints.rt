//! What a checkpoint leaves as it was, as the contracts of calls that do nothing. It folds all entries of the journal into a
//! base, from which the past goes on.

ghost use Rattle.std.specs.Prelude.{◌≡◌, ◌≤◌, ◌++◌, List, length, reverse};
ghost use Rattle.centre_events.specs.Folding.{base_of, folded};
ghost use Rattle.centre_events.specs.Past.{Past, past_of, since};
ghost use Rattle.centre_past.specs.Alike.{SaysTheSame};
ghost use Rattle.centre_past.specs.Legal.{HasWhole, Known, Lawful, Legal, checkpointed, lasting, past};
ghost use Rattle.centre_events.specs.declared.entry.Entry.{Entry};
ghost use Rattle.centre_events.specs.declared.settings.Settings.{Settings};

/// Two pasts that come to one base say the same of everything but how many entries stand after their bases.
#[tactic(auto, using(centre_past::proofs::AlikeLemmas::says_the_same))]
pub fn one_base_says_the_same()
    ensures { (p q : Past) → base_of p ≡ base_of q → SaysTheSame p q }
{}

/// A checkpoint leaves the base that the past comes to, and so all that the past says but for how many entries stand in the
/// journal.
#[tactic(auto, using(crate::proofs::CheckpointLemmas::checkpoint_base, crate::proofs::CheckpointLemmas::checkpoint_same))]
pub fn checkpoint_says_the_same()
    ensures base { (centre : Known) → base_of (past (checkpointed centre)) ≡ base_of (past centre) }
    ensures all { (centre : Known) → SaysTheSame (past (checkpointed centre)) (past centre) }
{}

/// A lawful past stays lawful where its entries are folded. It has a whole: a legal past with nothing folded that comes to
/// the same base, of which the laws of legal pasts hold.
#[tactic(auto, using(centre_past::proofs::LawfulLemmas::whole, centre_past::proofs::LawfulLemmas::lawful_folded))]
pub fn lawful_past_has_a_whole()
    ensures folded { (settings : Settings) (past : Past) → Lawful settings past → Lawful settings (folded past) }
    ensures whole { (settings : Settings) (past : Past) → Lawful settings past → HasWhole settings.network past }
{}

/// A centre's past is lawful where all its entries, the folded ones first, are legal, and the limit bounds those of its
/// journal.
#[tactic(auto, using(centre_past::proofs::LawfulLemmas::lawful_since))]
pub fn centre_past_is_lawful()
    ensures { (settings : Settings) (xs ys : List Entry) → length ys ≤ settings.limit → Legal (lasting settings.network) (past_of (xs ++ ys)) → Lawful settings (since (base_of (past_of xs)) (reverse ys)) }
{}
