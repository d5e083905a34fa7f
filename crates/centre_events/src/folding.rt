//! That entries can be folded away, as the contracts of calls that do nothing: what they come to is a base, and what a past
//! says is the same however many of its entries were folded.

ghost use Rattle.std.specs.Prelude.{◌≡◌, List, ◌++◌, reverse};
ghost use Rattle.centre_events.specs.Folding.{HasSameParts, base_of, folded, folded_with, onto};
ghost use Rattle.centre_events.specs.Past.{Past, After, past_of, since};
ghost use Rattle.centre_events.specs.Verdict.{answered};
ghost use Rattle.centre_events.specs.declared.entry.Entry.{Entry};
ghost use Rattle.centre_events.specs.declared.event.Event.{Event};
ghost use Rattle.centre_events.specs.declared.network.Network.{Network};

/// Lemma: one more entry comes to the same after a past and after the base of that past, part by part and as a whole.
#[tactic(auto, using(crate::proofs::FoldingLemmas::parts_one, crate::proofs::FoldingLemmas::folded_one))]
pub fn one_entry_folds()
    ensures parts { (e : Entry) (past : Past) → HasSameParts (After e (folded past)) (After e past) }
    ensures whole { (e : Entry) (past : Past) → base_of (After e past) ≡ folded_with e (base_of past) }
{}

/// Lemma: so does any number of entries. The base of a base and of entries after it is the base of all entries together.
#[tactic(auto, using(crate::proofs::FoldingLemmas::folded_then, crate::proofs::FoldingLemmas::past_whole))]
pub fn entries_fold()
    ensures law { (es : List Entry) (past : Past) → base_of (onto es (folded past)) ≡ base_of (onto es past) }
    ensures journals { (xs ys : List Entry) → base_of (since (base_of (past_of xs)) (reverse ys)) ≡ base_of (past_of (xs ++ ys)) }
{}

/// Lemma: two pasts that come to one base have the same parts, and every event is answered alike after them, where the
/// journal has room.
#[tactic(auto, using(crate::proofs::FoldingLemmas::same_parts, crate::proofs::FoldingLemmas::alike))]
pub fn one_base_answers_alike()
    ensures parts { (p q : Past) → base_of p ≡ base_of q → HasSameParts p q }
    ensures answers { (network : Network) (p q : Past) → base_of p ≡ base_of q → (e : Event) → answered network p e ≡ answered network q e }
{}
