//! What follows from the definitions. Each function does nothing, and its contract holds of all lines.

ghost use Rattle.console.specs.Laws.{OneText, StaysWhole};

/// Lines have one text: what a run writes is determined by what it reads.
#[tactic(auto, using(crate::proofs::UniqueLemmas::one_text))]
pub fn one_text()
    ensures { OneText }
{}

/// A centre is stale only after memory ran out: while no line runs out of it, it stays whole, and no line is refused as
/// stale.
#[tactic(auto, using(crate::proofs::WholeLemmas::stays_whole))]
pub fn stays_whole()
    ensures { StaysWhole }
{}
