//! Laws of the checks of edits, each the contract of a function that does nothing.

ghost use Rattle.coverage_plan.specs.CheckLaws.{AreInOrder, IsFirstOfAll, NoneIsMemory};

/// Lemma: the checks of each edit stand in the order of their refusals.
#[tactic(auto, using(crate::proofs::RankLemmas::in_order))]
pub fn checks_are_in_order()
    ensures { AreInOrder }
{}

/// Lemma: of the causes that hold, an edit is refused by the first in the order of the refusals.
#[tactic(auto, using(crate::proofs::RankLemmas::is_first_of_all))]
pub fn first_cause_is_named()
    ensures { IsFirstOfAll }
{}

/// Lemma: no check of an edit is refused as `Memory`, so that answer is given only where no check holds.
#[tactic(auto, using(crate::proofs::RankLemmas::none_is_memory))]
pub fn no_check_is_memory()
    ensures { NoneIsMemory }
{}
