//! The headline, as the contract of a call.

ghost use Rattle.std.specs.Prelude.{List};
ghost use Rattle.centre_events.specs.Base.{empty_base};
ghost use Rattle.centre_past.specs.Legal.{Lawful, Call, after_calls};
ghost use Rattle.centre_past.specs.Headline.{PendingGivesPlan};
ghost use Rattle.centre_events.specs.Past.{Past, From};
ghost use Rattle.centre_events.specs.declared.settings.Settings.{Settings};
ghost use Rattle.centre_laws.specs.Spare.{NoneToSpare, ActsOnce, AwaitedIsPending};

/// After every lawful history, the pending orders of each BSC, applied to what it has reported, give its part of the
/// plan.
#[tactic(auto, using(centre_past::proofs::HeadlineLemmas::pending_gives_plan_lawful))]
pub fn pending_gives_plan()
    ensures { (settings : Settings) (past : Past) → Lawful settings past → PendingGivesPlan past }
{}

/// After every list of calls of `accept` and of `checkpoint`, refused ones among them, the pending orders of each BSC,
/// applied to what it has reported, leave its cells that are up broadcasting exactly what the plan wants there, but for keys
/// that are held back. A call that ran out of memory is one that was not made.
#[tactic(auto, using(centre_past::proofs::HeadlineLemmas::plan_after_calls))]
pub fn calls_give_plan()
    ensures { (settings : Settings) (calls : List Call) → PendingGivesPlan (after_calls settings calls (From empty_base)) }
{}

/// After every lawful history, no pending order names a cell to spare: without one of its cells the pending orders leave
/// its key there otherwise than planned, although the cell is up and nothing holds the key back.
#[tactic(auto, using(crate::proofs::CarriedLemmas::none_to_spare))]
pub fn no_cell_is_to_spare()
    ensures { (settings : Settings) (past : Past) → Lawful settings past → NoneToSpare past }
{}

/// After every lawful history, no key stands in two of the actions that are to be ordered of a BSC.
#[tactic(auto, using(crate::proofs::CarriedLemmas::acts_once))]
pub fn no_key_is_ordered_twice()
    ensures { (settings : Settings) (past : Past) → Lawful settings past → ActsOnce past }
{}

/// After every lawful history, the cells that await a warning are those of the pending writes and replaces of its
/// message identifier and current serial number, and over all BSCs there are as many of the one as of the other.
#[tactic(auto, using(crate::proofs::CarriedLemmas::awaited_is_pending))]
pub fn what_is_awaited_is_pending()
    ensures { (settings : Settings) (past : Past) → Lawful settings past → AwaitedIsPending past }
{}
