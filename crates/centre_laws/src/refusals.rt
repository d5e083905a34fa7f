//! Which refusal an event is answered, as the contracts of calls that do nothing.

ghost use Rattle.std.specs.Prelude.{◌≡◌, true, Err};
ghost use Rattle.centre_laws.specs.Causes.{CausesAscend, IsFirstCause, PlacesAreNumbers, RefusesAsPlan};
ghost use Rattle.centre_events.specs.Folding.{base_of};
ghost use Rattle.centre_events.specs.Past.{Past};
ghost use Rattle.centre_past.specs.EditCauses.{IsPlanOf};
ghost use Rattle.centre_past.specs.VerdictLaws.{is_of_event};
ghost use Rattle.centre_events.specs.Verdict.{verdict};
ghost use Rattle.centre_events.specs.declared.event.Event.{Event};
ghost use Rattle.centre_events.specs.declared.refusal.Refusal.{Refusal};
ghost use Rattle.centre_events.specs.declared.settings.Settings.{Settings};

use coverage_plan::Plan;

/// The causes for which an event is refused stand in one order, no two at one place: of every event, after every past.
#[tactic(auto, using(crate::proofs::CauseLemmas::causes_ascend))]
pub fn causes_ascend()
    ensures { CausesAscend }
{}

/// Up to 37 that is the order of the refusals' numbers, of limits the order of the limits. A later refusal gets the next
/// number, and a place between others.
#[tactic(auto, using(crate::proofs::CauseLemmas::places_are_numbers))]
pub fn places_are_numbers()
    ensures { PlacesAreNumbers }
{}

/// An event is refused for the first cause in its list that holds. It is accepted where none holds.
pub fn first_cause_refuses()
    ensures { (settings : Settings) (past : Past) (e : Event) → IsFirstCause settings past e }
{}

/// What refuses an edit in the plan refuses it in the centre, which has five causes more, each in its place among the
/// others: a RemoveBsc of a BSC whose link is up, a Forget of a warning of which something is on air or in flight, and
/// an Update that gives a serial number again of which something is. Where one of the last two holds it refuses an Update
/// whose content the plan refuses. So it is after each past of the same base, however many of its entries were folded.
pub fn plan_refuses_the_same(plan: &Plan)
    ensures whole { (past : Past) → IsPlanOf past plan.now → RefusesAsPlan past plan.now }
    ensures folded { (p q : Past) → base_of p ≡ base_of q → IsPlanOf p plan.now → RefusesAsPlan q plan.now }
{
    plan.tell_soundness();
}

/// A verdict is never that the centre is stale, that memory ran out, or that a desk is not as it is known.
#[tactic(auto, using(crate::proofs::CauseLemmas::of_the_event))]
pub fn verdict_is_of_the_event()
    ensures { (settings : Settings) (past : Past) (e : Event) (r : Refusal) → verdict settings past e ≡ Err r → is_of_event r ≡ true }
{}
