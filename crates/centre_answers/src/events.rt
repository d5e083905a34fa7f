//! The rules of the events: what each is answered, by what a centre keeps. Each looks at the causes of refusal in
//! the order of their numbers. An edit is looked at and made by the plan; what the plan can't see is looked at here.

mod forgetting;
mod links;
mod queries;
mod reports;
mod reusing;
mod sends;

ghost use Rattle.std.specs.Prelude.{◌≡◌, ◌≤◌, ◌+◌, ℕ, true, false, None, IfOk, IsOk, OnOk, OnErr};
ghost use Rattle.centre_answers.specs.Made.{answer_of};
ghost use Rattle.centre_answers.specs.Reused.{IsFirst};
ghost use Rattle.common.specs.Checks.{first_refusal};
ghost use Rattle.order_maker.specs.Pending.{IsListOf};
ghost use Rattle.centre_past.specs.Idle.{AreKnownOf};
ghost use Rattle.centre_past.specs.IsKept.{IsKept, OnlyReadsIn};
ghost use Rattle.centre_events.specs.Kept.{is_edit, is_plain, Gives, IsChecked};
ghost use Rattle.centre_past.specs.EditCauses.{IsPlanOf, is_update, own_causes};
ghost use Rattle.coverage_plan.specs.Checks.{edit_checks};
ghost use Rattle.coverage_plan.specs.Edited.{edited};
ghost use Rattle.centre_past.specs.Legal.{Legal};
ghost use Rattle.centre_events.specs.Past.{Past, position};
ghost use Rattle.centre_events.specs.Pending.{all_actions};
ghost use Rattle.centre_past.specs.Reach.{edit_reach, looked_at, size};
ghost use Rattle.centre_events.specs.Verdict.{answered, edit_answered};
ghost use Rattle.centre_events.specs.declared.settings.Settings.{Settings};
ghost use Rattle.centre_past.specs.declared.kept.Kept.{Kept};

use centre_events::answer::Answer;
use centre_events::event::Event;
use centre_events::network::Network;
use centre_events::refusal::Refusal;
use centre_past::kept::Kept;
use centre_past::telling::tell_lines;
use coverage_plan::{Edit, Made, Plan};
use std::alloc::Global;

/// What an event is answered.
pub type Verdict = Result<Answer, Refusal>;

/// Whether what the plan can't see refuses an edit that is no Update, and that the plan takes. No line is read, and no
/// memory is taken.
fn check_own(kept: &Kept, edit: &Edit) -> Result<(), Refusal>
    requires other { is_update edit.now ≡ false }
    ensures { (settings : Settings) (past : Past) → Legal settings past → IsKept past kept.now → first_refusal (edit_checks kept.now.plan edit.now) ≡ None → IsFirst (own_causes past edit.now) result }
{
    match edit {
        Edit::RemoveBsc(b) => links::check_down(&kept.links, *b),
        Edit::Forget(number) => {
            forgetting::check_forget(&kept.plan, &kept.links, &kept.tables, *number)
        }
        Edit::Update(..) => unreachable!(),
        _ => Ok(()),
    }
}

/// Whether an edit that is no Update is accepted. No line is read, and no memory is taken.
fn check_other(kept: &Kept, edit: &Edit) -> Result<(), Refusal>
    requires other { is_update edit.now ≡ false }
    ensures { (settings : Settings) (past : Past) → Legal settings past → IsKept past kept.now → IsChecked (edit_answered past edit.now) result }
{
    kept.plan.tell_soundness();
    kept.plan.check(edit)?;
    check_own(kept, edit)
}

/// Whether the edit is accepted. Lines are read for an Update alone, and only where it takes a serial number that a version
/// of its warning has. No memory is taken.
#[tactic(auto, using(centre_past::proofs::ReadLemmas::reads_none))]
pub fn check_edit(kept: &mut Kept, edit: &Edit) -> Result<(), Refusal>
    ensures checked { (settings : Settings) (past : Past) → Legal settings past → IsKept past kept.old → IsChecked (edit_answered past edit.now) result }
    ensures reads { OnlyReadsIn kept.old kept.new }
    ensures meter { (settings : Settings) (past : Past) → Legal settings past → IsKept past kept.old → kept.new.tables.lines.meter ≤ kept.old.tables.lines.meter + size (edit_reach past edit.now) }
{
    tell_lines(kept.tables.lines());
    match edit {
        Edit::Update(number, content) => reusing::check_update(
            kept.plan.register(),
            kept.plan.book(),
            &kept.links,
            &mut kept.tables,
            *number,
            content,
        ),
        _ => check_other(kept, edit),
    }
}

/// What an edit is answered that was made.
fn answer_of(made: Made) -> Answer
    ensures { result ≡ answer_of made }
{
    match made {
        Made::Done => Answer::Done,
        Made::Issued(number, serial) => Answer::Issued(number, serial),
        Made::Updated(serial) => Answer::Updated(serial),
    }
}

/// Makes an edit that is accepted. Where memory runs out the plan is as before.
pub fn make_edit(plan: &mut Plan, edit: &Edit) -> Verdict
    ensures verdict { (past : Past) → IsPlanOf past plan.old → IsOk (edit_answered past edit.now) → Gives (edit_answered past edit.now) result }
    ensures made { OnOk result (plan.new ≡ edited edit.now plan.old) }
    ensures unchanged { OnErr result (plan.new ≡ plan.old) }
    ensures plain { IfOk result (λ a. is_plain a ≡ true) }
{
    plan.tell_soundness();
    let made = plan.make(edit)?;
    Ok(answer_of(made))
}

/// What an event that is no edit is answered. Its entry would have that number. The network is the centre's. Lines are read for
/// an Ask alone.
#[tactic(auto, using(centre_past::proofs::ReadLemmas::reads_none))]
pub fn answer(
    alloc: Global,
    network: Network,
    kept: &mut Kept,
    place: u64,
    event: &Event,
) -> Verdict
    requires other { is_edit event.now ≡ false }
    ensures verdict { (settings : Settings) (past : Past) → Legal settings past → settings.network ≡ network → IsKept past kept.old → AreKnownOf past kept.old.tables.lines kept.old.plan.register → ((b : ℕ) → IsListOf (all_actions past b) kept.old.tables.pending b) → place ≡ position past + 1 → Gives (answered settings.network past event.now) result }
    ensures reads { OnlyReadsIn kept.old kept.new }
    ensures meter { (settings : Settings) (past : Past) → Legal settings past → AreKnownOf past kept.old.tables.lines kept.old.plan.register → kept.new.tables.lines.meter ≤ kept.old.tables.lines.meter + looked_at past event.now }
{
    match event {
        Event::Edit(_) => unreachable!(),
        Event::Retry(b) => links::retry(kept.plan.register(), *b),
        Event::LinkUp(b) => links::link_up(kept.plan.register(), *b, place),
        Event::LinkDown(b, generation) => {
            links::link_down(&kept.links, kept.plan.register(), *b, *generation)
        }
        Event::Send(b, generation) => {
            sends::send(alloc, network.broadcasts, kept, *b, *generation)
        }
        Event::Ask(b, generation, warning, after) => {
            queries::ask(alloc, kept, *b, *generation, *warning, *after)
        }
        Event::Report(b, generation, message) => {
            reports::report(alloc, network.plmn, kept, *b, *generation, message)
        }
    }
}
