//! On which lines an event bears; those of an edit are read here, before it.

ghost use Rattle.std.specs.Prelude.{◌≡◌, ◌≤◌, ◌+◌, ◌*◌, false, Ok, IfOk};
ghost use Rattle.centre_lines.specs.Following.{WasReached, bears_on_none};
ghost use Rattle.centre_past.specs.Reaching.{is_forget};
ghost use Rattle.centre_past.specs.IsKept.{IsKept, OnlyReadsIn};
ghost use Rattle.centre_events.specs.Kept.{is_edit};
ghost use Rattle.centre_past.specs.Legal.{Legal};
ghost use Rattle.centre_events.specs.Past.{Past};
ghost use Rattle.centre_past.specs.Reach.{edit_reach, size};
ghost use Rattle.centre_events.specs.Verdict.{answered, edit_answered};
ghost use Rattle.centre_events.specs.declared.answer.Answer as answer_spec;
ghost use Rattle.centre_events.specs.declared.event.Event.TheVariants as event;
ghost use Rattle.centre_events.specs.declared.settings.Settings.{Settings};
ghost use Rattle.coverage_plan.specs.declared.edit.Edit.TheVariants as edit_spec;

use crate::found_plan::FoundPlan;
use crate::lines_before::LinesBefore;
use crate::reach::{reach_of_edit, reach_of_other};
use crate::reading::{read_all, read_keys};
use centre_events::answer::Answer;
use centre_events::event::Event;
use centre_events::stepping::Happening;
use centre_past::kept::Kept;
use centre_past::links::{flight_of, up_before};
use centre_past::telling::tell_lines;
use coverage_plan::Edit;
use kept_tables::Spot;
use std::alloc::{AllocError, Global};
use warning_book::{Book, WarningId};

/// At which cells an event bears, and what is known of the lines before the event.
#[derive(Drop)]
pub struct Reached {
    pub spots: Vec<Spot>,
    pub lines: LinesBefore,
}

/// The lines that an accepted edit may change which is no Forget, as they stand before it, found among the lines on which it
/// bears.
fn reached_at_spots(alloc: Global, kept: &mut Kept, edit: &Edit) -> Result<Reached, AllocError>
    requires { is_forget edit.now ≡ false }
    ensures reached { (settings : Settings) (past : Past) (a : answer_spec.Answer) → Legal settings past → IsKept past kept.old → edit_answered past edit.now ≡ Ok a → IfOk result (λ x. WasReached past (event.Edit edit.now) a x.spots.items x.lines) }
    ensures reads { OnlyReadsIn kept.old kept.new }
    ensures meter { (settings : Settings) (past : Past) (a : answer_spec.Answer) → Legal settings past → IsKept past kept.old → edit_answered past edit.now ≡ Ok a → kept.new.tables.lines.meter ≤ kept.old.tables.lines.meter + 2 * size (edit_reach past edit.now) }
{
    let reach = reach_of_edit(alloc, &kept.plan, kept.tables.lines(), edit)?;
    let mut plan = FoundPlan::new(alloc, &kept.plan);
    let earlier = read_all(
        &mut plan,
        &mut kept.tables,
        reach.spots.as_slice(),
        reach.warnings.as_slice(),
        edit,
    )?;
    Ok(Reached {
        spots: reach.spots,
        lines: LinesBefore::Read(earlier),
    })
}

/// Those that a Forget may change: those of its warning that aren't blank, whatever cells it bears on. It brings no cell down
/// or up.
fn reached_by_forget(
    alloc: Global,
    kept: &mut Kept,
    edit: &Edit,
    n: WarningId,
) -> Result<Reached, AllocError>
    requires { edit.now ≡ edit_spec.Forget n }
    ensures reached { (settings : Settings) (past : Past) (a : answer_spec.Answer) → Legal settings past → IsKept past kept.old → edit_answered past edit.now ≡ Ok a → IfOk result (λ x. WasReached past (event.Edit edit.now) a x.spots.items x.lines) }
    ensures reads { OnlyReadsIn kept.old kept.new }
    ensures meter { (settings : Settings) (past : Past) (a : answer_spec.Answer) → Legal settings past → IsKept past kept.old → edit_answered past edit.now ≡ Ok a → kept.new.tables.lines.meter ≤ kept.old.tables.lines.meter + 2 * size (edit_reach past edit.now) }
{
    tell_lines(kept.tables.lines());
    let keys = kept.tables.places_of(n)?;
    let mut plan = FoundPlan::new(alloc, &kept.plan);
    let earlier = read_keys(&mut plan, &mut kept.tables, keys.as_slice(), edit)?;
    Ok(Reached {
        spots: Vec::new(alloc),
        lines: LinesBefore::Read(earlier),
    })
}

/// Whether the edit bears on no line: it changes what an area covers that no warning names, or a cell while there is no
/// warning.
fn bears_on_none(book: &Book, edit: &Edit) -> bool
    ensures { result ≡ bears_on_none book.now edit.now }
{
    match edit {
        Edit::Put(a, _) | Edit::Cut(a, _) => !book.names_area(a),
        Edit::AddCell(_, _) | Edit::MoveCell(_, _) | Edit::RemoveCell(_) => {
            book.as_slice().is_empty()
        }
        _ => false,
    }
}

/// The lines that an accepted edit may change, as they stand before it: those on which it bears, but for those that have no
/// part before it or after it.
pub fn reached_by_edit(alloc: Global, kept: &mut Kept, edit: &Edit) -> Result<Reached, AllocError>
    ensures reached { (settings : Settings) (past : Past) (a : answer_spec.Answer) → Legal settings past → IsKept past kept.old → edit_answered past edit.now ≡ Ok a → IfOk result (λ x. WasReached past (event.Edit edit.now) a x.spots.items x.lines) }
    ensures reads { OnlyReadsIn kept.old kept.new }
    ensures meter { (settings : Settings) (past : Past) (a : answer_spec.Answer) → Legal settings past → IsKept past kept.old → edit_answered past edit.now ≡ Ok a → kept.new.tables.lines.meter ≤ kept.old.tables.lines.meter + 2 * size (edit_reach past edit.now) }
{
    if bears_on_none(kept.plan.book(), edit) {
        return Ok(Reached {
            spots: Vec::new(alloc),
            lines: LinesBefore::Read(Vec::new(alloc)),
        });
    }
    let reached = match edit {
        Edit::Forget(n) => reached_by_forget(alloc, kept, edit, *n)?,
        _ => reached_at_spots(alloc, kept, edit)?,
    };
    Ok(reached)
}

/// On which lines an accepted event bears that is no edit. None of them is read.
pub fn reached_by_other<'x>(
    alloc: Global,
    kept: &Kept,
    event: &'x Event,
    answer: &'x Answer,
) -> Result<Reached, AllocError>
    requires other { is_edit event.now ≡ false }
    ensures reached { (settings : Settings) (past : Past) → Legal settings past → IsKept past kept.now → answered settings.network past event.now ≡ Ok answer.now → IfOk result (λ x. WasReached past event.now answer.now x.spots.items x.lines) }
{
    let h = Happening {
        event,
        answer,
        up: up_before(&kept.links, event),
        flight: flight_of(&kept.links, event),
    };
    let reach = reach_of_other(alloc, &kept.plan, kept.tables.lines(), &h)?;
    Ok(Reached {
        spots: reach.spots,
        lines: LinesBefore::Unread(reach.warnings),
    })
}
