//! On which lines an event bears.

ghost use Rattle.std.specs.Prelude.{◌≡◌, ◌&&◌, true, false, if◌then◌else◌, IfOk};
ghost use Rattle.std.specs.List.{list_any};
ghost use Rattle.std.specs.Option.{option_copied, option_map, option_to_list};
ghost use Rattle.serials.specs.Serials.{next_of};
ghost use Rattle.warning_book.specs.Book.{current_of, is_reused, is_so};
ghost use Rattle.centre_events.specs.InFlight.{in_flight};
ghost use Rattle.centre_events.specs.Past.{Past};
ghost use Rattle.centre_past.specs.Reaching.{is_forget, AreThose, EditTold, EventTold};
ghost use Rattle.centre_past.specs.Reach.{IsReach, flight_reach, edit_reach, report_reach, reach_of, covered_by, known_anywhere, wraps};
ghost use Rattle.centre_events.specs.Warnings.{is_version};
ghost use Rattle.centre_events.specs.declared.settings.Settings.{Settings};

use crate::reached_warnings;
use crate::spots::{covered, known_anywhere, known_at, moved, named, placed, spots_at};
use cell_register::BscId;
use centre_events::answer::Answer;
use centre_events::event::Event;
use centre_events::in_flight::InFlight;
use centre_events::replying::cells_of;
use centre_events::stepping::Happening;
use centre_past::telling::tell_lines;
use coverage_plan::{Edit, Plan};
use kept_tables::Spot;
use mirror::LineTable;
use serials::Serial;
use std::alloc::{AllocError, Global};
use std::slice;
use warning_book::{Book, Version, Warning, WarningId};

/// Cells at BSCs, and warnings: an event bears on the line of each of these warnings in each of these cells.
#[derive(Drop)]
pub(crate) struct Reach {
    pub(crate) spots: Vec<Spot>,
    pub(crate) warnings: Vec<WarningId>,
}

/// Whether one of the versions has the serial number.
fn has_serial(versions: &[Version], serial: Serial) -> bool
    ensures { result ≡ list_any (is_version serial) versions.now }
{
    versions.iter().any(|version| version.serial == serial)
}

/// Whether a version of the warning has the serial number that an Update gives.
fn is_given_again(w: &Warning) -> bool
    ensures { result ≡ list_any (λ s. is_reused w.now s && true) (option_to_list (option_map next_of (current_of w.now))) }
{
    match w.serial() {
        Some(serial) => has_serial(w.versions(), serial.next()),
        None => false,
    }
}

/// Whether an Update of the warning of that number takes the serial number of a version, which leaves the book then.
fn wraps(book: &Book, n: WarningId) -> bool
    ensures { result ≡ is_so n (λ w. list_any (λ s. is_reused w s && true) (option_to_list (option_map next_of (current_of w)))) book.now.warnings }
{
    book.as_slice()
        .iter()
        .any(|w| w.number() == n && is_given_again(w))
}

/// The cells at BSCs on which an Update bears: those that the areas of its warning cover, or, where it takes the serial
/// number of a version, all that are known.
fn updated(
    alloc: Global,
    plan: &Plan,
    tables: &LineTable,
    edit: &Edit,
    n: WarningId,
) -> Result<Vec<Spot>, AllocError>
    ensures { (settings : Settings) (past : Past) → EditTold settings past plan.now.register plan.now.areas plan.now.book tables.now edit.now → IfOk result (λ spots. AreThose spots.items (if wraps past n then known_anywhere past else covered_by past n)) }
{
    tell_lines(tables);
    if wraps(plan.book(), n) {
        let spots = known_anywhere(alloc, plan.register(), tables)?;
        return Ok(spots);
    }
    let names = plan.book().areas_of(n);
    let spots = covered(alloc, plan.register(), plan.areas(), names)?;
    Ok(spots)
}

/// The cells at BSCs on which an edit bears that is no Forget.
fn edit_spots(
    alloc: Global,
    plan: &Plan,
    tables: &LineTable,
    edit: &Edit,
) -> Result<Vec<Spot>, AllocError>
    requires { is_forget edit.now ≡ false }
    ensures { (settings : Settings) (past : Past) → EditTold settings past plan.now.register plan.now.areas plan.now.book tables.now edit.now → IfOk result (λ spots. AreThose spots.items (edit_reach past edit.now).spots) }
{
    tell_lines(tables);
    let register = plan.register();
    let areas = plan.areas();
    let spots = match edit {
        Edit::RemoveBsc(b) => known_at(alloc, register, tables, *b)?,
        Edit::AddCell(c, b) => spots_at(alloc, *b, &[*c])?,
        Edit::MoveCell(c, b) => moved(alloc, register, *c, *b)?,
        Edit::RemoveCell(c) => placed(alloc, register, *c)?,
        Edit::Put(_, s) | Edit::Cut(_, s) => named(alloc, register, *s)?,
        Edit::Issue(_, names) => covered(alloc, register, areas, names.as_slice())?,
        Edit::Update(n, _) => updated(alloc, plan, tables, edit, *n)?,
        Edit::Stop(n) => covered(alloc, register, areas, plan.book().areas_of(*n))?,
        Edit::Widen(_, a) | Edit::Narrow(_, a) => {
            covered(alloc, register, areas, slice::from_ref(a))?
        }
        Edit::AddBsc(_) | Edit::AddArea(_) | Edit::DropArea(_) => Vec::new(alloc),
        Edit::Forget(_) => Vec::new(alloc),
    };
    Ok(spots)
}

/// The cells of what is in flight to the BSC, if anything is.
fn flight_spots(alloc: Global, b: BscId, flight: Option<&InFlight>) -> Result<Vec<Spot>, AllocError>
    ensures { (past : Past) → IfOk result (λ spots. spots.items ≡ (flight_reach past b (option_copied flight.entry)).spots) }
{
    let spots = match flight {
        Some(flight) => spots_at(alloc, b, cells_of(flight))?,
        None => Vec::new(alloc),
    };
    Ok(spots)
}

/// Those of a report that was answered so: a reply bears on what was in flight, an indication on the cells that it lists.
fn report_spots(
    alloc: Global,
    b: BscId,
    answer: &Answer,
    flight: Option<&InFlight>,
) -> Result<Vec<Spot>, AllocError>
    ensures { (past : Past) → option_copied flight.entry ≡ in_flight past b → IfOk result (λ spots. spots.items ≡ (report_reach past b answer.now).spots) }
{
    let spots = match answer {
        Answer::Replied(_) => flight_spots(alloc, b, flight)?,
        Answer::Listed(cells) => spots_at(alloc, b, cells.as_slice())?,
        _ => Vec::new(alloc),
    };
    Ok(spots)
}

/// The cells at BSCs on which an event bears that is no edit.
fn event_spots(
    alloc: Global,
    plan: &Plan,
    tables: &LineTable,
    event: &Event,
    answer: &Answer,
    flight: Option<&InFlight>,
) -> Result<Vec<Spot>, AllocError>
    ensures { (settings : Settings) (past : Past) → EventTold settings past plan.now.register plan.now.book tables.now (option_copied flight.entry) event.now answer.now → IfOk result (λ spots. AreThose spots.items (reach_of past event.now answer.now).spots) }
{
    tell_lines(tables);
    let spots = match event {
        Event::Retry(b) => known_at(alloc, plan.register(), tables, *b)?,
        Event::LinkUp(b) | Event::LinkDown(b, _) => flight_spots(alloc, *b, flight)?,
        Event::Report(b, _, _) => report_spots(alloc, *b, answer, flight)?,
        Event::Send(_, _) | Event::Ask(_, _, _, _) | Event::Edit(_) => Vec::new(alloc),
    };
    Ok(spots)
}

/// On which lines an edit bears that is accepted and no Forget.
pub(crate) fn reach_of_edit(
    alloc: Global,
    plan: &Plan,
    tables: &LineTable,
    edit: &Edit,
) -> Result<Reach, AllocError>
    requires { is_forget edit.now ≡ false }
    ensures { (settings : Settings) (past : Past) → EditTold settings past plan.now.register plan.now.areas plan.now.book tables.now edit.now → IfOk result (λ r. IsReach (record { spots = r.spots.items; warnings = r.warnings.items }) (edit_reach past edit.now)) }
{
    let spots = edit_spots(alloc, plan, tables, edit)?;
    let warnings = reached_warnings::of_edit(alloc, plan.book(), edit)?;
    Ok(Reach { spots, warnings })
}

/// On which lines an event bears that is no edit, and that is answered so. What is in flight is so to its BSC.
pub(crate) fn reach_of_other(
    alloc: Global,
    plan: &Plan,
    tables: &LineTable,
    h: &Happening<'_, '_>,
) -> Result<Reach, AllocError>
    ensures { (settings : Settings) (past : Past) → EventTold settings past plan.now.register plan.now.book tables.now (option_copied h.now.flight) h.now.event.now h.now.answer.now → IfOk result (λ r. IsReach (record { spots = r.spots.items; warnings = r.warnings.items }) (reach_of past h.now.event.now h.now.answer.now)) }
{
    let spots = event_spots(alloc, plan, tables, h.event, h.answer, h.flight)?;
    let warnings = reached_warnings::of_event(alloc, plan.book(), h.event, h.answer, h.flight)?;
    Ok(Reach { spots, warnings })
}
