//! What an event makes of one line.

ghost use Rattle.std.specs.Prelude.{◌≡◌, ◌&&◌, ℕ, true, false, None, Some, nat_eq, map, if◌then◌else◌};
ghost use Rattle.std.specs.Option.{option_copied};
ghost use Rattle.common.specs.declared.cell.Cell.{Cell};
ghost use Rattle.mirror.specs.Line.{state_of, with_state};
ghost use Rattle.mirror.specs.declared.key_state.KeyState.{KeyState};
ghost use Rattle.centre_events.specs.Counts.{count_mark, edit_count, is_counted_key, replied_count, report_count};
ghost use Rattle.centre_events.specs.Presence.{edit_effect, effect};
ghost use Rattle.centre_events.specs.Effects.{flight_effect, is_among, outcome_in, report_effect, said_effect, state_after};
ghost use Rattle.centre_events.specs.InFlight.{cells_of, id_of};
ghost use Rattle.centre_events.specs.Stepping.{stepped};
ghost use Rattle.centre_events.specs.Warnings.{serials};
ghost use Rattle.warning_book.specs.Book.{kind_of};

use crate::answer::Answer;
use crate::counts::edit_count;
use crate::effect::Effect;
use crate::effects::{
    edit_effect, indicated_effect, is_among, key_effect, query_effect, state_after,
};
use crate::event::Event;
use crate::finding::place_of;
use crate::in_flight::InFlight;
use crate::naming::names_serial;
use crate::outcome::Outcome;
use crate::replies::Replies;
use crate::replying::{cells_of, id_of, old_of};
use cbsp_messages::Message;
use cell_register::BscId;
use common::Cell;
use coverage_plan::Edit;
use mirror::Line;
use serials::Serial;
use warning_book::{Version, Warning};

/// What happens: an event and what it is answered, whether the link of its BSC was up before, and what was in flight to it.
#[derive(Clone, Copy)]
pub struct Happening<'a, 'b> {
    pub event: &'a Event,
    pub answer: &'a Answer,
    pub up: bool,
    pub flight: Option<&'b InFlight>,
}

/// Whether the effect and the number of broadcasts leave every key as it is.
fn leaves_all(effect: Effect, count: Option<u16>) -> bool
    ensures { result ≡ true → (k : KeyState) → state_after effect count k ≡ k }
{
    match effect {
        Effect::Leaves => count.is_none(),
        _ => false,
    }
}

/// Changes what is kept of a version by the effect on it, and by the number of broadcasts that is reported, if one is.
/// The result says whether that is another value than before.
fn step(line: &mut Line, serial: Serial, effect: Effect, count: Option<u16>) -> bool
    ensures line { line.new ≡ with_state line.old serial (state_after effect count (state_of line.old serial)) }
    ensures same { result ≡ false → line.new ≡ line.old }
{
    if leaves_all(effect, count) {
        return false;
    }
    let state = line.state(serial);
    let after = state_after(effect, count, state);
    if after.same(&state) {
        return false;
    }
    line.set_state(serial, after);
    true
}

/// Does the same to each of the versions. The result says whether one was given another value.
fn step_each(line: &mut Line, versions: &[Version], effect: Effect, count: Option<u16>) -> bool
    ensures line { line.new ≡ stepped (λ s. effect) (λ s. count) line.old (map (λ v. v.serial) versions.now) }
    ensures same { result ≡ false → line.new ≡ line.old }
{
    let mut is_changed = false;
    for version in versions {
        is_changed = step(line, version.serial, effect, count) || is_changed;
    }
    is_changed
}

/// Does to each version of the warning what the edit does. The result says whether one was given another value.
fn step_by_edit(
    line: &mut Line,
    w: &Warning,
    b: BscId,
    edit: &Edit,
    answer: &Answer,
    warnings: &[Warning],
) -> bool
    ensures line { line.new ≡ stepped (λ s. edit_effect b w.now.message_id s edit.now answer.now warnings.now) (λ s. edit_count b w.now.message_id s edit.now answer.now warnings.now) line.old (serials w.now) }
    ensures same { result ≡ false → line.new ≡ line.old }
{
    let message_id = w.message_id();
    let versions = w.versions();
    let mut is_changed = false;
    for version in versions {
        let effect = edit_effect(b, message_id, version.serial, edit, answer, warnings);
        let count = edit_count(b, message_id, version.serial, edit, answer, warnings);
        is_changed = step(line, version.serial, effect, count) || is_changed;
    }
    is_changed
}

/// What is in flight does with that outcome to a version of its message identifier, in one of its cells.
fn named_effect(flight: &InFlight, outcome: Outcome, serial: Serial) -> Effect
    ensures { (c : Cell) → is_among c (cells_of flight.now) ≡ true → result ≡ flight_effect (Some flight.now) outcome c (id_of flight.now) serial }
{
    match flight {
        InFlight::Order(order) => key_effect(order, outcome, serial),
        InFlight::Query { serial: asked, .. } if *asked == serial => query_effect(outcome),
        InFlight::Query { .. } => Effect::Leaves,
    }
}

/// The number of broadcasts of a version, where it is the one that was on air before what is in flight.
fn named_count(flight: &InFlight, count: Option<u16>, serial: Serial) -> Option<u16>
    ensures { (c : Cell) → is_among c (cells_of flight.now) ≡ true → result ≡ (if is_counted_key flight.now c (id_of flight.now) serial then count else None) }
{
    if old_of(flight) == Some(serial.to_u16()) {
        count
    } else {
        None
    }
}

/// Does to the versions that are named what comes of what is in flight in one of its cells. The result says whether one was
/// given another value.
fn step_named(
    line: &mut Line,
    versions: &[Version],
    flight: &InFlight,
    outcome: Outcome,
    count: Option<u16>,
) -> bool
    ensures line { (c : Cell) → is_among c (cells_of flight.now) ≡ true → line.new ≡ stepped (λ s. flight_effect (Some flight.now) outcome c (id_of flight.now) s) (λ s. (if is_counted_key flight.now c (id_of flight.now) s then count else None)) line.old (map (λ v. v.serial) versions.now) }
    ensures same { result ≡ false → line.new ≡ line.old }
{
    let mut is_changed = false;
    for version in versions {
        let serial = version.serial;
        if names_serial(flight, serial) {
            let effect = named_effect(flight, outcome, serial);
            let count = named_count(flight, count, serial);
            is_changed = step(line, serial, effect, count) || is_changed;
        }
    }
    is_changed
}

/// Does to the versions of the warning what the loss of the link does: nothing is said of what was in flight. The result says
/// whether one was given another value.
fn step_by_loss(line: &mut Line, w: &Warning, c: Cell, flight: Option<&InFlight>) -> bool
    ensures line { line.new ≡ stepped (λ s. flight_effect (option_copied flight.entry) Outcome.Silent c w.now.message_id s) (λ s. None) line.old (serials w.now) }
    ensures same { result ≡ false → line.new ≡ line.old }
{
    match flight {
        Some(flight) if id_of(flight) == w.message_id() && is_among(c, cells_of(flight)) => {
            step_named(line, w.versions(), flight, Outcome::Silent, None)
        }
        _ => false,
    }
}

/// Does to the versions of the warning what the replies say of the cell. The reply of a cell mostly stands where the cell does
/// in what was in flight. The result says whether a version was given another value.
fn step_by_replies(
    line: &mut Line,
    w: &Warning,
    c: Cell,
    flight: &InFlight,
    replies: &Replies,
) -> bool
    ensures line { line.new ≡ stepped (λ s. said_effect (outcome_in c replies.now) (Some flight.now) c w.now.message_id s) (λ s. replied_count (Some flight.now) replies.now c w.now.message_id s) line.old (serials w.now) }
    ensures same { result ≡ false → line.new ≡ line.old }
{
    if id_of(flight) != w.message_id() {
        return false;
    }
    let Some(place) = place_of(c, cells_of(flight)) else {
        return false;
    };
    match replies.of_cell_near(c, place) {
        Some(reply) => step_named(line, w.versions(), flight, reply.outcome, reply.count),
        None => false,
    }
}

/// Does to the versions of the warning what a report of their BSC does that was answered so. The result says whether one was
/// given another value.
fn step_by_report(
    line: &mut Line,
    w: &Warning,
    c: Cell,
    message: &Message,
    answer: &Answer,
    flight: Option<&InFlight>,
) -> bool
    ensures line { line.new ≡ stepped (λ s. report_effect (kind_of w.now) message.now answer.now (option_copied flight.entry) c w.now.message_id s) (λ s. report_count answer.now (option_copied flight.entry) c w.now.message_id s) line.old (serials w.now) }
    ensures same { result ≡ false → line.new ≡ line.old }
{
    match answer {
        Answer::Replied(replies) => match flight {
            Some(flight) => step_by_replies(line, w, c, flight, replies),
            None => false,
        },
        Answer::Listed(cells) if is_among(c, cells.as_slice()) => {
            step_each(
                line,
                w.versions(),
                indicated_effect(w.kind(), message),
                None,
            )
        }
        _ => false,
    }
}

/// Changes the line of the versions of the warning in the cell at the BSC by what happens. What a Forget does is said by the
/// warnings. The result says whether a version was given another value; most lines stay as they are.
pub fn step_line(
    h: &Happening<'_, '_>,
    w: &Warning,
    b: BscId,
    c: Cell,
    warnings: &[Warning],
    line: &mut Line,
) -> bool
    ensures line { line.new ≡ stepped (λ s. effect (kind_of w.now) b c w.now.message_id s h.now.event.now h.now.answer.now h.now.up (option_copied h.now.flight) warnings.now) (λ s. count_mark b c w.now.message_id s h.now.event.now h.now.answer.now (option_copied h.now.flight) warnings.now) line.old (serials w.now) }
    ensures same { result ≡ false → line.new ≡ line.old }
{
    match h.event {
        Event::Edit(edit) => step_by_edit(line, w, b, edit, h.answer, warnings),
        Event::Report(other, _, message) if *other == b => {
            step_by_report(line, w, c, message, h.answer, h.flight)
        }
        Event::LinkUp(other) if *other == b && h.up => step_by_loss(line, w, c, h.flight),
        Event::LinkDown(other, _) if *other == b => step_by_loss(line, w, c, h.flight),
        Event::Retry(other) if *other == b => step_each(line, w.versions(), Effect::Frees, None),
        _ => false,
    }
}
