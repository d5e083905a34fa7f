//! What an event does to a key: a message in a cell of a BSC.

ghost use Rattle.std.specs.Prelude.{◌≡◌, ◌&&◌, Bool, IfSome, nat_eq, true, None};
ghost use Rattle.std.specs.List.{list_any};
ghost use Rattle.warning_book.specs.Book.{has_number};
ghost use Rattle.centre_events.specs.Down.{says_down, listed_down, edit_down, down_mark};
ghost use Rattle.centre_events.specs.Effects.{is_about, is_among, is_given, write_refused, replace_refused, kill_refused, new_effect, old_refused, old_effect, query_effect, replaces, key_effect, restart_effect, indicated_effect, presence_mark, hold_mark, state_after};
ghost use Rattle.centre_events.specs.Presence.{edit_effect};
ghost use Rattle.centre_events.specs.Warnings.{has_key, is_version};
ghost use Rattle.warning_book.specs.declared.warning.Warning as warning_spec;

use crate::answer::Answer;
use crate::effect::Effect;
use crate::event::Event;
use crate::finding::place_of;
use crate::outcome::Outcome;
use cbsp_ie::Cause;
use cbsp_messages::Message;
use cell_register::BscId;
use common::Cell;
use coverage_plan::Edit;
use mirror::{KeyState, Presence};
use order_maker::{Order, OrderKind};
use serials::Serial;
use warning_book::{Kind, Version, Warning, WarningId};

/// Whether the cell is one of the list. In a list in ascending order one that is there is found by halves.
pub fn is_among(c: Cell, cells: &[Cell]) -> bool
    ensures { result ≡ is_among c cells.now }
{
    place_of(c, cells).is_some()
}

/// What an order that was refused does at the key of its serial number.
fn new_refused(kind: OrderKind, cause: Cause) -> Effect
    ensures { result ≡ new_effect kind (Outcome.Refused cause) }
{
    match (kind, cause.0) {
        (OrderKind::Write | OrderKind::Replace { old: _ }, 13) => Effect::Sets(Presence::OnAir),
        (OrderKind::Replace { old: _ }, 2) => Effect::Leaves,
        (OrderKind::Kill, 2 | 3) => Effect::Sets(Presence::Absent),
        _ => Effect::Holds(cause),
    }
}

/// What an order that was carried out does at the key of its serial number.
fn new_done(kind: OrderKind) -> Effect
    ensures { result ≡ new_effect kind Outcome.Done }
{
    match kind {
        OrderKind::Write | OrderKind::Replace { old: _ } => Effect::Sets(Presence::OnAir),
        OrderKind::Kill => Effect::Sets(Presence::Absent),
    }
}

/// What an order of the kind with that outcome does at the key of its serial number.
pub fn new_effect(kind: OrderKind, outcome: Outcome) -> Effect
    ensures { result ≡ new_effect kind outcome }
{
    match outcome {
        Outcome::Done => new_done(kind),
        Outcome::Refused(cause) => new_refused(kind, cause),
        Outcome::Silent => Effect::Sets(Presence::Unknown),
    }
}

/// What a replace with that outcome does at the key of its Old Serial Number.
pub fn old_effect(outcome: Outcome) -> Effect
    ensures { result ≡ old_effect outcome }
{
    match outcome {
        Outcome::Done | Outcome::Refused(Cause(2)) => Effect::Sets(Presence::Absent),
        Outcome::Silent | Outcome::Refused(Cause(13)) => Effect::Sets(Presence::Unknown),
        Outcome::Refused(_) => Effect::Leaves,
    }
}

/// What a query with that outcome does at its key.
pub fn query_effect(outcome: Outcome) -> Effect
    ensures { result ≡ query_effect outcome }
{
    match outcome {
        Outcome::Refused(Cause(2)) => Effect::Sets(Presence::Absent),
        _ => Effect::Leaves,
    }
}

/// What an order does at the key of that serial number, of its message identifier and in one of its cells.
pub fn key_effect(order: &Order, outcome: Outcome, serial: Serial) -> Effect
    ensures { result ≡ key_effect order.now outcome serial }
{
    if order.serial == serial {
        return new_effect(order.kind, outcome);
    }
    match order.kind {
        OrderKind::Replace { old } if old == serial => old_effect(outcome),
        _ => Effect::Leaves,
    }
}

/// Whether an indication of that type is about warnings of the kind (TS 48.049, 8.2.24).
pub fn is_about(number: u8, kind: Kind) -> bool
    ensures { result ≡ is_about number kind }
{
    match kind {
        Kind::Cbs => number == 0,
        Kind::Emergency => number == 1,
    }
}

/// What an indication does at each key of a warning of the kind, in a cell that it lists.
pub(crate) fn indicated_effect(kind: Kind, message: &Message) -> Effect
    ensures { result ≡ indicated_effect kind message.now }
{
    match message {
        Message::Restart(restart) if !is_about(restart.kind, kind) => Effect::Leaves,
        Message::Restart(restart) if restart.recovery == 0 => Effect::Frees,
        Message::Restart(_) => Effect::Sets(Presence::Absent),
        _ => Effect::Leaves,
    }
}

/// Whether one of the versions has this serial number.
fn has_version(serial: Serial, versions: &[Version]) -> bool
    ensures { result ≡ list_any (is_version serial) versions.now }
{
    versions.iter().any(|version| version.serial == serial)
}

/// Whether a version of the warning has this message identifier and serial number.
fn has_key(message_id: u16, serial: Serial, w: &Warning) -> bool
    ensures { result ≡ has_key message_id serial w.now }
{
    w.message_id() == message_id && has_version(serial, w.versions())
}

/// The warning of that number, where it stands in a list in the order of their numbers. In any other list it may not be found.
fn warning_in_order(number: WarningId, warnings: &[Warning]) -> Option<&Warning>
    ensures there { (p : warning_spec.Warning → Bool) → IfSome result (λ w. p w.now ≡ true → list_any (λ x. has_number number x && p x) warnings.now ≡ true) }
{
    let place = warnings.partition_point(|w| w.number().number() < number.number());
    match warnings.get(place) {
        Some(w) if w.number() == number => Some(w),
        _ => None,
    }
}

/// Whether a version of the warning of this number has this message identifier and serial number.
pub fn is_of_warning(
    number: WarningId,
    message_id: u16,
    serial: Serial,
    warnings: &[Warning],
) -> bool
    ensures { result ≡ list_any (λ w. has_number number w && has_key message_id serial w) warnings.now }
{
    if let Some(w) = warning_in_order(number, warnings) {
        if has_key(message_id, serial, w) {
            return true;
        }
    }
    warnings
        .iter()
        .any(|w| w.number() == number && has_key(message_id, serial, w))
}

/// Whether the warning has this message identifier.
fn has_message_id(message_id: u16, w: &Warning) -> bool
    ensures { result ≡ nat_eq w.now.message_id message_id }
{
    w.message_id() == message_id
}

/// Whether the warning of that number has the message identifier.
fn is_numbered(number: WarningId, message_id: u16, warnings: &[Warning]) -> bool
    ensures { result ≡ list_any (λ w. has_number number w && nat_eq w.message_id message_id) warnings.now }
{
    if let Some(w) = warning_in_order(number, warnings) {
        if has_message_id(message_id, w) {
            return true;
        }
    }
    warnings
        .iter()
        .any(|w| w.number() == number && has_message_id(message_id, w))
}

/// Whether the answer gives the serial number to the next version of the warning of that number, which has the message
/// identifier.
pub fn is_given(
    number: WarningId,
    message_id: u16,
    serial: Serial,
    answer: &Answer,
    warnings: &[Warning],
) -> bool
    ensures { result ≡ is_given number message_id serial answer.now warnings.now }
{
    match answer {
        Answer::Updated(given) => { serial == *given && is_numbered(number, message_id, warnings) }
        _ => false,
    }
}

/// What an edit does at a key of the BSC, by its answer and the warnings in the book before it.
pub fn edit_effect(
    b: BscId,
    message_id: u16,
    serial: Serial,
    edit: &Edit,
    answer: &Answer,
    warnings: &[Warning],
) -> Effect
    ensures { result ≡ edit_effect b message_id serial edit.now answer.now warnings.now }
{
    match edit {
        Edit::RemoveBsc(other) if *other == b => Effect::Sets(Presence::Absent),
        Edit::Update(number, _) if is_given(*number, message_id, serial, answer, warnings) => {
            Effect::Frees
        }
        Edit::Forget(number) if is_of_warning(*number, message_id, serial, warnings) => {
            Effect::Frees
        }
        _ => Effect::Leaves,
    }
}

/// What is known of the message after the effect, and what holds an order for it back.
fn marked(effect: Effect, state: KeyState) -> KeyState
    ensures { result ≡ state_after effect None state }
{
    match effect {
        Effect::Sets(presence) => KeyState {
            presence,
            hold: None,
            ..state
        },
        Effect::Holds(cause) => KeyState {
            hold: Some(cause),
            ..state
        },
        Effect::Frees => KeyState {
            hold: None,
            ..state
        },
        Effect::Leaves => state,
    }
}

/// What is kept of a key after the effect on it, where that number of broadcasts is reported, if one is.
pub fn state_after(effect: Effect, count: Option<u16>, state: KeyState) -> KeyState
    ensures { result ≡ state_after effect count state }
{
    let marked = marked(effect, state);
    match count {
        Some(count) => KeyState { count, ..marked },
        None => marked,
    }
}

/// Whether the message says that the cells it lists are down for warnings of the kind, or up.
fn says_down(kind: Kind, message: &Message) -> Option<bool>
    ensures { result ≡ says_down kind message.now }
{
    match message {
        Message::Failure(failure) if is_about(failure.kind, kind) => Some(true),
        Message::Restart(restart) if is_about(restart.kind, kind) => Some(false),
        _ => None,
    }
}

/// Whether the event, answered so, brings the cell down at the BSC for warnings of the kind (`Some(true)`), or up
/// (`Some(false)`).
#[inline(always)]
pub fn down_mark(kind: Kind, b: BscId, c: Cell, event: &Event, answer: &Answer) -> Option<bool>
    ensures { result ≡ down_mark kind b c event.now answer.now }
{
    match (event, answer) {
        (Event::Edit(Edit::RemoveBsc(other)), _) if *other == b => Some(false),
        (Event::Report(other, _, message), Answer::Listed(cells))
            if *other == b && is_among(c, cells.as_slice()) => { says_down(kind, message) }
        _ => None,
    }
}
