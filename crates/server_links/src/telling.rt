//! What reports came to is said: where orders were refused, which cells are down, and which broadcast again.

use crate::shared::{Shared, now_of};
use cbsp_messages::{ErrorIndication, Failure, Message, Restart};
use centre_events::answer::Answer;
use centre_events::effect::Effect;
use centre_events::effects::new_effect;
use centre_events::event::Event;
use centre_events::reply::Reply;
use common::Cell;
use lists_text::cause_name;
use office::receipt::Receipt;
use order_maker::OrderKind;
use serials::Serial;
use server_errors::{Level, RefusedCell, failure_text, refusal_text, restart_text, tell};
use server_ports::Port;
use std::alloc::{AllocError, Global};
use std::io::Write;
use std::net::SocketAddr;
use std::sync::Wait;
use std::sync::ledger::Ledger;
use std::time::Clock;

const MORE: &str = "more refusals, failures and restarts come than is said";

/// An order that a reply answers: its kind, and what it is in words.
#[derive(Drop)]
struct Answered {
    kind: OrderKind,
    words: String,
}

/// An order of this name for this message.
fn named_order(
    alloc: Global,
    kind: OrderKind,
    name: &str,
    message_id: u16,
    serial: u16,
) -> Result<Option<Answered>, AllocError> {
    let words = format!(in alloc; "a {name} of message {message_id}, serial number {serial:04X}")?;
    Ok(Some(Answered { kind, words }))
}

/// The kind of a WRITE-REPLACE that names an old serial number, or none.
fn write_kind(old: Option<u16>) -> OrderKind {
    match old {
        Some(old) => OrderKind::Replace {
            old: Serial::from_u16(old),
        },
        None => OrderKind::Write,
    }
}

/// What an ERROR INDICATION answers: which order it was, or which query, isn't said.
fn answered_error(alloc: Global, error: &ErrorIndication) -> Result<Option<Answered>, AllocError> {
    let words = String::from_str(alloc, "what was out (ERROR INDICATION)")?;
    let kind = match (error.serial, error.old) {
        (None, Some(_)) => OrderKind::Kill,
        (_, old) => write_kind(old),
    };
    Ok(Some(Answered { kind, words }))
}

/// The order that the reply answers; `None` where it refuses none.
fn answered_by(alloc: Global, message: &Message) -> Result<Option<Answered>, AllocError> {
    match message {
        Message::WriteFailure(m) => {
            let kind = write_kind(m.old);
            named_order(alloc, kind, "WRITE-REPLACE", m.message_id, m.serial)
        }
        Message::KillFailure(m) => {
            named_order(alloc, OrderKind::Kill, "KILL", m.message_id, m.serial)
        }
        Message::ErrorIndication(m) => answered_error(alloc, m),
        _ => Ok(None),
    }
}

/// The cell of the reply and the cause, where an order of that kind is held back there from now on.
fn held_back(kind: OrderKind, reply: &Reply) -> Option<RefusedCell> {
    match new_effect(kind, reply.outcome) {
        Effect::Holds(cause) => Some(RefusedCell {
            cell: reply.cell,
            cause: cause.0,
            name: cause_name(cause),
        }),
        _ => None,
    }
}

/// The cells in which an order of that kind is held back from now on.
fn all_held_back(
    alloc: Global,
    kind: OrderKind,
    replies: &[Reply],
) -> Result<Vec<RefusedCell>, AllocError> {
    replies
        .iter()
        .filter_map(|reply| held_back(kind, reply))
        .collect(alloc)
}

/// Whether an indication is about emergency warnings (3GPP TS 48.049, 8.2.24).
fn is_emergency(kind: u8) -> bool {
    kind == 1
}

impl<L: Ledger, E: Write + Drop> Shared<L, E> {
    /// Says that, if so much may be said of the port's reports just now.
    fn tell_of_report<R: Wait + Clock>(
        &self,
        rt: &R,
        port: &Port<L>,
        peer: &SocketAddr,
        level: Level,
        what: &str,
    ) {
        if port.take_told(rt, now_of(rt)) {
            self.tell_at(rt, port, peer, level, what);
        } else if port.is_first_told(rt) {
            tell(rt, self.alloc, &self.errors, port.bsc, MORE);
        }
    }

    /// Says where an order was refused and is held back.
    fn tell_refused<R: Wait + Clock>(
        &self,
        rt: &R,
        port: &Port<L>,
        peer: &SocketAddr,
        message: &Message,
        replies: &[Reply],
    ) -> Result<(), AllocError> {
        let Some(order) = answered_by(self.alloc, message)? else {
            return Ok(());
        };
        let refused = all_held_back(self.alloc, order.kind, replies)?;
        if refused.is_empty() {
            return Ok(());
        }
        let (words, refused) = (order.words.as_str(), refused.as_slice());
        let text = refusal_text(self.alloc, words, refused, port.bsc)?;
        self.tell_of_report(rt, port, peer, Level::Error, text.as_str());
        Ok(())
    }

    /// Says which cells are down.
    fn tell_failed<R: Wait + Clock>(
        &self,
        rt: &R,
        port: &Port<L>,
        peer: &SocketAddr,
        failure: &Failure,
        cells: &[Cell],
    ) -> Result<(), AllocError> {
        if cells.is_empty() {
            return Ok(());
        }
        let text = failure_text(self.alloc, is_emergency(failure.kind), cells)?;
        self.tell_of_report(rt, port, peer, Level::Error, text.as_str());
        Ok(())
    }

    /// Says which cells broadcast again.
    fn tell_restarted<R: Wait + Clock>(
        &self,
        rt: &R,
        port: &Port<L>,
        peer: &SocketAddr,
        restart: &Restart,
        cells: &[Cell],
    ) -> Result<(), AllocError> {
        if cells.is_empty() {
            return Ok(());
        }
        let are_lost = restart.recovery != 0;
        let text = restart_text(self.alloc, is_emergency(restart.kind), are_lost, cells)?;
        self.tell_of_report(rt, port, peer, Level::Notice, text.as_str());
        Ok(())
    }

    /// Says what a report came to, by its receipt. Where memory runs out, it isn't said.
    pub(crate) fn tell_report<R: Wait + Clock>(
        &self,
        rt: &R,
        port: &Port<L>,
        peer: &SocketAddr,
        receipt: &Receipt,
    ) {
        let Event::Report(_, _, message) = &receipt.event else {
            return;
        };
        let _ = match (&receipt.answer, message) {
            (Answer::Replied(replies), _) => {
                self.tell_refused(rt, port, peer, message, replies.as_slice())
            }
            (Answer::Listed(cells), Message::Failure(failure)) => {
                self.tell_failed(rt, port, peer, failure, cells.as_slice())
            }
            (Answer::Listed(cells), Message::Restart(restart)) => {
                self.tell_restarted(rt, port, peer, restart, cells.as_slice())
            }
            _ => Ok(()),
        };
    }
}
