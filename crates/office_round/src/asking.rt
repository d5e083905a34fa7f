//! What an office says.

use crate::events::first_warning;
use crate::met::Met;
use crate::want::{TRIES, Want};
use cell_register::BscId;
use centre_events::refusal::Refusal;
use office::desk::Desk;
use office::office::Office;
use office::question::Question;
use office::seen::{Seen, SeenValue};
use std::io::Print;
use std::sync::Wait;
use std::sync::ledger::Ledger;

/// Numbers that stand for an answer, the first of them that of the entries.
type Figures = [u64; 5];

/// What an office says of the warning and of the BSC.
#[derive(Clone, Copy, PartialEq, Eq)]
pub(crate) struct Says {
    pub(crate) total: Figures,
    pub(crate) pending: Figures,
    pub(crate) flight: Figures,
}

/// A question.
#[derive(Clone, Copy)]
enum Asked {
    Total,
    Pending,
    InFlight,
}

fn question(b: BscId, asked: Asked) -> Question {
    match asked {
        Asked::Total => Question::Total(first_warning()),
        Asked::Pending => Question::Pending(b),
        Asked::InFlight => Question::InFlight(b),
    }
}

/// The numbers of the warning; how many orders are pending, and in how many cells the first of them is; whether something is in
/// flight.
fn figures(seen: &Seen) -> Figures {
    let at = seen.position;
    match &seen.value {
        SeenValue::Numbers(n) => [at, n.awaited, n.on_air, n.failed, n.left],
        SeenValue::Pending(orders) => {
            let orders = orders.as_slice();
            let cells = orders.first().map(|order| order.cells.as_slice().len());
            [at, orders.len() as u64, cells.unwrap_or(0) as u64, 0, 0]
        }
        SeenValue::InFlight(flight) => [at, u64::from(flight.is_some()), 0, 0, 0],
        _ => [at, 0, 0, 0, 0],
    }
}

/// The answer. Nothing is counted where the warning or the BSC isn't there.
fn look<L: Ledger, R: Wait>(
    rt: &R,
    office: &Office<L>,
    desk: &Desk<L>,
    question: Question,
) -> Result<Figures, Refusal> {
    match office.look(rt, desk, question) {
        Ok(seen) => {
            let figures = figures(&seen);
            drop(seen);
            Ok(figures)
        }
        Err(Refusal::NoSuchWarning | Refusal::NoSuchBsc) => Ok([0, 0, 0, 0, 0]),
        Err(refusal) => Err(refusal),
    }
}

/// The answer, once memory is there.
fn looked<L: Ledger, R: Wait + Print>(
    rt: &R,
    office: &Office<L>,
    desk: &Desk<L>,
    b: BscId,
    asked: Asked,
    want: &mut Want,
) -> Result<Figures, Refusal> {
    for k in 0..TRIES {
        let question = question(b, asked);
        want.take(k);
        let said = look(rt, office, desk, question);
        want.give();
        match said {
            Err(Refusal::Memory) => want.note(rt, Met::Look),
            said => return said,
        }
    }
    Err(Refusal::Memory)
}

/// What the office says, once memory is there.
pub(crate) fn ask_all<L: Ledger, R: Wait + Print>(
    rt: &R,
    office: &Office<L>,
    desk: &Desk<L>,
    b: BscId,
    want: &mut Want,
) -> Result<Says, Refusal> {
    let total = looked(rt, office, desk, b, Asked::Total, want)?;
    let pending = looked(rt, office, desk, b, Asked::Pending, want)?;
    let flight = looked(rt, office, desk, b, Asked::InFlight, want)?;
    Ok(Says {
        total,
        pending,
        flight,
    })
}
