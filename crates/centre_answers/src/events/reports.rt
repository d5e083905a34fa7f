//! Reports of BSCs.

ghost use Rattle.std.specs.Prelude.{◌≡◌, IfOk};
ghost use Rattle.std.specs.Option.{option_copied};
ghost use Rattle.centre_past.specs.Idle.{AreKnownOf};
ghost use Rattle.centre_past.specs.IsKept.{IsKept};
ghost use Rattle.centre_events.specs.Kept.{Gives};
ghost use Rattle.centre_past.specs.Legal.{Legal};
ghost use Rattle.centre_events.specs.Outcomes.{listed_cells};
ghost use Rattle.centre_events.specs.Past.{Past};
ghost use Rattle.centre_events.specs.Verdict.{report, reply_answer, report_answer};
ghost use Rattle.centre_events.specs.declared.settings.Settings.{Settings};

use crate::events::Verdict;
use crate::events::links::check_link;
use cbsp_ie::CellId;
use cbsp_messages::Message;
use cell_register::BscId;
use centre_events::answer::Answer;
use centre_events::effects::is_about;
use centre_events::in_flight::InFlight;
use centre_events::refusal::Refusal;
use centre_events::replying::{failed_ids, is_out_of_place, replies_to};
use centre_past::kept::Kept;
use centre_past::links::flight_in;
use common::Cells;
use std::alloc::{AllocError, Global};
use warning_book::Kind;

/// The cells known at the BSC that the identifications of an indication name, in order; none where the indication is about
/// warnings of neither kind (TS 48.049, 8.2.24). The network code is the centre's, as its three octets are sent.
fn listed_cells(
    alloc: Global,
    network: [u8; 3],
    kept: &Kept,
    b: BscId,
    number: u8,
    ids: &[CellId],
) -> Result<Cells, AllocError>
    ensures { (settings : Settings) (past : Past) → Legal settings past → AreKnownOf past kept.now.tables.lines kept.now.plan.register → IfOk result (λ cells. cells ≡ listed_cells network past b number ids.now) }
{
    if !is_about(number, Kind::Cbs) && !is_about(number, Kind::Emergency) {
        return Ok(Cells::from_vec(Vec::new(alloc)));
    }
    let cells = kept
        .tables
        .cells_named(kept.plan.register(), network, b, ids)?;
    Ok(cells)
}

/// What a reply to what is in flight is answered.
fn reply_answer(
    alloc: Global,
    network: [u8; 3],
    message: &Message,
    flight: Option<&InFlight>,
) -> Verdict
    ensures { Gives (reply_answer network message.now (option_copied flight.entry)) result }
{
    let Some(flight) = flight else {
        return Err(Refusal::NoOrder);
    };
    let replies = replies_to(alloc, network, message, flight)?;
    Ok(Answer::Replied(replies))
}

/// What a message that isn't out of place is answered: an indication lists cells, a reply answers what is in flight.
fn report_answer(
    alloc: Global,
    network: [u8; 3],
    kept: &Kept,
    b: BscId,
    message: &Message,
    flight: Option<&InFlight>,
) -> Verdict
    ensures { (settings : Settings) (past : Past) → Legal settings past → AreKnownOf past kept.now.tables.lines kept.now.plan.register → Gives (report_answer network past b message.now (option_copied flight.entry)) result }
{
    match message {
        Message::Restart(said) => {
            let cells = listed_cells(alloc, network, kept, b, said.kind, said.cells.ids())?;
            Ok(Answer::Listed(cells))
        }
        Message::Failure(said) => {
            let ids = failed_ids(alloc, &said.failures)?;
            let cells = listed_cells(alloc, network, kept, b, said.kind, ids.as_slice())?;
            Ok(Answer::Listed(cells))
        }
        _ => reply_answer(alloc, network, message, flight),
    }
}

/// Report: a message of a BSC, over its link.
pub(crate) fn report(
    alloc: Global,
    network: [u8; 3],
    kept: &Kept,
    b: BscId,
    generation: u64,
    message: &Message,
) -> Verdict
    ensures { (settings : Settings) (past : Past) → Legal settings past → IsKept past kept.now → AreKnownOf past kept.now.tables.lines kept.now.plan.register → Gives (report network past b generation message.now) result }
{
    check_link(&kept.links, kept.plan.register(), b, generation)?;
    let flight = flight_in(&kept.links, b);
    if is_out_of_place(message, flight) {
        return Err(Refusal::NoOrder);
    }
    report_answer(alloc, network, kept, b, message, flight)
}
