//! The message that answers a request.

ghost use Rattle.std.specs.Prelude.{◌≡◌, IfOk};
ghost use Rattle.bsc_sim.specs.Answering.{channel_of, complete_of, counts_of, counts_part, done_part, failure_of, not_understood, reply_of};

use crate::choices::Choices;
use crate::request::{Request, Task};
use cbsp_ie::{Cause, CellId, CellIds, CountEntry, Counts, Failures, Form};
use cbsp_messages::{
    ErrorIndication, KillComplete, KillFailure, Message, StatusComplete, StatusFailure,
    WriteComplete, WriteFailure,
};
use common::Cell;
use std::alloc::{AllocError, Global};

/// The basic channel.
const BASIC_CHANNEL: u8 = 0;

/// The answer to what isn't taken, on this channel, if one is given.
pub(crate) fn not_understood(channel: Option<u8>) -> Message
    ensures { result ≡ not_understood channel }
{
    Message::ErrorIndication(ErrorIndication {
        cause: Cause::UNRECOGNISED_MESSAGE,
        message_id: None,
        serial: None,
        old: None,
        channel,
    })
}

/// The basic channel, if the request names a channel.
pub(crate) fn channel_of(request: &Request) -> Option<u8>
    ensures { result ≡ channel_of request.now }
{
    if request.has_channel {
        Some(BASIC_CHANNEL)
    } else {
        None
    }
}

/// The list of the cells, if there are any.
fn done_part(alloc: Global, done: &[Cell]) -> Result<Option<CellIds>, AllocError>
    ensures { IfOk result (λ part. part ≡ done_part done.now) }
{
    if done.is_empty() {
        return Ok(None);
    }
    Ok(Some(CellIds::of_cells(alloc, done)?))
}

/// How often the message was broadcast in those of the cells for which that is chosen.
fn counts_of(alloc: Global, choices: &Choices, done: &[Cell]) -> Result<Counts, AllocError>
    ensures { IfOk result (λ counts. counts ≡ counts_of choices.now done.now) }
{
    let mut counts = Counts::new(alloc, Form::LacCi);
    for cell in done {
        if let Some(number) = choices.count(*cell) {
            let id = CellId::LacCi {
                lac: cell.lac,
                ci: cell.ci,
            };
            counts.push(CountEntry {
                id,
                number,
                info: 0,
            })?;
        }
    }
    Ok(counts)
}

/// The counts, if there are any.
fn counts_part(counts: Counts) -> Option<Counts>
    ensures { result ≡ counts_part counts }
{
    if counts.is_empty() {
        return None;
    }
    Some(counts)
}

/// The answer to the request that was done in these cells and failed in those.
pub(crate) fn reply(
    alloc: Global,
    choices: &Choices,
    request: &Request,
    done: &[Cell],
    failures: Failures,
) -> Result<Message, AllocError>
    ensures { IfOk result (λ reply. reply ≡ reply_of choices.now request.now done.now failures) }
{
    let counts = counts_of(alloc, choices, done)?;
    if failures.is_empty() {
        return complete(alloc, request, done, counts);
    }
    failure(alloc, request, done, counts, failures)
}

/// The COMPLETE.
fn complete(
    alloc: Global,
    request: &Request,
    done: &[Cell],
    counts: Counts,
) -> Result<Message, AllocError>
    ensures { IfOk result (λ reply. reply ≡ complete_of request.now done.now counts) }
{
    let message_id = request.message_id;
    let serial = request.serial;
    let channel = channel_of(request);
    Ok(match request.task {
        Task::Write { old } => Message::WriteComplete(WriteComplete {
            message_id,
            serial,
            old,
            counts: counts_part(counts),
            cells: done_part(alloc, done)?,
            channel,
        }),
        Task::Kill => Message::KillComplete(KillComplete {
            message_id,
            serial,
            counts: counts_part(counts),
            cells: done_part(alloc, done)?,
            channel,
        }),
        Task::Query => Message::StatusComplete(StatusComplete {
            message_id,
            serial,
            counts,
            channel,
        }),
    })
}

/// The FAILURE.
fn failure(
    alloc: Global,
    request: &Request,
    done: &[Cell],
    counts: Counts,
    failures: Failures,
) -> Result<Message, AllocError>
    ensures { IfOk result (λ reply. reply ≡ failure_of request.now done.now counts failures) }
{
    let message_id = request.message_id;
    let serial = request.serial;
    let counts = counts_part(counts);
    let channel = channel_of(request);
    Ok(match request.task {
        Task::Write { old } => Message::WriteFailure(WriteFailure {
            message_id,
            serial,
            old,
            failures,
            counts,
            cells: done_part(alloc, done)?,
            channel,
        }),
        Task::Kill => Message::KillFailure(KillFailure {
            message_id,
            serial,
            failures,
            counts,
            cells: done_part(alloc, done)?,
            channel,
        }),
        Task::Query => Message::StatusFailure(StatusFailure {
            message_id,
            serial,
            failures,
            counts,
            channel,
        }),
    })
}
