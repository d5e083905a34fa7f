//! A BSC forgets what it broadcasts when it connects.

ghost use Rattle.std.specs.Prelude.{◌≡◌, IfOk};
ghost use Rattle.journal_keeper.specs.Kept.{Covers};

use crate::incoming::Incoming;
use crate::shared::{Shared, now_of, second_of};
use cbsp_ie::CellIds;
use cbsp_messages::{Message, Restart};
use centre_events::event::Event;
use centre_events::refusal::Refusal;
use centre_past::reported::ReportedKeys;
use journal_keeper::{KeptUpTo, Untold};
use link_resets::{EmergencyKey, emergency_keys, reset_frames};
use link_worker::{End, Load};
use office::desk::Desk;
use office::question::Question;
use office::seen::SeenValue;
use server_ports::{Broken, Port, SideEnd};
use std::alloc::AllocError;
use std::io::Write;
use std::net::TcpStream;
use std::sync::Wait;
use std::sync::ledger::Ledger;
use std::time::Clock;

/// The Recovery Indication that data were lost (3GPP TS 48.049, 8.2.18).
const DATA_LOST: u8 = 1;

/// What it asks of the centre that all cells of a BSC restarted.
const ALL: Load = Load {
    octets: 0,
    cells: None,
};

/// Submits that all cells of the BSC restarted without what they broadcast, for warnings of that Broadcast Message Type.
fn submit_restart<L: Ledger, E: Write + Drop, R: Wait + Clock>(
    rt: &R,
    shared: &Shared<L, E>,
    port: &Port<L>,
    desk: &mut Desk<L>,
    generation: u64,
    kind: u8,
) -> Result<(), Refusal> {
    let Ok(cells) = CellIds::all(shared.alloc) else {
        return Err(Refusal::Memory);
    };
    let restart = Message::Restart(Restart {
        cells,
        kind,
        recovery: DATA_LOST,
    });
    let event = Event::Report(port.bsc, generation, restart);
    shared.begin_report(rt, port, ALL);
    let result = shared.office.submit(rt, desk, event);
    let kept = shared.end_report(rt, port);
    shared.submitted_large(rt, kept);
    result
}

/// Submits that all cells of the BSC restarted without what they broadcast, for both types.
fn submit_restarts<L: Ledger, E: Write + Drop, R: Wait + Clock>(
    rt: &R,
    shared: &Shared<L, E>,
    port: &Port<L>,
    desk: &mut Desk<L>,
    generation: u64,
) -> Result<(), Refusal> {
    for kind in 0..2u8 {
        submit_restart(rt, shared, port, desk, generation, kind)?;
    }
    Ok(())
}

/// What the BSC has reported.
fn table_of<L: Ledger, E: Write + Drop, R: Wait + Clock>(
    rt: &R,
    shared: &Shared<L, E>,
    port: &Port<L>,
    desk: &Desk<L>,
) -> Result<ReportedKeys, Refusal> {
    let seen = shared.office.look(rt, desk, Question::Table(port.bsc))?;
    match seen.value {
        SeenValue::Table(keys) => Ok(keys),
        _ => Err(Refusal::Memory),
    }
}

/// The emergency messages that the BSC has reported. A warning of which it has reported one isn't forgotten before the book is looked at.
fn emergencies_of<L: Ledger, E: Write + Drop, R: Wait + Clock>(
    rt: &R,
    shared: &Shared<L, E>,
    desk: &Desk<L>,
    table: &ReportedKeys,
) -> Result<Vec<EmergencyKey>, Refusal> {
    let seen = shared.office.look(rt, desk, Question::Warnings)?;
    let found = match &seen.value {
        SeenValue::Warnings(warnings) => {
            emergency_keys(shared.alloc, table.as_slice(), warnings.as_slice())
        }
        _ => Err(AllocError),
    };
    drop(seen);
    match found {
        Ok(keys) => Ok(keys),
        Err(_) => Err(Refusal::Memory),
    }
}

/// What is to be written to the BSC, so that it forgets what it broadcasts. It tells of the entry by which its link came up, whose place is
/// the generation.
fn frames_of<L: Ledger, E: Write + Drop, R: Wait + Clock>(
    rt: &R,
    shared: &Shared<L, E>,
    port: &Port<L>,
    desk: &Desk<L>,
    generation: u64,
) -> Result<Untold<Vec<u8>>, Refusal>
    ensures { IfOk result (λ frames. frames.place ≡ generation) }
{
    let table = table_of(rt, shared, port, desk)?;
    let keys = emergencies_of(rt, shared, desk, &table)?;
    match reset_frames(shared.alloc, keys.as_slice()) {
        Ok(frames) => Ok(Untold::new(generation, frames)),
        Err(_) => Err(Refusal::Memory),
    }
}

/// Writes frames, as what they ask for is kept.
fn write_frames(
    mut stream: &TcpStream,
    frames: Untold<Vec<u8>>,
    kept: &KeptUpTo,
) -> Result<(), SideEnd>
    requires { Covers kept.now frames.place }
{
    let frames = frames.tell(kept);
    match stream.write_all(frames.as_slice()) {
        Ok(()) => Ok(()),
        Err(error) => Err(SideEnd {
            end: End::WriteFault,
            broken: Some(Broken::of(error.kind())),
        }),
    }
}

/// Has the BSC of a link that has come up forget what it broadcasts, before any order is written, and waits until it has. Only then
/// does the board count its messages as gone, and what was known of their broadcasts is forgotten. What it sent before its answer is
/// read after that. `Err` is how the link ends.
pub(crate) fn reset_cells<L: Ledger, E: Write + Drop, R: Wait + Clock>(
    incoming: &mut Incoming<'_, L, E, R>,
    desk: &mut Desk<L>,
    generation: u64,
) -> Result<(), SideEnd> {
    let (rt, shared, port) = (incoming.rt, incoming.shared, incoming.port);
    let frames = match frames_of(rt, shared, port, desk, generation) {
        Ok(frames) => frames,
        Err(refusal) => return Err(SideEnd::of(End::Refused(refusal))),
    };
    let Some(kept) = shared.wait_kept(rt, generation) else {
        return Err(SideEnd::of(End::GateShut));
    };
    port.reset(rt, now_of(rt), second_of(rt));
    write_frames(incoming.stream, frames, &kept)?;
    incoming.wait_reset(desk)?;
    let entered = submit_restarts(rt, shared, port, desk, generation);
    port.silences.lock(rt).forget();
    port.reset_done(rt);
    match entered {
        Ok(()) => Ok(()),
        Err(refusal) => Err(SideEnd::of(End::Refused(refusal))),
    }
}
