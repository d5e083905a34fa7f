//! What no clause says of messages: how long a list may be, and texts. All messages are read, copied and written in
//! `codec_vectors`.

ghost use Rattle.std.specs.Prelude.{◌≡◌};

use crate::values::yes;
use cbsp_ie::{CellId, CellIds, ElementId, Form, IeFault};
use cbsp_messages::{Kill, Message, MessageFault};
use std::alloc::{AllocError, Global};
use std::process::Abort;

fn cell_identities(alloc: Global, count: u16) -> Result<CellIds, AllocError> {
    let mut cells = CellIds::new(alloc, Form::Ci);
    for ci in 0..count {
        cells.push(CellId::Ci { ci })?;
    }
    Ok(cells)
}

/// A KILL in these cells.
fn kill(cells: CellIds) -> Message {
    Message::Kill(Kill {
        message_id: 4370,
        serial: 0xc000,
        cells,
        channel: Some(0),
    })
}

fn fits(rt: &impl Abort, alloc: Global, count: u16) -> bool {
    let message = kill(cell_identities(alloc, count).expect(rt, "memory"));
    let fits = message.fits();
    drop(message);
    fits
}

#[test]
fn a_list_fits_up_to_65535_octets(rt: HostRuntime) {
    // a discriminator, and two octets for each cell identity
    yes(&rt, fits(&rt, rt.alloc(), 32_767), "65,535 octets fit");
    yes(&rt, !fits(&rt, rt.alloc(), 32_768), "65,537 do not");
}

fn has_text(rt: &impl Abort, alloc: Global, fault: &MessageFault, want: &str) {
    let text = format!(in alloc; "{fault}").expect(rt, "memory");
    yes(rt, text.as_str() == want, want);
}

#[test]
fn faults_are_told(rt: HostRuntime) {
    let alloc = rt.alloc();
    let id = ElementId::FailureList;
    let missing = MessageFault::Missing { id };
    has_text(&rt, alloc, &missing, "FailureList is missing");
    let unknown = MessageFault::from(IeFault::UnknownElement { id: 0xff });
    let want = "no element has the identifier FF";
    has_text(&rt, alloc, &unknown, want);
}
