//! What is written to a BSC that is to forget what it broadcasts.

ghost use Rattle.std.specs.Prelude.{◌≡◌, ◌++◌, IfOk};
ghost use Rattle.std.specs.List.{flat_map};
ghost use Rattle.link_resets.specs.Frames.{kill_frame, reset_frame};

use crate::emergency_key::EmergencyKey;
use cbsp_ie::CellIds;
use cbsp_messages::{Kill, Message, write};
use std::alloc::{AllocError, Global};

/// The frame of a RESET of all cells (3GPP TS 48.049, 8.1.3): its type, the length of its body, and a Cell List of form All.
const RESET: [u8; 8] = [0x10, 0x00, 0x00, 0x04, 0x04, 0x00, 0x01, 0x06];

/// The frame of a KILL of the emergency message in all cells.
fn kill_frame(alloc: Global, key: EmergencyKey) -> Result<Vec<u8>, AllocError>
    ensures { IfOk result (λ frame. frame.items ≡ kill_frame key) }
{
    let kill = Message::Kill(Kill {
        message_id: key.message_id,
        serial: key.serial,
        cells: CellIds::all(alloc)?,
        channel: None,
    });
    write(alloc, &kill)
}

/// The octets that are written to a BSC that is to forget what it broadcasts: a RESET of all cells, and then a KILL of each of the
/// emergency messages, in all cells. A BSC was seen that ends an emergency message by a RESET and yet refuses the next one, until it gets
/// a KILL.
pub fn reset_frames(alloc: Global, keys: &[EmergencyKey]) -> Result<Vec<u8>, AllocError>
    ensures { IfOk result (λ octets. octets.items ≡ reset_frame ++ flat_map kill_frame keys.now) }
{
    let mut octets = Vec::from_slice(alloc, &RESET)?;
    for key in keys {
        let frame = kill_frame(alloc, *key)?;
        octets.extend_from_slice(frame.as_slice())?;
    }
    Ok(octets)
}
