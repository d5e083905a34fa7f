//! The text of a line.

ghost use Rattle.std.specs.Prelude.{◌≡◌, IfOk, option_map, string_bytes};
ghost use Rattle.std.specs.Net.Text.{socket_text};
ghost use Rattle.server_errors.specs.ErrorLines.{bsc_text, line_text, link_text, marked};

use crate::level::Level;
use cell_register::BscId;
use std::alloc::{AllocError, Global};
use std::net::SocketAddr;

/// The line in which that is said, with the time where it is known.
pub fn line_text(alloc: Global, time: Option<&str>, what: &str) -> Result<String, AllocError>
    ensures { IfOk result (λ text. string_bytes text ≡ line_text (option_map (λ t. t.now) time.entry) what.now) }
{
    match time {
        Some(time) => format!(in alloc; "{time} cbc: {what}\n"),
        None => format!(in alloc; "cbc: {what}\n"),
    }
}

/// What is said of a BSC.
pub fn bsc_text(alloc: Global, b: BscId, what: &str) -> Result<String, AllocError>
    ensures { IfOk result (λ text. string_bytes text ≡ bsc_text b what.now) }
{
    let number = b.number();
    format!(in alloc; "BSC {number}: {what}")
}

/// What is said of a link of a BSC that came from that address.
pub fn link_text(
    alloc: Global,
    b: BscId,
    peer: &SocketAddr,
    what: &str,
) -> Result<String, AllocError>
    ensures { IfOk result (λ text. string_bytes text ≡ link_text b (socket_text peer.now) what.now) }
{
    let number = b.number();
    format!(in alloc; "BSC {number} ({peer}): {what}")
}

/// The line with its level, as a system log reads it.
pub fn marked(alloc: Global, level: Level, line: &[u8]) -> Result<Vec<u8>, AllocError>
    ensures { IfOk result (λ text. text.items ≡ marked level line.now) }
{
    let mut text = Vec::new(alloc);
    text.extend_from_slice(&[b'<', 48 + level.number(), b'>'])?;
    text.extend_from_slice(line)?;
    Ok(text)
}
