//! One frame, as an operator writes it.

ghost use Rattle.std.specs.Prelude.{IfOk, MatchOption};
ghost use Rattle.console_text.specs.Frames.{IsFrame, IsNoFrame};

use framing::{Frame, FrameFault, Framer};
use std::alloc::{AllocError, Global};

/// The frame that the octets are; `None` where they aren't exactly one frame that is read.
pub fn read_frame(alloc: Global, octets: &[u8]) -> Result<Option<Frame>, AllocError>
    ensures { IfOk result (λ frame. MatchOption frame (IsNoFrame octets.now) (IsFrame octets.now)) }
{
    let mut framer = Framer::new(alloc);
    match framer.feed(octets) {
        Ok(()) => {}
        Err(FrameFault::Memory) => return Err(AllocError),
        Err(FrameFault::TooLong { length: _ }) => return Ok(None),
    }
    if framer.rest() != 0 {
        return Ok(None);
    }
    let frame = framer.next();
    match framer.next() {
        Some(_) => Ok(None),
        None => Ok(frame),
    }
}
