//! What is wrong with the hexadecimal digits of a line.

use crate::response::Response;
use cbsp_messages::MessageFault;
use centre_events::refusal::Refusal;

/// Why the hexadecimal digits of a line don't give what they have to.
#[derive(Clone, Copy, Debug)]
pub enum TextFault {
    /// They aren't pairs, or their octets aren't as many as they have to be.
    Hex,
    /// The octets aren't one frame.
    Frame,
    /// The frame is whole, and no report.
    Skipped,
    /// The body of the frame is no message.
    Message(MessageFault),
    /// Memory ran out while the message was read.
    Memory,
}

impl TextFault {
    ghost use Rattle.std.specs.Prelude.{◌≡◌};
    ghost use Rattle.console_text.specs.Events.{fault_response};
    ghost use Rattle.console_text.specs.Texts.{ResponseFits};

    /// What a line with this fault is answered.
    pub fn response(self) -> Response
        ensures answer { result ≡ fault_response self }
        ensures fits { ResponseFits result }
    {
        match self {
            TextFault::Hex => Response::BadHex,
            TextFault::Frame => Response::BadFrame,
            TextFault::Skipped => Response::Skipped,
            TextFault::Message(fault) => Response::BadMessage(fault),
            TextFault::Memory => Response::Refused(Refusal::Memory),
        }
    }
}
