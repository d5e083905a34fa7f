//! What ends a side of a link.

ghost use Rattle.std.specs.Prelude.{◌≡◌};
ghost use Rattle.link_worker.specs.Ends.{IsRefusedEnd, end_number, ending, fault_end};

use cbsp_messages::MessageFault;
use centre_events::refusal::Refusal;
use thiserror::Error;

/// Why a side of a link ended.
#[derive(Clone, Copy, Debug, PartialEq, Eq, Error)]
pub enum End {
    /// The stream ended after whole frames.
    #[error("the BSC closed the connection")]
    PeerEnded,
    /// The stream ended inside a frame.
    #[error("the BSC closed the connection in the middle of a message")]
    CutFrame,
    /// A read failed, or the link had 1,000,000,000,000 reads.
    #[error("reading from the BSC failed")]
    ReadFault,
    /// A write failed, or took no octet.
    #[error("writing to the BSC failed")]
    WriteFault,
    /// A report can't be read. A fault `Memory` is never here.
    #[error("a message of the BSC can't be read: {0}")]
    BadMessage(MessageFault),
    /// A frame announces a body of more than 262,144 octets.
    #[error("the BSC announced a message of more than 262,144 octets")]
    TooLong,
    /// The link is no longer up: it is lost, a newer one has taken its place, or its BSC was taken out.
    #[error("the link is no longer up")]
    Superseded,
    /// The office refused an event for another cause, or there was no memory.
    #[error("the centre refused to go on: {0}")]
    Refused(Refusal),
    /// The gate cut the link.
    #[error("the link was cut by this program")]
    GateShut,
}

impl End {
    /// The number by which the end is known.
    pub fn number(self) -> u8
        ensures { result ≡ end_number self }
    {
        match self {
            End::PeerEnded => 1,
            End::CutFrame => 2,
            End::ReadFault => 3,
            End::WriteFault => 4,
            End::BadMessage(_) => 5,
            End::TooLong => 6,
            End::Superseded => 7,
            End::Refused(_) => 8,
            End::GateShut => 9,
        }
    }

    /// The end that a refusal makes where the side doesn't go on after it.
    pub(crate) fn of(refusal: Refusal) -> End
        ensures end { result ≡ ending refusal }
        ensures refused { IsRefusedEnd result }
    {
        match refusal {
            Refusal::StaleLink { now: _ } | Refusal::LinkNotUp | Refusal::NoSuchBsc => {
                End::Superseded
            }
            _ => End::Refused(refusal),
        }
    }

    /// The end that a report makes that can't be read, or for which there is no memory.
    pub(crate) fn of_fault(fault: MessageFault) -> End
        ensures { result ≡ fault_end fault }
    {
        match fault {
            MessageFault::Memory => End::Refused(Refusal::Memory),
            _ => End::BadMessage(fault),
        }
    }
}
