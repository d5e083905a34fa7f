//! How a conversation ends.

ghost use Rattle.std.specs.Prelude.{◌≡◌};
ghost use Rattle.bsc_sim.specs.Conversation.{end_of, number_of};

use cbsp_messages::MessageFault;
use std::alloc::AllocError;

/// How a conversation ended.
#[derive(Clone, Copy, Debug, PartialEq, Eq)]
pub enum SimEnd {
    /// The stream ended after a whole frame, or before the first.
    PeerEnded,
    /// The stream ended within a frame.
    CutFrame,
    /// A read failed, or there were too many.
    ReadFault,
    /// A write failed, or took nothing.
    WriteFault,
    /// A frame is no message that can be read.
    BadMessage(MessageFault),
    /// A frame announces a body that is too long.
    TooLong,
    /// There was no memory.
    Memory,
}

impl SimEnd {
    /// The number by which the end is known.
    pub fn number(self) -> u8
        ensures { result ≡ number_of self }
    {
        match self {
            SimEnd::PeerEnded => 1,
            SimEnd::CutFrame => 2,
            SimEnd::ReadFault => 3,
            SimEnd::WriteFault => 4,
            SimEnd::BadMessage(_) => 5,
            SimEnd::TooLong => 6,
            SimEnd::Memory => 7,
        }
    }
}

impl From<AllocError> for SimEnd {
    ghost use Rattle.std.specs.Prelude.{◌≡◌};
    ghost use Rattle.bsc_sim.specs.declared.end.SimEnd.TheVariants.{Memory};

    ghost from_gives = { λ _ e. e ≡ Memory };

    fn from(_error: AllocError) -> SimEnd {
        SimEnd::Memory
    }
}

impl From<MessageFault> for SimEnd {
    ghost use Rattle.std.specs.Prelude.{◌≡◌};
    ghost use Rattle.bsc_sim.specs.Conversation.{end_of};

    ghost from_gives = { λ fault e. e ≡ end_of fault };

    fn from(fault: MessageFault) -> SimEnd {
        match fault {
            MessageFault::Memory => SimEnd::Memory,
            other => SimEnd::BadMessage(other),
        }
    }
}
