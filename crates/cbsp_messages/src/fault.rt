//! What can be wrong with a body.

ghost use Rattle.std.specs.Prelude.{◌≡◌};
ghost use Rattle.cbsp_messages.specs.Faults.{number_of};

use cbsp_ie::{ElementId, IeFault};
use std::alloc::AllocError;
use thiserror::Error;

/// The faults of a body, in the order of their numbers. They are looked for in this order: that the type
/// isn't in the profile; from the left, and in one step for each element, that it has a fault or else that
/// it stands a second time; that a demanded element is missing, the first of the type's table; the pages.
#[derive(Clone, Copy, Debug, PartialEq, Eq, Error)]
pub enum MessageFault {
    /// An element has a fault.
    #[error("{0}")]
    Element(IeFault),
    /// An element stands a second time.
    #[error("{id:?} stands twice")]
    Repeated { id: ElementId },
    /// A demanded element isn't there.
    #[error("{id:?} is missing")]
    Missing { id: ElementId },
    /// The pages aren't 1 to 15, or aren't as many as the Number of Pages says.
    #[error("the pages are not as many as they should be")]
    BadPages,
    /// The centre doesn't speak messages of the type.
    #[error("the type is not in the profile")]
    NotInProfile,
    /// There was no memory. It can take the place of any other fault.
    #[error("out of memory")]
    Memory,
}

impl MessageFault {
    /// The number by which the fault is known, 1 to 5 that of the element's fault. Want of memory has
    /// none of its own.
    pub fn number(self) -> Option<u8>
        ensures { result ≡ number_of self }
    {
        match self {
            MessageFault::Element(fault) => Some(fault.number()),
            MessageFault::Repeated { .. } => Some(6),
            MessageFault::Missing { .. } => Some(7),
            MessageFault::BadPages => Some(8),
            MessageFault::NotInProfile => Some(9),
            MessageFault::Memory => None,
        }
    }
}

impl From<IeFault> for MessageFault {
    ghost use Rattle.std.specs.Prelude.{◌≡◌};
    ghost use Rattle.cbsp_messages.specs.declared.fault.MessageFault.TheVariants.{Element};

    ghost from_gives = { λ fault e. e ≡ Element fault };

    fn from(fault: IeFault) -> MessageFault {
        MessageFault::Element(fault)
    }
}

impl From<AllocError> for MessageFault {
    ghost use Rattle.std.specs.Prelude.{◌≡◌};
    ghost use Rattle.cbsp_messages.specs.declared.fault.MessageFault.TheVariants.{Memory};

    ghost from_gives = { λ _ e. e ≡ Memory };

    fn from(_error: AllocError) -> MessageFault {
        MessageFault::Memory
    }
}
