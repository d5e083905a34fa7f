//! What can be wrong with an information element.

ghost use Rattle.std.specs.Prelude.{◌≡◌};
ghost use Rattle.cbsp_ie.specs.IeFault.{fault_number};

use thiserror::Error;

/// The faults of an element, in the order of their numbers. They are looked for in this order: no
/// octets, an unknown identifier, too few octets, a page that uses too many; in a list the
/// discriminator before the entries, and a failure list entry by entry from the left.
#[derive(Clone, Copy, PartialEq, Eq, Debug, Error)]
pub enum IeFault {
    /// There are no octets, or fewer than the element needs.
    #[error("an element is cut")]
    Cut,
    /// The octet names no element of this profile.
    #[error("no element has the identifier {id:02X}")]
    UnknownElement { id: u8 },
    /// The low four bits of a discriminator announce no form.
    #[error("no form of identifications has the discriminator {discriminator:02X}")]
    BadDiscriminator { discriminator: u8 },
    /// The octets of a list are not whole entries.
    #[error("a list ends within an entry")]
    PartialEntry,
    /// A page says that it uses more octets than it has.
    #[error("a page uses more than 82 octets")]
    LongPage,
}

impl IeFault {
    /// The number by which the fault is known.
    pub fn number(self) -> u8
        ensures { result ≡ fault_number self }
    {
        match self {
            IeFault::Cut => 1,
            IeFault::UnknownElement { .. } => 2,
            IeFault::BadDiscriminator { .. } => 3,
            IeFault::PartialEntry => 4,
            IeFault::LongPage => 5,
        }
    }
}
