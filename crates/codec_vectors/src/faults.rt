//! Faults as the file has them, and as the formats number them.

use anyhow::{Context, Result};
use cbsp_ie::IeFault;
use cbsp_messages::MessageFault;
use std::alloc::Global;

/// A fault by its number and the octet that it names, if it names one.
#[derive(Clone, Copy, PartialEq)]
pub struct Named {
    number: u8,
    octet: Option<u8>,
}

impl Named {
    pub const CUT: Named = Named {
        number: 1,
        octet: None,
    };

    pub const BAD_PAGES: Named = Named {
        number: 8,
        octet: None,
    };

    /// The number is 0 where memory ran out.
    pub fn of(fault: MessageFault) -> Named {
        Named {
            number: fault.number().unwrap_or(0),
            octet: octet_of(fault),
        }
    }

    pub fn unknown_element(id: u8) -> Named {
        Named {
            number: 2,
            octet: Some(id),
        }
    }

    pub fn bad_discriminator(form: u8) -> Named {
        Named {
            number: 3,
            octet: Some(form),
        }
    }

    pub fn repeated(id: u8) -> Named {
        Named {
            number: 6,
            octet: Some(id),
        }
    }

    pub fn missing(id: u8) -> Named {
        Named {
            number: 7,
            octet: Some(id),
        }
    }
}

/// The line of the fault: its number, its name and the octet that it names.
pub fn fault_line(alloc: Global, fault: MessageFault) -> Result<String> {
    let number = fault.number().context("out of memory")?;
    let name = fault_name(fault);
    Ok(match octet_of(fault) {
        Some(octet) => format!(in alloc; "fault {number} {name} {octet:02X}")?,
        None => format!(in alloc; "fault {number} {name}")?,
    })
}

fn fault_name(fault: MessageFault) -> &'static str {
    match fault {
        MessageFault::Element(IeFault::Cut) => "Cut",
        MessageFault::Element(IeFault::UnknownElement { .. }) => "UnknownElement",
        MessageFault::Element(IeFault::BadDiscriminator { .. }) => "BadDiscriminator",
        MessageFault::Element(IeFault::PartialEntry) => "PartialEntry",
        MessageFault::Element(IeFault::LongPage) => "LongPage",
        MessageFault::Repeated { .. } => "Repeated",
        MessageFault::Missing { .. } => "Missing",
        MessageFault::BadPages => "BadPages",
        MessageFault::NotInProfile => "NotInProfile",
        MessageFault::Memory => "Memory",
    }
}

fn octet_of(fault: MessageFault) -> Option<u8> {
    match fault {
        MessageFault::Element(IeFault::UnknownElement { id }) => Some(id),
        MessageFault::Element(IeFault::BadDiscriminator { discriminator }) => Some(discriminator),
        MessageFault::Repeated { id } => Some(id.code()),
        MessageFault::Missing { id } => Some(id.code()),
        _ => None,
    }
}
