//! The types of messages.

ghost use Rattle.std.specs.Prelude.{◌≡◌, ◌↔◌, IsTrue};
ghost use Rattle.cbsp_messages.specs.MessageType.{code_of, type_with, is_report, report_type};

/// The types of messages that this centre speaks (TS 48.049, 8.2.2). It skips every other type.
#[derive(Clone, Copy, Debug, PartialEq, Eq)]
pub enum MessageType {
    WriteReplace,
    WriteComplete,
    WriteFailure,
    Kill,
    KillComplete,
    KillFailure,
    StatusQuery,
    StatusComplete,
    StatusFailure,
    Restart,
    Failure,
    ErrorIndication,
}

impl MessageType {
    /// The octet of the type.
    pub fn code(self) -> u8
        ensures { result ≡ code_of self }
    {
        match self {
            MessageType::WriteReplace => 0x01,
            MessageType::WriteComplete => 0x02,
            MessageType::WriteFailure => 0x03,
            MessageType::Kill => 0x04,
            MessageType::KillComplete => 0x05,
            MessageType::KillFailure => 0x06,
            MessageType::StatusQuery => 0x0a,
            MessageType::StatusComplete => 0x0b,
            MessageType::StatusFailure => 0x0c,
            MessageType::Restart => 0x13,
            MessageType::Failure => 0x14,
            MessageType::ErrorIndication => 0x15,
        }
    }

    /// The type of the octet, if the centre speaks it.
    pub fn of_code(code: u8) -> Option<MessageType>
        ensures { result ≡ type_with code }
    {
        match code {
            0x01 => Some(MessageType::WriteReplace),
            0x02 => Some(MessageType::WriteComplete),
            0x03 => Some(MessageType::WriteFailure),
            0x04 => Some(MessageType::Kill),
            0x05 => Some(MessageType::KillComplete),
            0x06 => Some(MessageType::KillFailure),
            0x0a => Some(MessageType::StatusQuery),
            0x0b => Some(MessageType::StatusComplete),
            0x0c => Some(MessageType::StatusFailure),
            0x13 => Some(MessageType::Restart),
            0x14 => Some(MessageType::Failure),
            0x15 => Some(MessageType::ErrorIndication),
            _ => None,
        }
    }

    /// Whether a BSC sends it and the centre takes it: a reply or an indication.
    pub fn is_report(self) -> bool
        ensures { result ≡ is_report self }
    {
        match self {
            MessageType::WriteReplace | MessageType::Kill | MessageType::StatusQuery => false,
            _ => true,
        }
    }

    /// The type of a report, by its octet. `None` for an octet of no type, and for the type of a message that the centre
    /// sends.
    pub fn of_report(code: u8) -> Option<MessageType>
        ensures { result ≡ report_type code }
    {
        let kind = MessageType::of_code(code)?;
        if kind.is_report() { Some(kind) } else { None }
    }
}
