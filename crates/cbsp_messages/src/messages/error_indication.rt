//! The message ERROR INDICATION (3GPP TS 48.049, 8.1.3).

ghost use Rattle.std.specs.Prelude.{◌≡◌};
ghost use Rattle.cbsp_messages.specs.Lent.{parts_lent};
ghost use Rattle.cbsp_messages.specs.Parts.{error_indication_parts, values_at};
ghost use Rattle.cbsp_messages.specs.Spelling.{Says};
ghost use Rattle.cbsp_messages.specs.Taken.{HasDemanded, parts_taken};

use crate::elements::Elements;
use crate::layout::Layout;
use crate::message::Message;
use crate::message_parts::MessageParts;
use cbsp_ie::Cause;

/// What a BSC got was not understood.
#[derive(Drop, PartialEq, Eq)]
pub struct ErrorIndication {
    pub cause: Cause,
    pub message_id: Option<u16>,
    pub serial: Option<u16>,
    pub old: Option<u16>,
    pub channel: Option<u8>,
}

impl ErrorIndication {
    /// The message of a body's elements, each demanded one of which is there.
    pub(crate) fn of(elements: Elements<'_>) -> ErrorIndication
        requires { HasDemanded Layout.ErrorIndication (parts_taken elements) }
        ensures says { Says (values_at (parts_taken elements.entry)) (Message.ErrorIndication result) }
    {
        ErrorIndication {
            cause: elements.cause.unwrap(),
            message_id: elements.message_id,
            serial: elements.new_serial,
            old: elements.old_serial,
            channel: elements.channel,
        }
    }

    /// What the message says for each element that it has.
    pub(crate) fn parts(&self) -> MessageParts<'_>
        ensures { parts_lent result ≡ error_indication_parts self.now }
    {
        MessageParts {
            cause: Some(self.cause),
            message_id: self.message_id,
            new_serial: self.serial,
            old_serial: self.old,
            channel: self.channel,
            ..MessageParts::none()
        }
    }

    /// The same message, in memory of its own.
    pub fn copied(&self) -> ErrorIndication
        ensures { result ≡ self.now }
    {
        ErrorIndication {
            cause: self.cause,
            message_id: self.message_id,
            serial: self.serial,
            old: self.old,
            channel: self.channel,
        }
    }
}
