//! The message MESSAGE STATUS QUERY COMPLETE (3GPP TS 48.049, 8.1.3).

ghost use Rattle.std.specs.Prelude.{◌≡◌, IfOk};
ghost use Rattle.cbsp_messages.specs.Lent.{parts_lent};
ghost use Rattle.cbsp_messages.specs.Parts.{status_complete_parts, values_at};
ghost use Rattle.cbsp_messages.specs.Spelling.{Says};
ghost use Rattle.cbsp_messages.specs.Taken.{HasDemanded, parts_taken};

use crate::elements::Elements;
use crate::layout::Layout;
use crate::message::Message;
use crate::message_parts::MessageParts;
use cbsp_ie::Counts;
use std::alloc::{AllocError, Global};

/// How often a message was broadcast.
#[derive(Drop, PartialEq, Eq)]
pub struct StatusComplete {
    pub message_id: u16,
    pub serial: u16,
    pub counts: Counts,
    pub channel: Option<u8>,
}

impl StatusComplete {
    /// The message of a body's elements, each demanded one of which is there.
    pub(crate) fn of(alloc: Global, elements: Elements<'_>) -> Result<StatusComplete, AllocError>
        requires { HasDemanded Layout.StatusComplete (parts_taken elements) }
        ensures says { IfOk result (λ m. Says (values_at (parts_taken elements.entry)) (Message.StatusComplete m)) }
    {
        Ok(StatusComplete {
            message_id: elements.message_id.unwrap(),
            serial: elements.old_serial.unwrap(),
            counts: elements.counts.unwrap().to_counts(alloc)?,
            channel: elements.channel,
        })
    }

    /// What the message says for each element that it has.
    pub(crate) fn parts(&self) -> MessageParts<'_>
        ensures { parts_lent result ≡ status_complete_parts self.now }
    {
        MessageParts {
            message_id: Some(self.message_id),
            old_serial: Some(self.serial),
            counts: Some(&self.counts),
            channel: self.channel,
            ..MessageParts::none()
        }
    }

    /// The same message, in memory of its own.
    pub fn copied(&self, alloc: Global) -> Result<StatusComplete, AllocError>
        ensures { IfOk result (λ copy. copy ≡ self.now) }
    {
        Ok(StatusComplete {
            message_id: self.message_id,
            serial: self.serial,
            counts: self.counts.copied(alloc)?,
            channel: self.channel,
        })
    }
}
