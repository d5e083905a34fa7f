//! The message MESSAGE STATUS QUERY (3GPP TS 48.049, 8.1.3).

ghost use Rattle.std.specs.Prelude.{◌≡◌, IfOk};
ghost use Rattle.cbsp_messages.specs.Lent.{parts_lent};
ghost use Rattle.cbsp_messages.specs.Parts.{status_query_parts, values_at};
ghost use Rattle.cbsp_messages.specs.Spelling.{Says};
ghost use Rattle.cbsp_messages.specs.Taken.{HasDemanded, parts_taken};

use crate::elements::Elements;
use crate::layout::Layout;
use crate::message::Message;
use crate::message_parts::MessageParts;
use cbsp_ie::CellIds;
use std::alloc::{AllocError, Global};

/// Asks how often a message was broadcast.
#[derive(Drop, PartialEq, Eq)]
pub struct StatusQuery {
    pub message_id: u16,
    pub serial: u16,
    pub cells: CellIds,
    pub channel: Option<u8>,
}

impl StatusQuery {
    /// The message of a body's elements, each demanded one of which is there.
    pub(crate) fn of(alloc: Global, elements: Elements<'_>) -> Result<StatusQuery, AllocError>
        requires { HasDemanded Layout.StatusQuery (parts_taken elements) }
        ensures says { IfOk result (λ m. Says (values_at (parts_taken elements.entry)) (Message.StatusQuery m)) }
    {
        Ok(StatusQuery {
            message_id: elements.message_id.unwrap(),
            serial: elements.old_serial.unwrap(),
            cells: elements.cells.unwrap().to_ids(alloc)?,
            channel: elements.channel,
        })
    }

    /// What the message says for each element that it has.
    pub(crate) fn parts(&self) -> MessageParts<'_>
        ensures { parts_lent result ≡ status_query_parts self.now }
    {
        MessageParts {
            message_id: Some(self.message_id),
            old_serial: Some(self.serial),
            cells: Some(&self.cells),
            channel: self.channel,
            ..MessageParts::none()
        }
    }

    /// The same message, in memory of its own.
    pub fn copied(&self, alloc: Global) -> Result<StatusQuery, AllocError>
        ensures { IfOk result (λ copy. copy ≡ self.now) }
    {
        Ok(StatusQuery {
            message_id: self.message_id,
            serial: self.serial,
            cells: self.cells.copied(alloc)?,
            channel: self.channel,
        })
    }
}
