//! The message KILL COMPLETE (3GPP TS 48.049, 8.1.3).

ghost use Rattle.std.specs.Prelude.{◌≡◌, IfOk};
ghost use Rattle.cbsp_messages.specs.Lent.{parts_lent};
ghost use Rattle.cbsp_messages.specs.Parts.{kill_complete_parts, values_at};
ghost use Rattle.cbsp_messages.specs.Spelling.{Says};
ghost use Rattle.cbsp_messages.specs.Taken.{HasDemanded, parts_taken};

use crate::elements::Elements;
use crate::layout::Layout;
use crate::message::Message;
use crate::message_parts::MessageParts;
use crate::optional_lists::{copied_counts, copied_ids, owned_counts, owned_ids};
use cbsp_ie::{CellIds, Counts};
use std::alloc::{AllocError, Global};

/// A kill was carried out in all its cells.
#[derive(Drop, PartialEq, Eq)]
pub struct KillComplete {
    pub message_id: u16,
    pub serial: u16,
    pub counts: Option<Counts>,
    pub cells: Option<CellIds>,
    pub channel: Option<u8>,
}

impl KillComplete {
    /// The message of a body's elements, each demanded one of which is there.
    pub(crate) fn of(alloc: Global, elements: Elements<'_>) -> Result<KillComplete, AllocError>
        requires { HasDemanded Layout.KillComplete (parts_taken elements) }
        ensures says { IfOk result (λ m. Says (values_at (parts_taken elements.entry)) (Message.KillComplete m)) }
    {
        Ok(KillComplete {
            message_id: elements.message_id.unwrap(),
            serial: elements.old_serial.unwrap(),
            counts: owned_counts(alloc, elements.counts)?,
            cells: owned_ids(alloc, elements.cells)?,
            channel: elements.channel,
        })
    }

    /// What the message says for each element that it has.
    pub(crate) fn parts(&self) -> MessageParts<'_>
        ensures { parts_lent result ≡ kill_complete_parts self.now }
    {
        MessageParts {
            message_id: Some(self.message_id),
            old_serial: Some(self.serial),
            counts: self.counts.as_ref(),
            cells: self.cells.as_ref(),
            channel: self.channel,
            ..MessageParts::none()
        }
    }

    /// The same message, in memory of its own.
    pub fn copied(&self, alloc: Global) -> Result<KillComplete, AllocError>
        ensures { IfOk result (λ copy. copy ≡ self.now) }
    {
        Ok(KillComplete {
            message_id: self.message_id,
            serial: self.serial,
            counts: copied_counts(alloc, &self.counts)?,
            cells: copied_ids(alloc, &self.cells)?,
            channel: self.channel,
        })
    }
}
