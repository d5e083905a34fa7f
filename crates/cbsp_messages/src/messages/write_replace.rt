//! The message WRITE-REPLACE but that of an emergency warning (3GPP TS 48.049, 8.1.3).

ghost use Rattle.std.specs.Prelude.{◌≡◌, ◌⊎◌, IfOk, IfErr};
ghost use Rattle.cbsp_messages.specs.Faults.{IsPagesFault};
ghost use Rattle.cbsp_messages.specs.Layout.{layout_at};
ghost use Rattle.cbsp_messages.specs.Lent.{parts_lent};
ghost use Rattle.cbsp_messages.specs.Parts.{write_replace_parts, values_at};
ghost use Rattle.cbsp_messages.specs.Spelling.{Says};
ghost use Rattle.cbsp_messages.specs.Taken.{HasDemanded, parts_taken};

use crate::elements::Elements;
use crate::fault::MessageFault;
use crate::layout::Layout;
use crate::message::Message;
use crate::message_parts::MessageParts;
use crate::message_type::MessageType;
use crate::pages::Pages;
use cbsp_ie::CellIds;
use std::alloc::{AllocError, Global};

/// Writes a message, or replaces the older one that `old` names.
#[derive(Drop, PartialEq, Eq)]
pub struct WriteReplace {
    pub message_id: u16,
    pub serial: u16,
    pub old: Option<u16>,
    pub cells: CellIds,
    pub channel: Option<u8>,
    pub category: u8,
    pub period: u16,
    pub requested: u16,
    pub pages: Pages,
    pub dcs: u8,
}

impl WriteReplace {
    /// The message of a body's elements, each demanded one of which is there.
    pub(crate) fn of(alloc: Global, elements: Elements<'_>) -> Result<WriteReplace, MessageFault>
        requires demanded { HasDemanded Layout.WriteReplace (parts_taken elements) }
        requires laid { layout_at MessageType.WriteReplace (values_at (parts_taken elements)) ≡ Layout.WriteReplace }
        ensures says { IfOk result (λ m. Says (values_at (parts_taken elements.entry)) (Message.WriteReplace m)) }
        ensures fault { IfErr result (λ f. (f ≡ MessageFault.Memory) ⊎ IsPagesFault Layout.WriteReplace (values_at (parts_taken elements.entry)) f) }
    {
        let pages = elements.pages.len();
        if pages != usize::from(elements.page_count.unwrap()) || pages > 15 {
            return Err(MessageFault::BadPages);
        }
        Ok(WriteReplace {
            message_id: elements.message_id.unwrap(),
            serial: elements.new_serial.unwrap(),
            old: elements.old_serial,
            cells: elements.cells.unwrap().to_ids(alloc)?,
            channel: elements.channel,
            category: elements.category.unwrap(),
            period: elements.period.unwrap(),
            requested: elements.requested.unwrap(),
            pages: elements.pages,
            dcs: elements.dcs.unwrap(),
        })
    }

    /// What the message says for each element that it has.
    pub(crate) fn parts(&self) -> MessageParts<'_>
        ensures { parts_lent result ≡ write_replace_parts self.now }
    {
        MessageParts {
            message_id: Some(self.message_id),
            new_serial: Some(self.serial),
            old_serial: self.old,
            cells: Some(&self.cells),
            channel: self.channel,
            category: Some(self.category),
            period: Some(self.period),
            requested: Some(self.requested),
            page_count: Some(self.pages.len()),
            pages: Some(&self.pages),
            dcs: Some(self.dcs),
            ..MessageParts::none()
        }
    }

    /// The same message, in memory of its own.
    pub fn copied(&self, alloc: Global) -> Result<WriteReplace, AllocError>
        ensures { IfOk result (λ copy. copy ≡ self.now) }
    {
        Ok(WriteReplace {
            message_id: self.message_id,
            serial: self.serial,
            old: self.old,
            cells: self.cells.copied(alloc)?,
            channel: self.channel,
            category: self.category,
            period: self.period,
            requested: self.requested,
            pages: self.pages.copied(alloc)?,
            dcs: self.dcs,
        })
    }
}
