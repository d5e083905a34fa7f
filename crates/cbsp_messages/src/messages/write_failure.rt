//! The message WRITE-REPLACE FAILURE (3GPP TS 48.049, 8.1.3).

ghost use Rattle.std.specs.Prelude.{◌≡◌, IfOk};
ghost use Rattle.cbsp_messages.specs.Lent.{parts_lent};
ghost use Rattle.cbsp_messages.specs.Parts.{write_failure_parts, values_at};
ghost use Rattle.cbsp_messages.specs.Spelling.{Says};
ghost use Rattle.cbsp_messages.specs.Taken.{HasDemanded, parts_taken};

use crate::elements::Elements;
use crate::layout::Layout;
use crate::message::Message;
use crate::message_parts::MessageParts;
use crate::optional_lists::{copied_counts, copied_ids, owned_counts, owned_ids};
use cbsp_ie::{CellIds, Counts, Failures};
use std::alloc::{AllocError, Global};

/// A write or replace failed in the cells that `failures` names.
#[derive(Drop, PartialEq, Eq)]
pub struct WriteFailure {
    pub message_id: u16,
    pub serial: u16,
    pub old: Option<u16>,
    pub failures: Failures,
    pub counts: Option<Counts>,
    pub cells: Option<CellIds>,
    pub channel: Option<u8>,
}

impl WriteFailure {
    /// The message of a body's elements, each demanded one of which is there.
    pub(crate) fn of(alloc: Global, elements: Elements<'_>) -> Result<WriteFailure, AllocError>
        requires { HasDemanded Layout.WriteFailure (parts_taken elements) }
        ensures says { IfOk result (λ m. Says (values_at (parts_taken elements.entry)) (Message.WriteFailure m)) }
    {
        Ok(WriteFailure {
            message_id: elements.message_id.unwrap(),
            serial: elements.new_serial.unwrap(),
            old: elements.old_serial,
            failures: elements.failures.unwrap().to_entries(alloc)?,
            counts: owned_counts(alloc, elements.counts)?,
            cells: owned_ids(alloc, elements.cells)?,
            channel: elements.channel,
        })
    }

    /// What the message says for each element that it has.
    pub(crate) fn parts(&self) -> MessageParts<'_>
        ensures { parts_lent result ≡ write_failure_parts self.now }
    {
        MessageParts {
            message_id: Some(self.message_id),
            new_serial: Some(self.serial),
            old_serial: self.old,
            failures: Some(&self.failures),
            counts: self.counts.as_ref(),
            cells: self.cells.as_ref(),
            channel: self.channel,
            ..MessageParts::none()
        }
    }

    /// The same message, in memory of its own.
    pub fn copied(&self, alloc: Global) -> Result<WriteFailure, AllocError>
        ensures { IfOk result (λ copy. copy ≡ self.now) }
    {
        Ok(WriteFailure {
            message_id: self.message_id,
            serial: self.serial,
            old: self.old,
            failures: self.failures.copied(alloc)?,
            counts: copied_counts(alloc, &self.counts)?,
            cells: copied_ids(alloc, &self.cells)?,
            channel: self.channel,
        })
    }
}
