//! The message MESSAGE STATUS QUERY FAILURE (3GPP TS 48.049, 8.1.3).

ghost use Rattle.std.specs.Prelude.{◌≡◌, IfOk};
ghost use Rattle.cbsp_messages.specs.Lent.{parts_lent};
ghost use Rattle.cbsp_messages.specs.Parts.{status_failure_parts, values_at};
ghost use Rattle.cbsp_messages.specs.Spelling.{Says};
ghost use Rattle.cbsp_messages.specs.Taken.{HasDemanded, parts_taken};

use crate::elements::Elements;
use crate::layout::Layout;
use crate::message::Message;
use crate::message_parts::MessageParts;
use crate::optional_lists::{copied_counts, owned_counts};
use cbsp_ie::{Counts, Failures};
use std::alloc::{AllocError, Global};

/// A query failed in the cells that `failures` names.
#[derive(Drop, PartialEq, Eq)]
pub struct StatusFailure {
    pub message_id: u16,
    pub serial: u16,
    pub failures: Failures,
    pub counts: Option<Counts>,
    pub channel: Option<u8>,
}

impl StatusFailure {
    /// The message of a body's elements, each demanded one of which is there.
    pub(crate) fn of(alloc: Global, elements: Elements<'_>) -> Result<StatusFailure, AllocError>
        requires { HasDemanded Layout.StatusFailure (parts_taken elements) }
        ensures says { IfOk result (λ m. Says (values_at (parts_taken elements.entry)) (Message.StatusFailure m)) }
    {
        Ok(StatusFailure {
            message_id: elements.message_id.unwrap(),
            serial: elements.old_serial.unwrap(),
            failures: elements.failures.unwrap().to_entries(alloc)?,
            counts: owned_counts(alloc, elements.counts)?,
            channel: elements.channel,
        })
    }

    /// What the message says for each element that it has.
    pub(crate) fn parts(&self) -> MessageParts<'_>
        ensures { parts_lent result ≡ status_failure_parts self.now }
    {
        MessageParts {
            message_id: Some(self.message_id),
            old_serial: Some(self.serial),
            failures: Some(&self.failures),
            counts: self.counts.as_ref(),
            channel: self.channel,
            ..MessageParts::none()
        }
    }

    /// The same message, in memory of its own.
    pub fn copied(&self, alloc: Global) -> Result<StatusFailure, AllocError>
        ensures { IfOk result (λ copy. copy ≡ self.now) }
    {
        Ok(StatusFailure {
            message_id: self.message_id,
            serial: self.serial,
            failures: self.failures.copied(alloc)?,
            counts: copied_counts(alloc, &self.counts)?,
            channel: self.channel,
        })
    }
}
