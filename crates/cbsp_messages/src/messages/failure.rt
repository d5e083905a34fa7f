//! The message FAILURE (3GPP TS 48.049, 8.1.3).

ghost use Rattle.std.specs.Prelude.{◌≡◌, IfOk};
ghost use Rattle.cbsp_messages.specs.Lent.{parts_lent};
ghost use Rattle.cbsp_messages.specs.Parts.{failure_parts, values_at};
ghost use Rattle.cbsp_messages.specs.Spelling.{Says};
ghost use Rattle.cbsp_messages.specs.Taken.{HasDemanded, parts_taken};

use crate::elements::Elements;
use crate::layout::Layout;
use crate::message::Message;
use crate::message_parts::MessageParts;
use cbsp_ie::Failures;
use std::alloc::{AllocError, Global};

/// Cells can't broadcast.
#[derive(Drop, PartialEq, Eq)]
pub struct Failure {
    pub failures: Failures,
    pub kind: u8,
}

impl Failure {
    /// The message of a body's elements, each demanded one of which is there.
    pub(crate) fn of(alloc: Global, elements: Elements<'_>) -> Result<Failure, AllocError>
        requires { HasDemanded Layout.Failure (parts_taken elements) }
        ensures says { IfOk result (λ m. Says (values_at (parts_taken elements.entry)) (Message.Failure m)) }
    {
        Ok(Failure {
            failures: elements.failures.unwrap().to_entries(alloc)?,
            kind: elements.kind.unwrap(),
        })
    }

    /// What the message says for each element that it has.
    pub(crate) fn parts(&self) -> MessageParts<'_>
        ensures { parts_lent result ≡ failure_parts self.now }
    {
        MessageParts {
            failures: Some(&self.failures),
            kind: Some(self.kind),
            ..MessageParts::none()
        }
    }

    /// The same message, in memory of its own.
    pub fn copied(&self, alloc: Global) -> Result<Failure, AllocError>
        ensures { IfOk result (λ copy. copy ≡ self.now) }
    {
        Ok(Failure {
            failures: self.failures.copied(alloc)?,
            kind: self.kind,
        })
    }
}
