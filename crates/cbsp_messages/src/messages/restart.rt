//! The message RESTART (3GPP TS 48.049, 8.1.3).

ghost use Rattle.std.specs.Prelude.{◌≡◌, IfOk};
ghost use Rattle.cbsp_messages.specs.Lent.{parts_lent};
ghost use Rattle.cbsp_messages.specs.Parts.{restart_parts, values_at};
ghost use Rattle.cbsp_messages.specs.Spelling.{Says};
ghost use Rattle.cbsp_messages.specs.Taken.{HasDemanded, parts_taken};

use crate::elements::Elements;
use crate::layout::Layout;
use crate::message::Message;
use crate::message_parts::MessageParts;
use cbsp_ie::CellIds;
use std::alloc::{AllocError, Global};

/// Cells can broadcast again, without their messages if `recovery` is not 0.
#[derive(Drop, PartialEq, Eq)]
pub struct Restart {
    pub cells: CellIds,
    pub kind: u8,
    pub recovery: u8,
}

impl Restart {
    /// The message of a body's elements, each demanded one of which is there.
    pub(crate) fn of(alloc: Global, elements: Elements<'_>) -> Result<Restart, AllocError>
        requires { HasDemanded Layout.Restart (parts_taken elements) }
        ensures says { IfOk result (λ m. Says (values_at (parts_taken elements.entry)) (Message.Restart m)) }
    {
        Ok(Restart {
            cells: elements.cells.unwrap().to_ids(alloc)?,
            kind: elements.kind.unwrap(),
            recovery: elements.recovery.unwrap(),
        })
    }

    /// What the message says for each element that it has.
    pub(crate) fn parts(&self) -> MessageParts<'_>
        ensures { parts_lent result ≡ restart_parts self.now }
    {
        MessageParts {
            cells: Some(&self.cells),
            kind: Some(self.kind),
            recovery: Some(self.recovery),
            ..MessageParts::none()
        }
    }

    /// The same message, in memory of its own.
    pub fn copied(&self, alloc: Global) -> Result<Restart, AllocError>
        ensures { IfOk result (λ copy. copy ≡ self.now) }
    {
        Ok(Restart {
            cells: self.cells.copied(alloc)?,
            kind: self.kind,
            recovery: self.recovery,
        })
    }
}
