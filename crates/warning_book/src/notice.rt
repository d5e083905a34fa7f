//! A warning as it is issued.

ghost use Rattle.std.specs.Prelude.{◌≡◌, ◌↔◌, IsTrue, IfOk};

use crate::content::Content;
use serials::Scope;
use std::alloc::{AllocError, Global};

/// A warning as an operator issues it: its message identifier and scope, which stay, and its first content.
#[derive(Debug, PartialEq, Eq)]
pub struct Notice {
    /// The message identifier (TS 23.041, 9.4.1.2.2).
    pub message_id: u16,
    pub scope: Scope,
    pub content: Content,
}

/// Written out, so that no crate above proves anew how its parts are dropped.
impl Drop for Notice {
    fn drop(self) {
        let Notice {
            message_id: _message_id,
            scope: _scope,
            content: _content,
        } = self;
    }
}

impl Notice {
    /// The same notice in memory of its own.
    pub fn copied(&self, alloc: Global) -> Result<Notice, AllocError>
        ensures { IfOk result (λ copy. copy ≡ self.now) }
    {
        Ok(Notice {
            message_id: self.message_id,
            scope: self.scope,
            content: self.content.copied(alloc)?,
        })
    }

    pub fn same(&self, other: &Notice) -> bool
        ensures { IsTrue result ↔ (self.now ≡ other.now) }
    {
        self.message_id == other.message_id
            && self.scope == other.scope
            && self.content.same(&other.content)
    }
}
