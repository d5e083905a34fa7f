//! A message.

ghost use Rattle.std.specs.Prelude.{◌≡◌, ◌↔◌, IsTrue, IfOk};
ghost use Rattle.cbsp_messages.specs.Message.{layout_of, type_of};

use crate::layout::Layout;
use crate::message_type::MessageType;
use crate::messages::{
    ErrorIndication, Failure, Kill, KillComplete, KillFailure, Restart, StatusComplete,
    StatusFailure, StatusQuery, WriteComplete, WriteEmergency, WriteFailure, WriteReplace,
};
use std::alloc::{AllocError, Global};

/// A message of CBSP, of the types that this centre speaks (3GPP TS 48.049, 8.1.3).
///
/// In each, `message_id` is the Message Identifier. `serial` is the New Serial Number where a type has one, else
/// the Old Serial Number, which then names the message that is meant. `old` is the Old Serial Number
/// beside a new one. `channel` is the Channel Indicator, `counts` the Number of Broadcasts Completed
/// List, `period` the Repetition Period in units of 1.883 s, `requested` the Number of Broadcasts
/// Requested, where 0 means until the message is killed, `dcs` the Data Coding Scheme, `kind` the
/// Broadcast Message Type and `recovery` the Recovery Indication. An element that a type may lack is an
/// `Option`. The Number of Pages is the number of the pages.
///
/// Of `category`, `channel`, `kind`, `recovery` and the info of each of `counts` the low four bits alone
/// are read and written, so a message that was read has no others.
#[derive(PartialEq, Eq)]
pub enum Message {
    WriteReplace(WriteReplace),
    /// A WRITE-REPLACE of an emergency warning.
    WriteEmergency(WriteEmergency),
    WriteComplete(WriteComplete),
    WriteFailure(WriteFailure),
    Kill(Kill),
    KillComplete(KillComplete),
    KillFailure(KillFailure),
    StatusQuery(StatusQuery),
    StatusComplete(StatusComplete),
    StatusFailure(StatusFailure),
    Restart(Restart),
    Failure(Failure),
    ErrorIndication(ErrorIndication),
}

/// Written out, so that no crate above proves anew how its parts are dropped.
impl Drop for Message {
    fn drop(self) {
        match self {
            Message::WriteReplace(_part) => {}
            Message::WriteEmergency(_part) => {}
            Message::WriteComplete(_part) => {}
            Message::WriteFailure(_part) => {}
            Message::Kill(_part) => {}
            Message::KillComplete(_part) => {}
            Message::KillFailure(_part) => {}
            Message::StatusQuery(_part) => {}
            Message::StatusComplete(_part) => {}
            Message::StatusFailure(_part) => {}
            Message::Restart(_part) => {}
            Message::Failure(_part) => {}
            Message::ErrorIndication(_part) => {}
        }
    }
}

impl Message {
    /// The type of the message.
    pub fn message_type(&self) -> MessageType
        ensures { result ≡ type_of self.now }
    {
        match self {
            Message::WriteReplace(_) | Message::WriteEmergency(_) => MessageType::WriteReplace,
            Message::WriteComplete(_) => MessageType::WriteComplete,
            Message::WriteFailure(_) => MessageType::WriteFailure,
            Message::Kill(_) => MessageType::Kill,
            Message::KillComplete(_) => MessageType::KillComplete,
            Message::KillFailure(_) => MessageType::KillFailure,
            Message::StatusQuery(_) => MessageType::StatusQuery,
            Message::StatusComplete(_) => MessageType::StatusComplete,
            Message::StatusFailure(_) => MessageType::StatusFailure,
            Message::Restart(_) => MessageType::Restart,
            Message::Failure(_) => MessageType::Failure,
            Message::ErrorIndication(_) => MessageType::ErrorIndication,
        }
    }

    /// The layout by which the message is read and written.
    pub fn layout(&self) -> Layout
        ensures { result ≡ layout_of self.now }
    {
        match self {
            Message::WriteReplace(_) => Layout::WriteReplace,
            Message::WriteEmergency(_) => Layout::WriteEmergency,
            Message::WriteComplete(_) => Layout::WriteComplete,
            Message::WriteFailure(_) => Layout::WriteFailure,
            Message::Kill(_) => Layout::Kill,
            Message::KillComplete(_) => Layout::KillComplete,
            Message::KillFailure(_) => Layout::KillFailure,
            Message::StatusQuery(_) => Layout::StatusQuery,
            Message::StatusComplete(_) => Layout::StatusComplete,
            Message::StatusFailure(_) => Layout::StatusFailure,
            Message::Restart(_) => Layout::Restart,
            Message::Failure(_) => Layout::Failure,
            Message::ErrorIndication(_) => Layout::ErrorIndication,
        }
    }

    /// Whether the two are the same message.
    pub fn same(&self, other: &Message) -> bool
        ensures { IsTrue result ↔ (self.now ≡ other.now) }
    {
        *self == *other
    }

    /// The same message, in memory of its own.
    pub fn copied(&self, alloc: Global) -> Result<Message, AllocError>
        ensures { IfOk result (λ copy. copy ≡ self.now) }
    {
        Ok(match self {
            Message::WriteReplace(m) => Message::WriteReplace(m.copied(alloc)?),
            Message::WriteEmergency(m) => Message::WriteEmergency(m.copied(alloc)?),
            Message::WriteComplete(m) => Message::WriteComplete(m.copied(alloc)?),
            Message::WriteFailure(m) => Message::WriteFailure(m.copied(alloc)?),
            Message::Kill(m) => Message::Kill(m.copied(alloc)?),
            Message::KillComplete(m) => Message::KillComplete(m.copied(alloc)?),
            Message::KillFailure(m) => Message::KillFailure(m.copied(alloc)?),
            Message::StatusQuery(m) => Message::StatusQuery(m.copied(alloc)?),
            Message::StatusComplete(m) => Message::StatusComplete(m.copied(alloc)?),
            Message::StatusFailure(m) => Message::StatusFailure(m.copied(alloc)?),
            Message::Restart(m) => Message::Restart(m.copied(alloc)?),
            Message::Failure(m) => Message::Failure(m.copied(alloc)?),
            Message::ErrorIndication(m) => Message::ErrorIndication(m.copied()),
        })
    }
}
