//! The parts of a message, lent from it.

ghost use Rattle.std.specs.Prelude.{◌≡◌, ◌<◌, ◌↔◌, IsTrue, IfSome, None, length, option_map};
ghost use Rattle.cbsp_messages.specs.declared.message_parts.MessageParts.{MessageParts as TheParts};
ghost use Rattle.cbsp_messages.specs.Lent.{parts_lent};
ghost use Rattle.cbsp_messages.specs.Parts.{parts_of};

use crate::message::Message;
use crate::pages::Pages;
use cbsp_ie::{Cause, CellIds, Counts, Failures};

/// What a message says for each element that it has. The pages are all of its pages.
#[derive(Clone, Copy)]
pub struct MessageParts<'m> {
    pub message_id: Option<u16>,
    pub new_serial: Option<u16>,
    pub old_serial: Option<u16>,
    pub failures: Option<&'m Failures>,
    pub counts: Option<&'m Counts>,
    pub cells: Option<&'m CellIds>,
    pub channel: Option<u8>,
    pub category: Option<u8>,
    pub period: Option<u16>,
    pub requested: Option<u16>,
    pub page_count: Option<usize>,
    pub dcs: Option<u8>,
    pub pages: Option<&'m Pages>,
    pub kind: Option<u8>,
    pub recovery: Option<u8>,
    pub cause: Option<Cause>,
    pub emergency: Option<u8>,
    pub warning_type: Option<u16>,
    pub security: Option<&'m [u8; 50]>,
    pub warning_period: Option<u8>,
}

impl<'m> MessageParts<'m> {
    /// No parts, which those of a message fill.
    pub fn none() -> MessageParts<'m>
        ensures { result ≡ record { message_id = None; new_serial = None; old_serial = None; failures = None; counts = None; cells = None; channel = None; category = None; period = None; requested = None; page_count = None; dcs = None; pages = None; kind = None; recovery = None; cause = None; emergency = None; warning_type = None; security = None; warning_period = None } }
    {
        MessageParts {
            message_id: None,
            new_serial: None,
            old_serial: None,
            failures: None,
            counts: None,
            cells: None,
            channel: None,
            category: None,
            period: None,
            requested: None,
            page_count: None,
            dcs: None,
            pages: None,
            kind: None,
            recovery: None,
            cause: None,
            emergency: None,
            warning_type: None,
            security: None,
            warning_period: None,
        }
    }

    /// The parts of the message.
    pub fn of(message: &'m Message) -> MessageParts<'m>
        ensures { parts_lent result ≡ parts_of message.now }
    {
        match message {
            Message::WriteReplace(m) => m.parts(),
            Message::WriteEmergency(m) => m.parts(),
            Message::WriteComplete(m) => m.parts(),
            Message::WriteFailure(m) => m.parts(),
            Message::Kill(m) => m.parts(),
            Message::KillComplete(m) => m.parts(),
            Message::KillFailure(m) => m.parts(),
            Message::StatusQuery(m) => m.parts(),
            Message::StatusComplete(m) => m.parts(),
            Message::StatusFailure(m) => m.parts(),
            Message::Restart(m) => m.parts(),
            Message::Failure(m) => m.parts(),
            Message::ErrorIndication(m) => m.parts(),
        }
    }
}
