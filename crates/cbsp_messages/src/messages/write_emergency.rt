//! The message WRITE-REPLACE of an emergency warning (3GPP TS 48.049, 8.1.3).

ghost use Rattle.std.specs.Prelude.{◌≡◌, IfOk};
ghost use Rattle.cbsp_messages.specs.Layout.{layout_at};
ghost use Rattle.cbsp_messages.specs.Lent.{parts_lent};
ghost use Rattle.cbsp_messages.specs.Parts.{write_emergency_parts, values_at};
ghost use Rattle.cbsp_messages.specs.Spelling.{Says};
ghost use Rattle.cbsp_messages.specs.Taken.{HasDemanded, parts_taken};

use crate::elements::Elements;
use crate::layout::Layout;
use crate::message::Message;
use crate::message_parts::MessageParts;
use crate::message_type::MessageType;
use cbsp_ie::{CellIds, SecurityView};
use std::alloc::{AllocError, Global};

/// Writes an emergency warning, or replaces the older one that `old` names. `indicator` is the Emergency
/// Indicator, `security` the Warning Security Information.
#[derive(Drop, PartialEq, Eq)]
pub struct WriteEmergency {
    pub message_id: u16,
    pub serial: u16,
    pub old: Option<u16>,
    pub cells: CellIds,
    pub indicator: u8,
    pub warning_type: u16,
    pub warning_period: u8,
    pub security: [u8; 50],
}

impl WriteEmergency {
    /// The message of a body's elements, each demanded one of which is there.
    pub(crate) fn of(alloc: Global, elements: Elements<'_>) -> Result<WriteEmergency, AllocError>
        requires demanded { HasDemanded Layout.WriteEmergency (parts_taken elements) }
        requires laid { layout_at MessageType.WriteReplace (values_at (parts_taken elements)) ≡ Layout.WriteEmergency }
        ensures says { IfOk result (λ m. Says (values_at (parts_taken elements.entry)) (Message.WriteEmergency m)) }
    {
        Ok(WriteEmergency {
            message_id: elements.message_id.unwrap(),
            serial: elements.new_serial.unwrap(),
            old: elements.old_serial,
            cells: elements.cells.unwrap().to_ids(alloc)?,
            indicator: elements.emergency.unwrap(),
            warning_type: elements.warning_type.unwrap(),
            warning_period: elements.warning_period.unwrap(),
            security: copied_octets(&elements.security.unwrap()),
        })
    }

    /// What the message says for each element that it has.
    pub(crate) fn parts(&self) -> MessageParts<'_>
        ensures { parts_lent result ≡ write_emergency_parts self.now }
    {
        MessageParts {
            message_id: Some(self.message_id),
            new_serial: Some(self.serial),
            old_serial: self.old,
            cells: Some(&self.cells),
            emergency: Some(self.indicator),
            warning_type: Some(self.warning_type),
            warning_period: Some(self.warning_period),
            security: Some(&self.security),
            ..MessageParts::none()
        }
    }

    /// The same message, in memory of its own.
    pub fn copied(&self, alloc: Global) -> Result<WriteEmergency, AllocError>
        ensures { IfOk result (λ copy. copy ≡ self.now) }
    {
        Ok(WriteEmergency {
            message_id: self.message_id,
            serial: self.serial,
            old: self.old,
            cells: self.cells.copied(alloc)?,
            indicator: self.indicator,
            warning_type: self.warning_type,
            warning_period: self.warning_period,
            security: self.security,
        })
    }
}

/// The octets of the security information.
fn copied_octets(security: &SecurityView<'_>) -> [u8; 50]
    ensures { result ≡ security.now }
{
    let mut octets = [0; 50];
    octets.copy_from_slice(security.octets());
    octets
}
