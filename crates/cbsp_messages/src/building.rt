//! Messages from the elements of a body, each demanded one of which is there.

ghost use Rattle.std.specs.Prelude.{◌≡◌, ◌⊎◌, IfOk, IfErr};
ghost use Rattle.cbsp_messages.specs.Faults.{IsPagesFault};
ghost use Rattle.cbsp_messages.specs.Layout.{layout_at, type_in};
ghost use Rattle.cbsp_messages.specs.Message.{layout_of};
ghost use Rattle.cbsp_messages.specs.Parts.{values_at};
ghost use Rattle.cbsp_messages.specs.Spelling.{Says};
ghost use Rattle.cbsp_messages.specs.Taken.{HasDemanded, parts_taken};

use crate::elements::Elements;
use crate::fault::MessageFault;
use crate::layout::Layout;
use crate::message::Message;
use crate::messages::{
    ErrorIndication, Failure, Kill, KillComplete, KillFailure, Restart, StatusComplete,
    StatusFailure, StatusQuery, WriteComplete, WriteEmergency, WriteFailure, WriteReplace,
};
use std::alloc::Global;

/// The message of the layout.
pub fn message_of(
    alloc: Global,
    layout: Layout,
    elements: Elements<'_>,
) -> Result<Message, MessageFault>
    requires demanded { HasDemanded layout (parts_taken elements) }
    requires laid { layout_at (type_in layout) (values_at (parts_taken elements)) ≡ layout }
    ensures laid { IfOk result (λ m. layout_of m ≡ layout) }
    ensures says { IfOk result (Says (values_at (parts_taken elements.entry))) }
    ensures fault { IfErr result (λ f. (f ≡ MessageFault.Memory) ⊎ IsPagesFault layout (values_at (parts_taken elements.entry)) f) }
{
    Ok(match layout {
        Layout::WriteReplace => Message::WriteReplace(WriteReplace::of(alloc, elements)?),
        Layout::WriteEmergency => Message::WriteEmergency(WriteEmergency::of(alloc, elements)?),
        Layout::WriteComplete => Message::WriteComplete(WriteComplete::of(alloc, elements)?),
        Layout::WriteFailure => Message::WriteFailure(WriteFailure::of(alloc, elements)?),
        Layout::Kill => Message::Kill(Kill::of(alloc, elements)?),
        Layout::KillComplete => Message::KillComplete(KillComplete::of(alloc, elements)?),
        Layout::KillFailure => Message::KillFailure(KillFailure::of(alloc, elements)?),
        Layout::StatusQuery => Message::StatusQuery(StatusQuery::of(alloc, elements)?),
        Layout::StatusComplete => Message::StatusComplete(StatusComplete::of(alloc, elements)?),
        Layout::StatusFailure => Message::StatusFailure(StatusFailure::of(alloc, elements)?),
        Layout::Restart => Message::Restart(Restart::of(alloc, elements)?),
        Layout::Failure => Message::Failure(Failure::of(alloc, elements)?),
        Layout::ErrorIndication => Message::ErrorIndication(ErrorIndication::of(elements)),
    })
}
