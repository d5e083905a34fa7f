//! Reading a message.

ghost use Rattle.std.specs.Prelude.{◌≡◌, ◌⊎◌, List, [], ℕ, IfOk, IfErr, MatchResult};
ghost use Rattle.cbsp_messages.specs.declared.message.Message.{Message as AMessage};
ghost use Rattle.cbsp_messages.specs.Faults.{IsCutFault, IsFault, IsFaultAs};
ghost use Rattle.cbsp_messages.specs.Message.{type_of};
ghost use Rattle.cbsp_messages.specs.MessageType.{code_of};
ghost use Rattle.cbsp_messages.specs.Spelling.{Spells};
ghost use Rattle.cbsp_messages.specs.Taken.{Takes, parts_taken};

use crate::building::message_of;
use crate::elements::Elements;
use crate::fault::MessageFault;
use crate::message::Message;
use crate::message_type::MessageType;
use cbsp_ie::read_element;
use std::alloc::Global;

/// Reads the message of the type with this octet from the octets behind a frame's length
/// (3GPP TS 48.049, 8.1). A WRITE-REPLACE with an Emergency Indicator is that of an emergency warning. The elements may
/// come in any order, and those that the message's layout doesn't list are passed over. The faults are looked for in this
/// order: the type isn't in the profile; an element, from the left, has a fault or stands a second time; a demanded
/// element isn't there; the pages aren't as many as they should be.
pub fn read(alloc: Global, kind: u8, body: &[u8]) -> Result<Message, MessageFault>
    // What is read is spelled so.
    ensures found { IfOk result (Spells kind body.now) }
    // It is the first fault, unless memory runs out.
    ensures fault { IfErr result (λ f. (f ≡ MessageFault.Memory) ⊎ IsFault kind body.now f) }
    // What is spelled so is read, unless memory runs out.
    ensures only { (m : AMessage) → Spells kind body.now m → MatchResult result (λ read. read ≡ m) (λ f. f ≡ MessageFault.Memory) }
{
    message_in(alloc, kind, body)
}

fn message_in(alloc: Global, kind: u8, body: &[u8]) -> Result<Message, MessageFault>
    ensures found { IfOk result (Spells kind body.now) }
    ensures fault { IfErr result (λ f. (f ≡ MessageFault.Memory) ⊎ IsFault kind body.now f) }
{
    let Some(kind) = MessageType::of_code(kind) else {
        return Err(MessageFault::NotInProfile);
    };
    read_as(alloc, kind, body)
}

/// Reads the message of the type from the octets behind a frame's length, as `read` does where the octet of
/// the type is known to be in the profile.
pub fn read_as(alloc: Global, kind: MessageType, body: &[u8]) -> Result<Message, MessageFault>
    ensures kind { IfOk result (λ m. type_of m ≡ kind) }
    // What is read is spelled so.
    ensures found { IfOk result (Spells (code_of kind) body.now) }
    // It is the first fault, unless memory runs out.
    ensures fault { IfErr result (λ f. (f ≡ MessageFault.Memory) ⊎ IsFaultAs kind body.now f) }
    // What is spelled so is read, unless memory runs out.
    ensures only { (m : AMessage) → Spells (code_of kind) body.now m → MatchResult result (λ read. read ≡ m) (λ f. f ≡ MessageFault.Memory) }
{
    message_as(alloc, kind, body)
}

fn message_as(alloc: Global, kind: MessageType, body: &[u8]) -> Result<Message, MessageFault>
    ensures kind { IfOk result (λ m. type_of m ≡ kind) }
    ensures found { IfOk result (Spells (code_of kind) body.now) }
    ensures fault { IfErr result (λ f. (f ≡ MessageFault.Memory) ⊎ IsFaultAs kind body.now f) }
{
    let elements = read_elements(alloc, body)?;
    let layout = elements.layout(kind);
    if let Some(id) = elements.first_missing(layout) {
        return Err(MessageFault::Missing { id });
    }
    message_of(alloc, layout, elements)
}

fn read_elements(alloc: Global, body: &[u8]) -> Result<Elements<'_>, MessageFault>
    ensures found { IfOk result (λ e. Takes body.now [] (parts_taken e)) }
    ensures fault { IfErr result (λ f. (f ≡ MessageFault.Memory) ⊎ IsCutFault body.now f) }
{
    let mut elements = Elements::new(alloc);
    let mut rest = body;
    while !rest.is_empty() {
        let (element, used) = read_element(rest)?;
        elements.put(element)?;
        (_, rest) = rest.split_at(used);
    }
    Ok(elements)
}
