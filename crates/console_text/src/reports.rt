//! The messages of BSCs that lines report.

ghost use Rattle.std.specs.Prelude.{◌≡◌, ◌⊎◌, IfOk, IsSomeAnd, Ok, Err};
ghost use Rattle.cbsp_messages.specs.MessageType.{report_type};
ghost use Rattle.console_text.specs.Reports.{BodyComesTo, DigitsCarry, DigitsComeTo, FrameComesTo};

use crate::frames::read_frame;
use crate::hex_text::read_octets;
use crate::text_fault::TextFault;
use cbsp_messages::{Message, MessageFault, MessageType, read_as};
use framing::Frame;
use std::alloc::{AllocError, Global};

/// The message of the type that the octets spell.
fn message_in(alloc: Global, kind: MessageType, body: &[u8]) -> Result<Message, TextFault>
    ensures { BodyComesTo (λ m. result ≡ Ok m) (λ f. result ≡ Err f) kind body.now ⊎ (result ≡ Err TextFault.Memory) }
{
    match read_as(alloc, kind, body) {
        Ok(message) => Ok(message),
        Err(MessageFault::Memory) => Err(TextFault::Memory),
        Err(fault) => Err(TextFault::Message(fault)),
    }
}

/// The message of a frame that a BSC sends.
#[tactic(auto, using(crate::proofs::ReportLemmas::frame_comes_to))]
fn message_of(alloc: Global, frame: &Frame) -> Result<Message, TextFault>
    ensures { FrameComesTo (λ m. result ≡ Ok m) (λ f. result ≡ Err f) frame.now ⊎ IsSomeAnd (report_type frame.now.kind) (λ t. result ≡ Err TextFault.Memory) }
{
    match MessageType::of_report(frame.kind) {
        Some(kind) => message_in(alloc, kind, frame.body.as_slice()),
        None => Err(TextFault::Skipped),
    }
}

/// The message of a BSC that the hexadecimal digits spell as a whole frame.
pub(crate) fn report_of(
    alloc: Global,
    digits: &[u8],
) -> Result<Result<Message, TextFault>, AllocError>
    ensures { IfOk result (λ sent. DigitsComeTo (λ m. sent ≡ Ok m) (λ f. sent ≡ Err f) digits.now ⊎ DigitsCarry (λ t body. sent ≡ Err TextFault.Memory) digits.now) }
{
    let Some(octets) = read_octets(alloc, digits)? else {
        return Ok(Err(TextFault::Hex));
    };
    let Some(frame) = read_frame(alloc, octets.as_slice())? else {
        return Ok(Err(TextFault::Frame));
    };
    Ok(message_of(alloc, &frame))
}
