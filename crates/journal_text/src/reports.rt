//! The lines of reports.

ghost use Rattle.std.specs.Prelude.{◌≡◌, ◌++◌, ◌∷◌, [], ◌≤◌, ◌↔◌, true, IfOk, OnOk, IsTrue, decimal, drop, length};
ghost use Rattle.cbsp_ie.specs.Frame.{longest_body};
ghost use Rattle.cbsp_messages.specs.Message.{type_of};
ghost use Rattle.cbsp_messages.specs.MessageType.{code_of, is_report};
ghost use Rattle.cbsp_messages.specs.Spelling.{Spells};
ghost use Rattle.cbsp_messages.specs.Written.{Fits, frame_of, plain, written};
ghost use Rattle.hex.specs.Hex.{IsBytes, encode_lower};
ghost use Rattle.journal_text.specs.Sayable.{HasFrame, IsBsc};
ghost use Rattle.journal_text.specs.Texts.{followed};

use crate::numbers::write_bsc;
use crate::words::push_octets;
use cbsp_messages::{Message, read_as, write};
use cell_register::BscId;
use std::alloc::{AllocError, Global};

/// Whether what is read of the body is the message: it is not, where the message has spare bits.
fn is_read_again(alloc: Global, message: &Message, body: &[u8]) -> Result<bool, AllocError>
    requires { Spells (code_of (type_of message.now)) body.now (plain message.now) }
    ensures { IfOk result (λ same. IsTrue same ↔ (plain message.now ≡ message.now)) }
{
    match read_as(alloc, message.message_type(), body) {
        Ok(read) => {
            let same = read.same(message);
            drop(read);
            Ok(same)
        }
        Err(_) => Err(AllocError),
    }
}

/// Writes an `rx`. The answer is whether a frame carries the message.
pub fn write_report(
    alloc: Global,
    line: &mut Vec<u8>,
    bsc: BscId,
    message: &Message,
) -> Result<bool, AllocError>
    requires { line.old.items ≡ [] }
    ensures carried { IfOk result (λ carried. IsTrue carried ↔ HasFrame message.now) }
    ensures text { IfOk result (λ carried. carried ≡ true → line.new.items ≡ followed 32 (114 ∷ 120 ∷ []) (decimal bsc ∷ encode_lower (frame_of message.now) ∷ [])) }
    ensures range { IsBsc bsc }
{
    let _number = bsc.number();
    if !message.message_type().is_report() || !message.fits() {
        return Ok(false);
    }
    let frame = write(alloc, message)?;
    if !is_read_again(alloc, message, &frame[4..])? {
        return Ok(false);
    }
    write_bsc(alloc, line, b"rx", bsc)?;
    push_octets(alloc, line, b' ', frame.as_slice())?;
    Ok(true)
}
