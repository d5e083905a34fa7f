//! The digits of a serial number.

ghost use Rattle.std.specs.Prelude.{◌≡◌, IfOk, string_bytes};
ghost use Rattle.console_text.specs.Texts.{serial_text};

use serials::Serial;
use std::alloc::{AllocError, Global};

/// Four upper-case hexadecimal digits.
pub fn serial_text(alloc: Global, serial: Serial) -> Result<String, AllocError>
    ensures { IfOk result (λ text. string_bytes text ≡ serial_text serial) }
{
    let octets = serial.to_u16().to_be_bytes();
    hex::encode_upper(alloc, octets)
}
