//! Words that are put behind those of a line.

ghost use Rattle.std.specs.Prelude.{◌≡◌, ◌++◌, ◌∷◌, OnOk, decimal};
ghost use Rattle.hex.specs.Hex.{IsBytes, encode_lower};

use std::alloc::{AllocError, Global};

/// Puts a word behind the line, after a space.
pub fn push_word(line: &mut Vec<u8>, word: &[u8]) -> Result<(), AllocError>
    ensures { OnOk result (line.new.items ≡ line.old.items ++ 32 ∷ word.now) }
{
    push_part(line, b' ', word)
}

/// Puts a part behind the line, after a separator.
pub fn push_part(line: &mut Vec<u8>, separator: u8, part: &[u8]) -> Result<(), AllocError>
    ensures { OnOk result (line.new.items ≡ line.old.items ++ separator ∷ part.now) }
{
    line.push(separator)?;
    line.extend_from_slice(part)?;
    Ok(())
}

/// Puts a number behind the line, after a space, in decimal digits.
pub fn push_number(alloc: Global, line: &mut Vec<u8>, number: u64) -> Result<(), AllocError>
    ensures { OnOk result (line.new.items ≡ line.old.items ++ 32 ∷ decimal number) }
{
    let digits = format!(in alloc; "{number}")?;
    push_word(line, digits.as_bytes())
}

/// Puts octets behind a line, after a separator, in hexadecimal digits.
pub fn push_octets(
    alloc: Global,
    line: &mut Vec<u8>,
    separator: u8,
    octets: &[u8],
) -> Result<(), AllocError>
    ensures text { OnOk result (line.new.items ≡ line.old.items ++ separator ∷ encode_lower octets.now) }
    ensures range { IsBytes octets.now }
{
    let digits = hex::encode(alloc, octets)?;
    push_part(line, separator, digits.as_bytes())
}
