//! The letters of a text.

ghost use Rattle.std.specs.Prelude.{◌≡◌, IfOk, IfErr, OnOk};
ghost use Rattle.std.specs.Str.{chars};
ghost use Rattle.message_text.specs.Texts as texts;

use crate::fault::TextFault;
use std::alloc::{AllocError, Global};

/// Why no page can have the letter.
fn letter_fault(letter: char) -> Option<TextFault>
    ensures { result ≡ texts.letter_fault letter }
{
    if letter == '\n' {
        None
    } else if letter.is_control() {
        Some(TextFault::ControlLetter)
    } else if (letter as u32) < 0x10000 {
        None
    } else {
        Some(TextFault::OutsideUcs2)
    }
}

/// Why no page can have the first letter that none can have.
fn letters_fault(letters: &[char]) -> Option<TextFault>
    ensures { result ≡ texts.letters_fault letters.now }
{
    for letter in letters {
        if let Some(fault) = letter_fault(*letter) {
            return Some(fault);
        }
    }
    None
}

/// The letters of a text in UTF-8.
pub(crate) fn collected(alloc: Global, text: &str) -> Result<Vec<char>, AllocError>
    ensures { IfOk result (λ letters. letters.items ≡ chars text.now) }
{
    text.chars().collect(alloc)
}

/// The letters of a text that pages can have.
pub(crate) fn letters_of(alloc: Global, text: &[u8]) -> Result<Vec<char>, TextFault>
    ensures letters { IfOk result (λ letters. letters.items ≡ chars text.now) }
    ensures plain { OnOk result (texts.IsPlain text.now) }
    ensures fault { IfErr result (texts.IsTextFault text.now) }
{
    let Ok(text) = str::from_utf8(text) else {
        return Err(TextFault::NotUtf8);
    };
    if text.is_empty() {
        return Err(TextFault::Empty);
    }
    let letters = collected(alloc, text)?;
    match letters_fault(letters.as_slice()) {
        Some(fault) => Err(fault),
        None => Ok(letters),
    }
}
