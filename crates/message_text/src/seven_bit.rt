//! Pages in the GSM 7-bit default alphabet.

ghost use Rattle.std.specs.Prelude.{◌≡◌, ◌<◌, ◌≤◌, ◌++◌, length, false, IfOk, OnOk};
ghost use Rattle.std.specs.List.{AllByRecursion, sum_by, flat_map};
ghost use Rattle.std.specs.Str.{encode_utf8_all};
ghost use Rattle.std.specs.String.{string_bytes};
ghost use Rattle.message_text.specs.Reading.{spelled};
ghost use Rattle.message_text.specs.Septets as page;
ghost use Rattle.message_text.specs.Texts.{HasSeptets};
ghost use Rattle.message_text.specs.Writing.{letter_septets};
ghost use Rattle.message_text.specs.Writing as written;

use crate::alphabet::{ESCAPE, code_of, escaped_letter, extended_code, letter_of};
use crate::septets::{CARRIAGE_RETURN, packed, septets_of};
use common::Octets;
use std::alloc::{AllocError, Global};

/// How many septets a letter takes: one, or an escape and one.
pub(crate) fn width(letter: char) -> usize
    ensures value { result ≡ length (letter_septets letter) }
    ensures bound { result ≤ 2 }
{
    if code_of(letter).is_some() {
        1
    } else if extended_code(letter).is_some() {
        2
    } else {
        0
    }
}

/// Appends the septets of a letter.
fn push_letter(septets: &mut Vec<u8>, letter: char) -> Result<(), AllocError>
    ensures { OnOk result (septets.new.items ≡ septets.old.items ++ letter_septets letter) }
{
    if let Some(code) = code_of(letter) {
        septets.push(code)?;
    } else if let Some(code) = extended_code(letter) {
        septets.push(ESCAPE)?;
        septets.push(code)?;
    }
    Ok(())
}

/// The septets of letters.
fn septets_for(alloc: Global, letters: &[char]) -> Result<Vec<u8>, AllocError>
    ensures { IfOk result (λ septets. septets.items ≡ flat_map letter_septets letters.now) }
{
    let mut septets = Vec::new(alloc);
    for letter in letters {
        push_letter(&mut septets, *letter)?;
    }
    Ok(septets)
}

/// Appends a carriage return where seven bits would be left in the last octet, which would be read as a letter.
fn fill(septets: &mut Vec<u8>) -> Result<(), AllocError>
    ensures { OnOk result (septets.new.items ≡ written.filled septets.old.items) }
{
    if septets.len() % 8 == 7 {
        septets.push(CARRIAGE_RETURN)?;
    }
    Ok(())
}

/// The page of letters.
pub(crate) fn page_of(alloc: Global, letters: &[char]) -> Result<Octets, AllocError>
    requires coded { AllByRecursion HasSeptets letters.now }
    requires some { 0 < length letters.now }
    requires room { sum_by (λ letter. length (letter_septets letter)) letters.now ≤ 93 }
    ensures read { IfOk result (λ octets. spelled false (page.septets_of octets) ≡ letters.now) }
    ensures some { IfOk result (λ octets. 1 ≤ length octets) }
    ensures room { IfOk result (λ octets. length octets ≤ 82) }
{
    let mut septets = septets_for(alloc, letters)?;
    fill(&mut septets)?;
    Ok(Octets::from_vec(packed(alloc, septets.as_slice())?))
}

/// Appends the letters of septets.
fn append_letters(text: &mut String, septets: &[u8]) -> Result<(), AllocError>
    requires { AllByRecursion (λ septet. septet < 128) septets.now }
    ensures { OnOk result (string_bytes text.new ≡ string_bytes text.old ++ encode_utf8_all (spelled false septets.now)) }
{
    let mut escaped = false;
    for septet in septets {
        if escaped {
            text.push(escaped_letter(*septet))?;
            escaped = false;
        } else if *septet == ESCAPE {
            escaped = true;
        } else {
            text.push(letter_of(*septet))?;
        }
    }
    if escaped {
        text.push(' ')?;
    }
    Ok(())
}

/// Appends the letters of a page.
pub(crate) fn append_page(alloc: Global, text: &mut String, octets: &[u8]) -> Result<(), AllocError>
    ensures { OnOk result (string_bytes text.new ≡ string_bytes text.old ++ encode_utf8_all (spelled false (page.septets_of octets.now))) }
{
    let septets = septets_of(alloc, octets)?;
    append_letters(text, septets.as_slice())
}
