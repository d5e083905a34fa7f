//! A text in plain letters.

ghost use Rattle.std.specs.Prelude.{◌≡◌, ◌++◌, IfOk, OnOk};
ghost use Rattle.std.specs.List.{flat_map};
ghost use Rattle.std.specs.Str.{chars, encode_utf8_all};
ghost use Rattle.std.specs.String.{string_bytes};
ghost use Rattle.message_text.specs.Plain.{is_dash, is_double_quote, is_no_break_space, is_single_quote, plain_letters, plain_one, plain_text};

use crate::letters::collected;
use common::Octets;
use std::alloc::{AllocError, Global};

/// Whether it is a hyphen, a dash or a minus sign that isn't the plain one.
fn is_dash(letter: char) -> bool
    ensures { result ≡ is_dash letter }
{
    matches!(letter, '\u{2010}'..='\u{2015}' | '\u{2212}')
}

fn is_single_quote(letter: char) -> bool
    ensures { result ≡ is_single_quote letter }
{
    matches!(letter, '\u{2018}'..='\u{201b}' | '\u{2039}'..='\u{203a}')
}

fn is_double_quote(letter: char) -> bool
    ensures { result ≡ is_double_quote letter }
{
    matches!(letter, '\u{201c}'..='\u{201f}' | '\u{ab}' | '\u{bb}')
}

/// Whether it is a space at which no line is broken.
fn is_no_break_space(letter: char) -> bool
    ensures { result ≡ is_no_break_space letter }
{
    matches!(letter, '\u{a0}' | '\u{2007}' | '\u{202f}')
}

/// The plain letter of one other than an ellipsis.
fn plain_one(letter: char) -> char
    ensures { result ≡ plain_one letter }
{
    if is_dash(letter) {
        '-'
    } else if is_single_quote(letter) {
        '\''
    } else if is_double_quote(letter) {
        '"'
    } else if is_no_break_space(letter) {
        ' '
    } else {
        letter
    }
}

/// Puts the plain letters of a letter behind the text.
fn push_plain(text: &mut String, letter: char) -> Result<(), AllocError>
    ensures { OnOk result (string_bytes text.new ≡ string_bytes text.old ++ encode_utf8_all (plain_letters letter)) }
{
    if letter == '\u{2026}' {
        text.push_str("...")
    } else {
        text.push(plain_one(letter))
    }
}

/// The letters as plain ones.
fn plain_of(alloc: Global, letters: &[char]) -> Result<Octets, AllocError>
    ensures { IfOk result (λ text. text ≡ encode_utf8_all (flat_map plain_letters letters.now)) }
{
    let mut text = String::new(alloc);
    for letter in letters {
        push_plain(&mut text, *letter)?;
    }
    Ok(Octets::from_vec(text.into_bytes()))
}

/// The text in plain letters: dashes, quotation marks, ellipses and no-break spaces as what a keyboard has for them. Octets that are
/// no UTF-8 stay as they are.
pub fn plain_text(alloc: Global, text: &[u8]) -> Result<Octets, AllocError>
    ensures { IfOk result (λ plain. plain ≡ plain_text text.now) }
{
    match str::from_utf8(text) {
        Ok(letters) => {
            let letters = collected(alloc, letters)?;
            plain_of(alloc, letters.as_slice())
        }
        Err(_) => Ok(Octets::from_vec(Vec::from_slice(alloc, text)?)),
    }
}
