//! The form with which a line is compared.

ghost use Rattle.std.specs.Prelude.{◌≡◌, ◌<◌, ◌&&◌, true, IfOk, MatchOption, length};
ghost use Rattle.console_text.specs.Words.{words_of};
ghost use Rattle.line_faults.specs.Faults.{IsChosen, NoneBegins, NoneHasRoom, begins, form_at, has_room, has_second};

use crate::forms::{has_text, is_name};
use common::Name;
use console_text::word::Word;
use console_text::words::{is_word, split_words};
use std::alloc::{AllocError, Global};

/// Whether the second word of a form is a name, or that of the line.
fn has_second(parts: &[Word<'_>], words: &[Word<'_>]) -> bool
    ensures { result ≡ has_second parts.now words.now }
{
    let [part, ..] = parts else {
        return true;
    };
    if is_name(part.as_slice()) {
        return true;
    }
    match words {
        [word, ..] => is_word(part.as_slice(), word.as_slice()),
        [] => false,
    }
}

/// Whether the line begins as the form does.
fn begins(form: &[Word<'_>], words: &[Word<'_>]) -> bool
    ensures { result ≡ begins form.now words.now }
{
    let [part, parts @ ..] = form else {
        return false;
    };
    match words {
        [word, behind @ ..] => {
            is_word(part.as_slice(), word.as_slice()) && has_second(parts, behind)
        }
        [] => false,
    }
}

/// Whether the form has a place for each word.
fn has_room(form: &[Word<'_>], words: &[Word<'_>]) -> bool
    ensures { result ≡ has_room form.now words.now }
{
    has_text(form) || words.len() <= form.len()
}

/// Whether the line begins as the form of the row does.
fn row_begins(alloc: Global, row: &Name, words: &[Word<'_>]) -> Result<bool, AllocError>
    ensures { IfOk result (λ is. is ≡ begins (words_of row.now) words.now) }
{
    let form = split_words(alloc, row.as_slice())?;
    Ok(begins(form.as_slice(), words))
}

/// Whether the form of the row also has a place for each word.
fn row_holds(alloc: Global, row: &Name, words: &[Word<'_>]) -> Result<bool, AllocError>
    ensures { IfOk result (λ is. is ≡ (begins (words_of row.now) words.now && has_room (words_of row.now) words.now)) }
{
    let form = split_words(alloc, row.as_slice())?;
    Ok(begins(form.as_slice(), words) && has_room(form.as_slice(), words))
}

/// The first row whose form has a place for each word.
fn holding(alloc: Global, rows: &[Name], words: &[Word<'_>]) -> Result<Option<usize>, AllocError>
    ensures { IfOk result (λ found. MatchOption found (NoneHasRoom rows.now words.now) (λ k. (k < length rows.now) × ((begins (form_at rows.now k) words.now && has_room (form_at rows.now k) words.now) ≡ true))) }
{
    for (place, row) in rows.iter().enumerate() {
        if row_holds(alloc, row, words)? {
            return Ok(Some(place));
        }
    }
    Ok(None)
}

/// The last row as whose form the line begins.
fn beginning(alloc: Global, rows: &[Name], words: &[Word<'_>]) -> Result<Option<usize>, AllocError>
    ensures { IfOk result (λ found. MatchOption found (NoneBegins rows.now words.now) (λ k. (k < length rows.now) × (begins (form_at rows.now k) words.now ≡ true))) }
{
    let mut last = None;
    for (place, row) in rows.iter().enumerate() {
        if row_begins(alloc, row, words)? {
            last = Some(place);
        }
    }
    Ok(last)
}

/// The row with whose form the line is compared.
pub(crate) fn chosen(
    alloc: Global,
    rows: &[Name],
    words: &[Word<'_>],
) -> Result<Option<usize>, AllocError>
    ensures { IfOk result (λ found. MatchOption found (NoneBegins rows.now words.now) (IsChosen rows.now words.now)) }
{
    match holding(alloc, rows, words)? {
        Some(place) => Ok(Some(place)),
        None => beginning(alloc, rows, words),
    }
}
