//! The word that was meant by one with which no line begins.

ghost use Rattle.std.specs.Prelude.{◌≡◌, ◌<◌, IfOk, MatchOption, length, get_or, []};
ghost use Rattle.console_text.specs.Words.{words_of};
ghost use Rattle.line_faults.specs.Faults.{IsNearest, NoneIsNear, first_at};
ghost use Rattle.line_faults.specs.Nearest.{distance};

use crate::nearness::distance;
use common::{Name, Octets};
use console_text::words::split_words;
use std::alloc::{AllocError, Global};

/// The first word of a row.
fn first_word(alloc: Global, row: &Name) -> Result<Octets, AllocError>
    ensures { IfOk result (λ word. word ≡ get_or (words_of row.now) 0 []) }
{
    let words = split_words(alloc, row.as_slice())?;
    match words.as_slice() {
        [first, ..] => Ok(Octets::from_vec(Vec::from_slice(alloc, first.as_slice())?)),
        [] => Ok(Octets::from_vec(Vec::new(alloc))),
    }
}

/// How far away the first word of a row is.
fn distance_to(alloc: Global, word: &[u8], row: &Name) -> Result<usize, AllocError>
    ensures { IfOk result (λ count. count ≡ distance word.now (get_or (words_of row.now) 0 [])) }
{
    let first = first_word(alloc, row)?;
    distance(alloc, word, first.as_slice())
}

/// The first row whose first word is nearest, and at most two letters away.
fn nearest_place(alloc: Global, rows: &[Name], word: &[u8]) -> Result<Option<usize>, AllocError>
    ensures { IfOk result (λ found. MatchOption found (NoneIsNear rows.now word.now) (λ place. (place < length rows.now) × IsNearest rows.now word.now (first_at rows.now place))) }
{
    let mut least = 3;
    let mut found = None;
    for (place, row) in rows.iter().enumerate() {
        let count = distance_to(alloc, word, row)?;
        if count < least {
            least = count;
            found = Some(place);
        }
    }
    Ok(found)
}

/// The nearest word with which a form begins, if one is near.
pub(crate) fn nearest(
    alloc: Global,
    rows: &[Name],
    word: &[u8],
) -> Result<Option<Octets>, AllocError>
    ensures { IfOk result (λ found. MatchOption found (NoneIsNear rows.now word.now) (IsNearest rows.now word.now)) }
{
    match nearest_place(alloc, rows, word)? {
        Some(place) => Ok(Some(first_word(alloc, &rows[place])?)),
        None => Ok(None),
    }
}
