//! The fault of a line.

ghost use Rattle.std.specs.Prelude.{◌≡◌, ◌≤◌, ◌<◌, ◌++◌, [], true, false, IfOk, OnOk, MatchOption, length, get_or};
ghost use Rattle.console_text.specs.Words.{words_of};
ghost use Rattle.line_faults.specs.Faults.{FitBelow, IsFault, IsFaultOf, IsFirstWrong, IsOf, NoneBegins, front_of, is_digits, second_if, seconds};
ghost use Rattle.line_faults.specs.Forms.{fits, forms};

use crate::choosing::chosen;
use crate::forms::{fits, forms, has_text};
use crate::line_fault::LineFault;
use crate::nearest::nearest;
use crate::straying::stray_within;
use common::{Name, Names, Octets};
use console_text::word::Word;
use console_text::words::{is_word, split_words};
use std::alloc::{AllocError, Global};

fn octets_of(alloc: Global, word: &Word<'_>) -> Result<Octets, AllocError>
    ensures { IfOk result (λ octets. octets ≡ word.now) }
{
    Ok(Octets::from_vec(Vec::from_slice(alloc, word.as_slice())?))
}

fn name_of(alloc: Global, word: &Word<'_>) -> Result<Name, AllocError>
    ensures { IfOk result (λ name. name ≡ word.now) }
{
    Ok(Name::from_vec(Vec::from_slice(alloc, word.as_slice())?))
}

fn names_of(alloc: Global, words: &[Word<'_>]) -> Result<Names, AllocError>
    ensures { IfOk result (λ names. names ≡ words.now) }
{
    let mut names = Vec::new(alloc);
    for word in words {
        names.push(name_of(alloc, word)?)?;
    }
    Ok(Names::from_vec(names))
}

/// Whether there is a word at the place that may not stand there.
fn is_wrong(form: &[Word<'_>], words: &[Word<'_>], place: usize) -> bool
    requires { place < length form.now }
    ensures wrong { result ≡ true → (place < length words.now) × (fits (get_or form.now place []) (get_or words.now place []) ≡ false) }
    ensures fits { result ≡ false → place < length words.now → fits (get_or form.now place []) (get_or words.now place []) ≡ true }
{
    place < words.len() && !fits(form[place].as_slice(), words[place].as_slice())
}

/// The first word that may not stand where it does.
fn first_wrong(form: &[Word<'_>], words: &[Word<'_>]) -> Option<usize>
    ensures { MatchOption result (FitBelow (length form.now) form.now words.now) (IsFirstWrong form.now words.now) }
{
    for place in 0..form.len() {
        if is_wrong(form, words, place) {
            return Some(place);
        }
    }
    None
}

/// Whether the word has digits alone.
fn is_digits(word: &[u8]) -> bool
    ensures { result ≡ is_digits word.now }
{
    for octet in word {
        if !octet.is_ascii_digit() {
            return false;
        }
    }
    true
}

/// The fault of the first word that may not stand where it does.
fn wrong_word(
    alloc: Global,
    line: &[u8],
    form: &[Word<'_>],
    words: &[Word<'_>],
    place: usize,
) -> Result<LineFault, AllocError>
    requires of { IsOf words.now form.now }
    requires first { IsFirstWrong form.now words.now place }
    ensures { IfOk result (IsFaultOf line.now words.now) }
{
    let name = octets_of(alloc, &form[place])?;
    let word = octets_of(alloc, &words[place])?;
    if is_digits(words[place].as_slice()) {
        Ok(LineFault::OutOfRange(place + 1, name, word))
    } else {
        Ok(LineFault::NotNumber(place + 1, name, word))
    }
}

/// The fault of a line whose words may each stand where they do.
fn count_fault(
    alloc: Global,
    line: &[u8],
    form: &[Word<'_>],
    words: &[Word<'_>],
) -> Result<LineFault, AllocError>
    requires of { IsOf words.now form.now }
    requires fit { FitBelow (length form.now) form.now words.now }
    ensures { IfOk result (IsFaultOf line.now words.now) }
{
    if words.len() < form.len() {
        Ok(LineFault::Missing(names_of(alloc, &form[words.len()..])?))
    } else if has_text(form) || words.len() == form.len() {
        Ok(LineFault::NotHere)
    } else {
        Ok(LineFault::TooMany(words.len() - form.len()))
    }
}

/// The fault of the words of a line that begins as the form does.
fn words_fault(
    alloc: Global,
    line: &[u8],
    form: &[Word<'_>],
    words: &[Word<'_>],
) -> Result<LineFault, AllocError>
    requires { IsOf words.now form.now }
    ensures { IfOk result (IsFaultOf line.now words.now) }
{
    match first_wrong(form, words) {
        Some(place) => wrong_word(alloc, line, form, words, place),
        None => count_fault(alloc, line, form, words),
    }
}

/// How many words of a line stand before its text.
fn front_of(form: &[Word<'_>], words: &[Word<'_>]) -> usize
    ensures { result ≡ front_of form.now words.now }
{
    if has_text(form) {
        form.len().saturating_sub(1)
    } else {
        words.len()
    }
}

/// The fault of a line that begins as the form does.
fn form_fault(
    alloc: Global,
    line: &[u8],
    form: &[Word<'_>],
    words: &[Word<'_>],
) -> Result<LineFault, AllocError>
    requires { IsOf words.now form.now }
    ensures { IfOk result (IsFaultOf line.now words.now) }
{
    match stray_within(alloc, line, front_of(form, words))? {
        Some((stray, column)) => Ok(LineFault::Stray(stray, column)),
        None => words_fault(alloc, line, form, words),
    }
}

/// The fault of a line that begins as the form of this row does.
fn row_fault(
    alloc: Global,
    line: &[u8],
    row: &Name,
    words: &[Word<'_>],
) -> Result<LineFault, AllocError>
    requires { IsOf words.now (words_of row.now) }
    ensures { IfOk result (IsFaultOf line.now words.now) }
{
    let form = split_words(alloc, row.as_slice())?;
    form_fault(alloc, line, form.as_slice(), words)
}

/// The second word of the row, if this is its first one.
fn push_second(
    alloc: Global,
    choices: &mut Vec<Name>,
    first: &[u8],
    row: &Name,
) -> Result<(), AllocError>
    ensures { OnOk result (choices.new.items ≡ choices.old.items ++ second_if first.now (words_of row.now)) }
{
    let form = split_words(alloc, row.as_slice())?;
    if let [part, next, ..] = form.as_slice() {
        if is_word(part.as_slice(), first) {
            choices.push(name_of(alloc, next)?)?;
        }
    }
    Ok(())
}

/// The second words of the rows that begin with that word.
fn seconds(alloc: Global, rows: &[Name], first: &[u8]) -> Result<Names, AllocError>
    ensures { IfOk result (λ names. names ≡ seconds first.now rows.now) }
{
    let mut choices = Vec::new(alloc);
    for row in rows {
        push_second(alloc, &mut choices, first, row)?;
    }
    Ok(Names::from_vec(choices))
}

/// The fault of a line whose first word begins no line.
fn unknown_word(
    alloc: Global,
    line: &[u8],
    rows: &[Name],
    words: &[Word<'_>],
    first: &Word<'_>,
) -> Result<LineFault, AllocError>
    requires rows { rows.now ≡ forms }
    requires none { NoneBegins forms words.now }
    requires first { get_or words.now 0 [] ≡ first.now }
    requires some { 0 < length words.now }
    requires no_second { seconds first.now forms ≡ [] }
    ensures { IfOk result (IsFaultOf line.now words.now) }
{
    if let Some((stray, column)) = stray_within(alloc, line, 1)? {
        return Ok(LineFault::Stray(stray, column));
    }
    let near = nearest(alloc, rows, first.as_slice())?;
    Ok(LineFault::NoSuchWord(octets_of(alloc, first)?, near))
}

/// The second word, empty where there is none.
fn second_of(alloc: Global, behind: &[Word<'_>]) -> Result<Octets, AllocError>
    ensures { IfOk result (λ word. word ≡ get_or behind.now 0 []) }
{
    match behind {
        [word, ..] => octets_of(alloc, word),
        [] => Ok(Octets::from_vec(Vec::new(alloc))),
    }
}

/// The fault of a line whose first word begins lines, none of which has its second word.
fn unknown_second(
    alloc: Global,
    line: &[u8],
    words: &[Word<'_>],
    choices: Names,
) -> Result<LineFault, AllocError>
    requires none { NoneBegins forms words.now }
    requires some { 0 < length words.now }
    requires choices { choices ≡ seconds (get_or words.now 0 []) forms }
    ensures { IfOk result (IsFaultOf line.now words.now) }
{
    if let Some((stray, column)) = stray_within(alloc, line, 2)? {
        return Ok(LineFault::Stray(stray, column));
    }
    let word = second_of(alloc, &words[1..])?;
    Ok(LineFault::NoSuchSecond(word, choices))
}

/// The fault of a line that begins as no form does.
fn unknown_fault(
    alloc: Global,
    line: &[u8],
    rows: &[Name],
    words: &[Word<'_>],
) -> Result<LineFault, AllocError>
    requires rows { rows.now ≡ forms }
    requires none { NoneBegins forms words.now }
    ensures { IfOk result (IsFaultOf line.now words.now) }
{
    let [first, ..] = words else {
        return Ok(LineFault::NotHere);
    };
    let choices = seconds(alloc, rows, first.as_slice())?;
    if choices.as_slice().is_empty() {
        unknown_word(alloc, line, rows, words, first)
    } else {
        unknown_second(alloc, line, words, choices)
    }
}

/// The fault of a line of these words.
fn fault_of_words(
    alloc: Global,
    line: &[u8],
    rows: &[Name],
    words: &[Word<'_>],
) -> Result<LineFault, AllocError>
    requires { rows.now ≡ forms }
    ensures { IfOk result (IsFaultOf line.now words.now) }
{
    match chosen(alloc, rows, words)? {
        Some(place) => row_fault(alloc, line, &rows[place], words),
        None => unknown_fault(alloc, line, rows, words),
    }
}

/// Why the line is bad, which is given without its end: the first cause in the order of `LineFault`.
pub fn fault_of(alloc: Global, line: &[u8]) -> Result<LineFault, AllocError>
    ensures { IfOk result (IsFault line.now) }
{
    let rows = forms(alloc)?;
    let words = split_words(alloc, line)?;
    fault_of_words(alloc, line, rows.as_slice(), words.as_slice())
}
