//! What is said of a line that is bad.

ghost use Rattle.std.specs.Prelude.{◌≡◌, ◌++◌, ◌∷◌, [], IfOk, OnOk, codes, decimal, string_bytes};
ghost use Rattle.line_faults.specs.Texts.{bounds_text, fault_text, is_text, listed, missing_text, nearest_text, or_name_text, second_text, stray_name, word_text, words_text};
ghost use Rattle.line_faults.specs.Forms.{bounds_of};

use crate::bounds::Bounds;
use crate::forms::{bounds_of, is_identifier_or_name};
use crate::line_fault::LineFault;
use crate::quoting::shown;
use crate::stray::Stray;
use common::{Name, Octets};
use console_text::words::is_word;
use std::alloc::{AllocError, Global};

fn push_word(alloc: Global, text: &mut String, word: &[u8]) -> Result<(), AllocError>
    ensures { OnOk result (string_bytes text.new ≡ string_bytes text.old ++ listed (word.now ∷ [])) }
{
    let word = shown(alloc, word)?;
    text.push_str(" ")?;
    text.push_str(word.as_str())
}

/// The words, with a space before each.
fn listed(alloc: Global, words: &[Name]) -> Result<String, AllocError>
    ensures { IfOk result (λ text. string_bytes text ≡ listed words.now) }
{
    let mut text = String::new(alloc);
    for word in words {
        push_word(alloc, &mut text, word.as_slice())?;
    }
    Ok(text)
}

/// The numbers that may stand there.
fn bounds_text(alloc: Global, bounds: Option<Bounds>) -> Result<String, AllocError>
    ensures { IfOk result (λ text. string_bytes text ≡ bounds_text bounds) }
{
    match bounds {
        None => String::from_str(alloc, "what may stand there"),
        Some(Bounds { least, most }) => format!(in alloc; "{least} to {most}"),
    }
}

fn stray_name(stray: Stray) -> &'static str
    ensures { result.now ≡ stray_name stray }
{
    match stray {
        Stray::Tab => "a tab",
        Stray::NoBreakSpace => "a no-break space (octets C2 A0)",
        Stray::ByteOrderMark => "a byte order mark (octets EF BB BF)",
    }
}

fn stray_text(alloc: Global, stray: Stray, column: usize) -> Result<String, AllocError>
    ensures { IfOk result (λ text. string_bytes text ≡ stray_name stray ++ (codes " at column " ++ (decimal column ++ codes ": words are separated by spaces"))) }
{
    let name = stray_name(stray);
    format!(in alloc; "{name} at column {column}: words are separated by spaces")
}

fn nearest_text(alloc: Global, nearest: &Option<Octets>) -> Result<String, AllocError>
    ensures { IfOk result (λ text. string_bytes text ≡ nearest_text nearest.now) }
{
    match nearest {
        None => String::from_str(alloc, "; help lists all lines"),
        Some(word) => {
            let word = shown(alloc, word.as_slice())?;
            format!(in alloc; "; nearest is {word}; help lists all lines")
        }
    }
}

fn unknown_text(
    alloc: Global,
    word: &Octets,
    nearest: &Option<Octets>,
) -> Result<String, AllocError>
    ensures { IfOk result (λ text. string_bytes text ≡ fault_text (LineFault.NoSuchWord word.now nearest.now)) }
{
    let word = shown(alloc, word.as_slice())?;
    let nearest = nearest_text(alloc, nearest)?;
    format!(in alloc; "no line begins with '{word}'{nearest}")
}

/// The second words that may stand there.
fn second_text(alloc: Global, word: &[u8], choices: &[Name]) -> Result<String, AllocError>
    ensures { IfOk result (λ text. string_bytes text ≡ second_text word.now choices.now) }
{
    let choices = listed(alloc, choices)?;
    if word.is_empty() {
        format!(in alloc; "word 2 is missing, one of:{choices}")
    } else {
        let word = shown(alloc, word)?;
        format!(in alloc; "word 2: '{word}' is none of:{choices}")
    }
}

/// A word by its position and its name.
fn word_text(
    alloc: Global,
    position: usize,
    name: &Octets,
    word: &Octets,
) -> Result<String, AllocError>
    ensures { IfOk result (λ text. string_bytes text ≡ word_text position name.now word.now) }
{
    let name = shown(alloc, name.as_slice())?;
    let word = shown(alloc, word.as_slice())?;
    format!(in alloc; "word {position}, {name}: '{word}'")
}

/// Which words may stand there besides a number.
fn or_name_text(name: &[u8]) -> &'static str
    ensures { result.now ≡ or_name_text name.now }
{
    if is_identifier_or_name(name) {
        " and no name of one"
    } else {
        ""
    }
}

/// What may stand at the place of that name.
#[tactic(auto, unfolding(crate::specs::Texts::words_text))]
fn words_text(alloc: Global, name: &[u8]) -> Result<String, AllocError>
    ensures { IfOk result (λ text. string_bytes text ≡ words_text name.now) }
{
    let bounds = bounds_text(alloc, bounds_of(name))?;
    let or_name = or_name_text(name);
    format!(in alloc; "{bounds}{or_name}")
}

fn not_number_text(
    alloc: Global,
    position: usize,
    name: &Octets,
    word: &Octets,
) -> Result<String, AllocError>
    ensures { IfOk result (λ text. string_bytes text ≡ fault_text (LineFault.NotNumber position name.now word.now)) }
{
    let word = word_text(alloc, position, name, word)?;
    let words = words_text(alloc, name.as_slice())?;
    format!(in alloc; "{word} is no number from {words}")
}

fn out_of_range_text(
    alloc: Global,
    position: usize,
    name: &Octets,
    word: &Octets,
) -> Result<String, AllocError>
    ensures { IfOk result (λ text. string_bytes text ≡ fault_text (LineFault.OutOfRange position name.now word.now)) }
{
    let word = word_text(alloc, position, name, word)?;
    let bounds = bounds_text(alloc, bounds_of(name.as_slice()))?;
    format!(in alloc; "{word} is not {bounds}")
}

/// Whether a text alone is missing.
fn is_text(names: &[Name]) -> bool
    ensures { result ≡ is_text names.now }
{
    match names {
        [name] => is_word(name.as_slice(), b"TEXT"),
        _ => false,
    }
}

fn missing_text(alloc: Global, names: &[Name]) -> Result<String, AllocError>
    ensures { IfOk result (λ text. string_bytes text ≡ missing_text names.now) }
{
    if is_text(names) {
        return String::from_str(alloc, "there is no text");
    }
    let names = listed(alloc, names)?;
    format!(in alloc; "missing:{names}")
}

/// What is said of the fault, without an end of the line.
pub fn fault_text(alloc: Global, fault: &LineFault) -> Result<String, AllocError>
    ensures { IfOk result (λ text. string_bytes text ≡ fault_text fault.now) }
{
    match fault {
        LineFault::Stray(stray, column) => stray_text(alloc, *stray, *column),
        LineFault::NoSuchWord(word, nearest) => unknown_text(alloc, word, nearest),
        LineFault::NoSuchSecond(word, choices) => {
            second_text(alloc, word.as_slice(), choices.as_slice())
        }
        LineFault::NotNumber(position, name, word) => not_number_text(alloc, *position, name, word),
        LineFault::OutOfRange(position, name, word) => {
            out_of_range_text(alloc, *position, name, word)
        }
        LineFault::Missing(names) => missing_text(alloc, names.as_slice()),
        LineFault::TooMany(count) => format!(in alloc; "words too many: {count}"),
        LineFault::NotHere => String::from_str(
            alloc,
            "only a console at the socket file takes this line",
        ),
    }
}
