//! What an operator is told who types a number that is no text identifier.

ghost use Rattle.std.specs.Prelude.{◌≡◌, ◌++◌, IfOk, OnOk, codes, string_bytes};
ghost use Rattle.message_identifiers.specs.Texts.{after_commas, hint, joined, name_or_kind, unusual_text};
ghost use Rattle.message_identifiers.specs.Lookups.{name_of};
ghost use Rattle.message_identifiers.specs.Nearness.{nearest_to};

use crate::lookups::{name_of, usage_of};
use crate::nearness::nearest_to;
use crate::usage::Usage;
use std::alloc::{AllocError, Global};

/// Puts numbers behind the text, each behind a comma.
fn push_more_numbers(text: &mut String, numbers: &[u16]) -> Result<(), AllocError>
    ensures { OnOk result (string_bytes text.new ≡ string_bytes text.old ++ after_commas numbers.now) }
{
    for number in numbers {
        write!(text, ", {number}")?;
    }
    Ok(())
}

/// Puts numbers behind the text, with a comma between them.
fn push_numbers(text: &mut String, numbers: &[u16]) -> Result<(), AllocError>
    ensures { OnOk result (string_bytes text.new ≡ string_bytes text.old ++ joined numbers.now) }
{
    if let [first, more @ ..] = numbers {
        write!(text, "{first}")?;
        push_more_numbers(text, more)?;
    }
    Ok(())
}

/// The identifiers that were meant by the number.
fn nearest_text(alloc: Global, number: u16) -> Result<String, AllocError>
    ensures { IfOk result (λ text. string_bytes text ≡ codes "nearest " ++ joined (nearest_to number)) }
{
    let numbers = nearest_to(alloc, number)?;
    let mut text = String::from_str(alloc, "nearest ")?;
    push_numbers(&mut text, numbers.as_slice())?;
    Ok(text)
}

/// What an identifier of emergency warnings is for.
fn emergency_word(number: u16) -> &'static str
    ensures { result.now ≡ name_or_kind (name_of number) }
{
    match name_of(number) {
        Some(name) => name,
        None => "an emergency",
    }
}

/// What was meant by the number.
fn hint(alloc: Global, number: u16) -> Result<String, AllocError>
    ensures { IfOk result (λ text. string_bytes text ≡ hint number) }
{
    match usage_of(number) {
        Usage::Emergency => {
            let word = emergency_word(number);
            format!(in alloc; "{word}, which alert sends")
        }
        Usage::Text | Usage::Unassigned => nearest_text(alloc, number),
    }
}

/// The answer to a `say` with the number: it is entered where it is typed again behind `!`.
#[tactic(auto, unfolding(crate::specs::Texts::unusual_text))]
pub fn unusual_text(alloc: Global, number: u16) -> Result<String, AllocError>
    ensures { IfOk result (λ text. string_bytes text ≡ unusual_text number) }
{
    let hint = hint(alloc, number)?;
    format!(in alloc;
        "unusual identifier {number}: {hint}; to say it all the same type !{number}\n"
    )
}
