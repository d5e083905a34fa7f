//! Which text identifiers were meant by a number that is none.

ghost use Rattle.std.specs.Prelude.{◌≡◌, ◌<◌, ◌≤◌, IfOk, filter, map, take};
ghost use Rattle.message_identifiers.specs.Nearness.{closest, is_near, is_near_at, is_text, near_numbers, nearest_to, without};

use crate::identifier::Identifier;
use crate::table::rows;
use crate::usage::Usage;
use std::alloc::{AllocError, Global};

/// The number without the digit of that power of ten.
fn without(power: u32, number: u16) -> u32
    requires above { 0 < power }
    requires below { power ≤ 10000 }
    ensures { result ≡ without power number }
{
    let number = u32::from(number);
    number / (power * 10) * power + number % power
}

/// Whether that digit alone was left out, put in or changed.
fn is_near_at(number: u16, known: u16, power: u32) -> bool
    requires above { 0 < power }
    requires below { power ≤ 10000 }
    ensures { result ≡ is_near_at number known power }
{
    without(power, known) == u32::from(number)
        || without(power, number) == u32::from(known)
        || without(power, number) == without(power, known)
}

/// Whether one digit was left out, put in or changed.
fn is_near(number: u16, known: u16) -> bool
    ensures { result ≡ is_near number known }
{
    is_near_at(number, known, 1)
        || is_near_at(number, known, 10)
        || is_near_at(number, known, 100)
        || is_near_at(number, known, 1000)
        || is_near_at(number, known, 10000)
}

/// Whether a warning with a text may have it.
fn is_text(usage: Usage) -> bool
    ensures { result ≡ is_text usage }
{
    match usage {
        Usage::Text => true,
        Usage::Emergency | Usage::Unassigned => false,
    }
}

/// The first three text identifiers among these of which one digit was left out, put in or changed.
fn near_among(
    alloc: Global,
    identifiers: &[Identifier],
    number: u16,
) -> Result<Vec<u16>, AllocError>
    ensures { IfOk result (λ found. found.items ≡ take 3 (filter (is_near number) (map (λ i. i.number) (filter (λ i. is_text i.usage) identifiers.now)))) }
{
    identifiers
        .iter()
        .filter(|it| is_text(it.usage))
        .map(|it| it.number)
        .filter(|known| is_near(number, *known))
        .take(3)
        .collect(alloc)
}

/// The first three text identifiers of which one digit was left out, put in or changed.
#[tactic(auto, using(crate::proofs::TableLemmas::near_found))]
fn near_numbers(alloc: Global, number: u16) -> Result<Vec<u16>, AllocError>
    ensures { IfOk result (λ found. found.items ≡ near_numbers number) }
{
    near_among(alloc, rows(), number)
}

/// The text identifier that is closest to a number above all of them or below.
fn closest(number: u16) -> u16
    ensures { result ≡ closest number }
{
    if number < 4370 { 4370 } else { 4399 }
}

/// The text identifiers that were meant by a number: at most three.
pub fn nearest_to(alloc: Global, number: u16) -> Result<Vec<u16>, AllocError>
    ensures { IfOk result (λ found. found.items ≡ nearest_to number) }
{
    let mut found = near_numbers(alloc, number)?;
    if found.is_empty() {
        found.push(closest(number))?;
    }
    Ok(found)
}
