//! What is found in the table.

ghost use Rattle.std.specs.Prelude.{◌≡◌, ◌==◌, MatchOption, Some, None, bytes_eq, find, option_map};
ghost use Rattle.message_identifiers.specs.Lookups.{name_of, number_of, rowless_usage, usage_of};

use crate::identifier::Identifier;
use crate::table::rows;
use crate::usage::Usage;

/// The number for which the name stands among these.
fn number_among(identifiers: &[Identifier], name: &[u8]) -> Option<u16>
    ensures { result ≡ option_map (λ i. i.number) (find (λ i. bytes_eq name.now i.name.now) identifiers.now) }
{
    identifiers
        .iter()
        .find(|it| name == it.name.as_bytes())
        .map(|it| it.number)
}

/// The number for which the name stands.
pub fn number_of(name: &[u8]) -> Option<u16>
    ensures { result ≡ number_of name.now }
{
    number_among(rows(), name)
}

/// The identifier of the number among these.
fn identifier_among(identifiers: &'static [Identifier], number: u16) -> Option<Identifier>
    ensures { result ≡ find (λ i. i.number == number) identifiers.now }
{
    identifiers.iter().copied().find(|it| it.number == number)
}

/// The name of the number.
#[tactic(auto, using(crate::proofs::TableLemmas::name_found))]
pub fn name_of(number: u16) -> Option<&'static str>
    ensures { MatchOption result (name_of number ≡ None) (λ name. name_of number ≡ Some name.now) }
{
    match identifier_among(rows(), number) {
        Some(it) => Some(it.name),
        None => None,
    }
}

/// What a number is for that has no row.
fn rowless_usage(number: u16) -> Usage
    ensures { result ≡ rowless_usage number }
{
    if 4352 <= number && number <= 4359 {
        Usage::Emergency
    } else {
        Usage::Unassigned
    }
}

/// What the number is for.
pub fn usage_of(number: u16) -> Usage
    ensures { result ≡ usage_of number }
{
    match identifier_among(rows(), number) {
        Some(it) => it.usage,
        None => rowless_usage(number),
    }
}
