//! Letters that turn the direction of the text around them.

ghost use Rattle.std.specs.Prelude.{◌≡◌, ◌++◌, ◌<◌, OnOk};
ghost use Rattle.status_pages.specs.Turns.{digit_of, ends_turn, is_isolate, is_mark, low_bits, octet_at, turn_number, turns};

use std::alloc::AllocError;

/// The octet at that place, or 0 where there is none.
fn octet_at(octets: &[u8], place: usize) -> u8
    ensures { result ≡ octet_at octets.now place }
{
    match octets.get(place) {
        Some(octet) => *octet,
        None => 0,
    }
}

/// Whether it is the third octet of U+200E, U+200F, or one of U+202A to U+202E.
fn is_mark(third: u8) -> bool
    ensures { result ≡ is_mark third }
{
    third == 142 || (third == 143 || (170 <= third && third <= 174))
}

/// Whether it is the third octet of one of U+2066 to U+2069.
fn is_isolate(third: u8) -> bool
    ensures { result ≡ is_isolate third }
{
    166 <= third && third <= 169
}

/// Whether the octets behind the first one end such a letter.
fn ends_turn(behind: &[u8]) -> bool
    ensures { result ≡ ends_turn behind.now }
{
    let (second, third) = (octet_at(behind, 0), octet_at(behind, 1));
    (second == 128 && is_mark(third)) || (second == 129 && is_isolate(third))
}

/// Whether an octet begins such a letter, by the octets behind it.
pub(crate) fn turns(first: u8, behind: &[u8]) -> bool
    ensures { result ≡ turns first behind.now }
{
    first == 226 && ends_turn(behind)
}

/// The lowest eight bits of the letter's number.
fn low_bits(behind: &[u8]) -> u8
    ensures { result ≡ low_bits behind.now }
{
    octet_at(behind, 0) % 4 * 64 + octet_at(behind, 1) % 64
}

fn digit_of(number: u8) -> u8
    requires { number < 16 }
    ensures { result ≡ digit_of number }
{
    if number < 10 {
        48 + number
    } else {
        55 + number
    }
}

/// Appends the letter by its number, as `[U+202E]`.
pub(crate) fn push_turn_number(out: &mut Vec<u8>, behind: &[u8]) -> Result<(), AllocError>
    ensures { OnOk result (out.new.items ≡ out.old.items ++ turn_number behind.now) }
{
    let low = low_bits(behind);
    out.extend_from_slice(b"[U+20")?;
    out.extend_from_slice(&[digit_of(low / 16), digit_of(low % 16)])?;
    out.extend_from_slice(b"]")
}
