//! How far a word is from another.

ghost use Rattle.std.specs.Prelude.{◌≡◌, ◌≤◌, IfOk, drop, length, reverse};
ghost use Rattle.line_faults.specs.Nearest.{apart, before_end, distance, distance_by, is_letter, letters_in, same_front, small};

use common::Octets;
use std::alloc::{AllocError, Global};

/// Whether it is a letter or a digit.
fn is_letter(octet: u8) -> bool
    ensures { result ≡ is_letter octet }
{
    match octet {
        b'A'..=b'Z' | b'a'..=b'z' | b'0'..=b'9' => true,
        _ => false,
    }
}

/// The small letter of a capital one.
fn small(octet: u8) -> u8
    ensures { result ≡ small octet }
{
    if b'A' <= octet && octet <= b'Z' {
        octet + 32
    } else {
        octet
    }
}

/// The letters and digits of a word, small ones.
fn letters_in(alloc: Global, word: &[u8]) -> Result<Octets, AllocError>
    ensures { IfOk result (λ letters. letters ≡ letters_in word.now) }
{
    let letters: Vec<u8> = word
        .iter()
        .copied()
        .filter(|octet| is_letter(*octet))
        .map(|octet| small(octet))
        .collect(alloc)?;
    Ok(Octets::from_vec(letters))
}

/// With how many of the same both begin.
fn same_front(one: &[u8], other: &[u8]) -> usize
    ensures same { result ≡ same_front one.now other.now }
    ensures in_one { result ≤ length one.now }
    ensures in_other { result ≤ length other.now }
{
    for (place, octet) in one.iter().enumerate() {
        if place == other.len() {
            return place;
        }
        if *octet != other[place] {
            return place;
        }
    }
    one.len()
}

/// The octets from the last to the first.
fn reversed(alloc: Global, octets: &[u8]) -> Result<Octets, AllocError>
    ensures { IfOk result (λ found. found ≡ reverse octets.now) }
{
    let mut found = Vec::from_slice(alloc, octets)?;
    found.reverse();
    Ok(Octets::from_vec(found))
}

/// How many of the longer one stand before the end that both have.
fn before_end(alloc: Global, one: &[u8], other: &[u8]) -> Result<usize, AllocError>
    ensures { IfOk result (λ count. count ≡ before_end one.now other.now) }
{
    let from_end = reversed(alloc, one)?;
    let other_from_end = reversed(alloc, other)?;
    let same = same_front(from_end.as_slice(), other_from_end.as_slice());
    Ok(one.len().max(other.len()) - same)
}

/// The same behind the front that both have.
fn apart(alloc: Global, one: &[u8], other: &[u8]) -> Result<usize, AllocError>
    ensures { IfOk result (λ count. count ≡ apart one.now other.now) }
{
    let same = same_front(one, other);
    before_end(alloc, &one[same..], &other[same..])
}

/// The same of words that are near; 3 for others.
fn distance_by(alloc: Global, one: &[u8], other: &[u8]) -> Result<usize, AllocError>
    ensures { IfOk result (λ count. count ≡ distance_by one.now other.now) }
{
    let count = apart(alloc, one, other)?;
    if count <= 2 && count * 2 <= one.len().max(other.len()) {
        Ok(count)
    } else {
        Ok(3)
    }
}

/// How far a word is from another: how many letters between the front and the end that both have, without regard to their case and
/// to what is neither a letter nor a digit. 3 is too far.
pub fn distance(alloc: Global, word: &[u8], other: &[u8]) -> Result<usize, AllocError>
    ensures { IfOk result (λ count. count ≡ distance word.now other.now) }
{
    let letters = letters_in(alloc, word)?;
    let others = letters_in(alloc, other)?;
    distance_by(alloc, letters.as_slice(), others.as_slice())
}
