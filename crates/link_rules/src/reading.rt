//! Reading a line of a list of peers.

ghost use Rattle.std.specs.Prelude.{◌≡◌, ◌≤◌, ◌^◌, ◌∷◌, [], ℕ, IfOk, MatchBool, MatchOption};
ghost use Rattle.link_rules.specs.Blocks.{IsBlockOf, IsBlockText};
ghost use Rattle.link_rules.specs.declared.block.Block.{Block as ABlock};
ghost use Rattle.link_rules.specs.PeerLists.{Adds, AreAddresses, IsBscText, IsReadable, Names, NamesFor, is_comment};
ghost use Rattle.std.specs.Char.{is_ascii_digit};
ghost use Rattle.std.specs.List.{list_all};
ghost use Rattle.std.specs.Net.Grammar.{IsNumber};
ghost use Rattle.link_rules.specs.Words.{words_of};

use crate::block::{Block, bits_of};
use crate::peer::Peer;
use crate::words::{cut_slash, cut_word};
use cell_register::BscId;
use std::alloc::AllocError;
use std::net::IpAddr;
use std::str;

/// Whether there are decimal digits alone.
fn has_digits_alone(word: &[u8]) -> bool
    ensures { result ≡ list_all is_ascii_digit word.now }
{
    word.iter().all(|octet| octet.is_ascii_digit())
}

/// The number of 16 bits that the word writes in decimal digits.
fn read_number(word: &[u8]) -> Option<u16>
    ensures { MatchOption result ((n : ℕ) → IsNumber 10 word.now n → 2 ^ 16 ≤ n) (λ n. IsNumber 10 word.now n) }
{
    if !has_digits_alone(word) {
        return None;
    }
    let Ok(text) = str::from_utf8(word) else {
        return None;
    };
    match text.parse::<u16>() {
        Ok(number) => Some(number),
        Err(_) => None,
    }
}

/// The BSC whose number the word writes.
fn read_bsc(word: &[u8]) -> Option<BscId>
    ensures { MatchOption result ((bsc : ℕ) → ¬ IsBscText word.now bsc) (λ bsc. IsBscText word.now bsc) }
{
    match read_number(word) {
        Some(number) => BscId::new(number),
        None => None,
    }
}

/// Whether the line is a comment, by its first word.
fn is_comment(word: &[u8]) -> bool
    ensures { result ≡ is_comment word.now }
{
    match word {
        [first, ..] => *first == b'#',
        [] => false,
    }
}

/// The block of the address that the word writes, alone.
fn read_one(word: &[u8]) -> Option<Block>
    ensures { MatchOption result ((block : ABlock) → ¬ IsBlockOf (word.now ∷ []) block) (λ block. IsBlockOf (word.now ∷ []) block) }
{
    match IpAddr::parse_ascii(word) {
        Ok(address) => Some(Block {
            address,
            bits: bits_of(address),
        }),
        Err(_) => None,
    }
}

/// The block that the two words write: an address, and how many of its bits count.
fn read_two(one: &[u8], two: &[u8]) -> Option<Block>
    ensures { MatchOption result ((block : ABlock) → ¬ IsBlockOf (one.now ∷ two.now ∷ []) block) (λ block. IsBlockOf (one.now ∷ two.now ∷ []) block) }
{
    let (Ok(address), Some(bits)) = (IpAddr::parse_ascii(one), read_number(two)) else {
        return None;
    };
    if bits > u16::from(bits_of(address)) {
        return None;
    }
    Some(Block {
        address,
        bits: bits as u8,
    })
}

/// The block of addresses that the word writes.
fn read_block(word: &[u8]) -> Option<Block>
    ensures { MatchOption result ((block : ABlock) → ¬ IsBlockText word.now block) (λ block. IsBlockText word.now block) }
{
    let Some((one, behind)) = cut_slash(word) else {
        return read_one(word);
    };
    match cut_slash(behind) {
        None => read_two(one, behind),
        Some(_) => None,
    }
}

/// Adds the addresses of a line for the BSC. `false` where a word isn't an address, or there is none.
fn read_addresses(all: &mut Vec<Peer>, bsc: BscId, text: &[u8]) -> Result<bool, AllocError>
    ensures { IfOk result (λ good. MatchBool good (AreAddresses (words_of text.now) × Adds (NamesFor bsc (words_of text.now)) all.old.items all.new.items) (¬ AreAddresses (words_of text.now))) }
{
    let mut rest = text;
    let mut is_named = false;
    while let Some((word, behind)) = cut_word(rest) {
        let Some(block) = read_block(word) else {
            return Ok(false);
        };
        all.push(Peer { bsc, block })?;
        is_named = true;
        rest = behind;
    }
    Ok(is_named)
}

/// Adds what the line names. `false` where it can't be read.
pub(crate) fn read_line(all: &mut Vec<Peer>, line: &[u8]) -> Result<bool, AllocError>
    ensures { IfOk result (λ good. MatchBool good (IsReadable (words_of line.now) × Adds (Names (words_of line.now)) all.old.items all.new.items) (¬ IsReadable (words_of line.now))) }
{
    let Some((word, behind)) = cut_word(line) else {
        return Ok(true);
    };
    if is_comment(word) {
        return Ok(true);
    }
    match read_bsc(word) {
        Some(bsc) => read_addresses(all, bsc, behind),
        None => Ok(false),
    }
}
