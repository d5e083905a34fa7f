//! How the letters of a message are coded.

ghost use Rattle.std.specs.Prelude.{◌≡◌, ◌<◌, ◌≤◌, ◌++◌, length, true, false, Some, IfOk, MatchOption};
ghost use Rattle.std.specs.List.{AllByRecursion, list_all, sum_by};
ghost use Rattle.message_text.specs.Alphabet as alphabet;
ghost use Rattle.std.specs.Str.{encode_utf8_all};
ghost use Rattle.std.specs.String.{string_bytes};
ghost use Rattle.message_text.specs.Reading.{coding_of, read_page};
ghost use Rattle.message_text.specs.Texts.{CanCode, coding_for, dcs_of};
ghost use Rattle.message_text.specs.Writing as written;

use crate::alphabet::has_code;
use crate::{seven_bit, ucs2};
use common::Octets;
use std::alloc::{AllocError, Global};

/// How the letters of a message are coded (TS 23.038, 6.1.1 and 6.2.3).
#[derive(Clone, Copy, Debug, PartialEq, Eq)]
pub enum Coding {
    /// In the GSM 7-bit default alphabet.
    SevenBit,
    /// In two octets each.
    Ucs2,
}

/// Whether each letter has a code.
fn have_codes(letters: &[char]) -> bool
    ensures { result ≡ list_all alphabet.has_code letters.now }
{
    for letter in letters {
        if !has_code(*letter) {
            return false;
        }
    }
    true
}

impl Coding {
    /// The coding that a data coding scheme names, where the pages have letters alone (TS 23.038, 5).
    pub fn of_dcs(dcs: u8) -> Option<Coding>
        ensures { result ≡ coding_of dcs }
    {
        match (dcs / 16, dcs % 16) {
            (0 | 2 | 3, _) | (4 | 5 | 15, 0..=3) => Some(Coding::SevenBit),
            (4 | 5, 8..=11) => Some(Coding::Ucs2),
            _ => None,
        }
    }

    /// The data coding scheme that is written for it.
    pub fn dcs(self) -> u8
        ensures { result ≡ dcs_of self }
    {
        match self {
            Coding::SevenBit => 0x0F,
            Coding::Ucs2 => 0x48,
        }
    }

    /// The coding of a text: septets where each letter has a code.
    pub(crate) fn for_letters(letters: &[char]) -> Coding
        ensures { result ≡ coding_for letters.now }
    {
        if have_codes(letters) {
            Coding::SevenBit
        } else {
            Coding::Ucs2
        }
    }

    /// How many septets, or letters in UCS2, a page has room for.
    pub(crate) fn room(self) -> usize
        ensures { result ≡ written.room self }
    {
        match self {
            Coding::SevenBit => 93,
            Coding::Ucs2 => 41,
        }
    }

    /// How much of that room a letter takes.
    pub(crate) fn width(self, letter: char) -> usize
        ensures value { result ≡ written.width self letter }
        ensures bound { result ≤ 2 }
    {
        match self {
            Coding::SevenBit => seven_bit::width(letter),
            Coding::Ucs2 => 1,
        }
    }

    /// The page of letters that have room in one.
    pub(crate) fn page_of(self, alloc: Global, letters: &[char]) -> Result<Octets, AllocError>
        requires coded { AllByRecursion (CanCode self) letters.now }
        requires some { 0 < length letters.now }
        requires room { sum_by (written.width self) letters.now ≤ written.room self }
        ensures read { IfOk result (λ octets. read_page self octets ≡ Some letters.now) }
        ensures some { IfOk result (λ octets. 1 ≤ length octets) }
        ensures room { IfOk result (λ octets. length octets ≤ 82) }
    {
        match self {
            Coding::SevenBit => seven_bit::page_of(alloc, letters),
            Coding::Ucs2 => ucs2::page_of(alloc, letters),
        }
    }

    /// Appends the letters of a page, if its octets spell letters.
    pub(crate) fn append_page(
        self,
        alloc: Global,
        text: &mut String,
        octets: &[u8],
    ) -> Result<bool, AllocError>
        ensures { IfOk result (λ read. MatchOption (read_page self octets.now) (read ≡ false) (λ letters. (read ≡ true) × (string_bytes text.new ≡ string_bytes text.old ++ encode_utf8_all letters))) }
    {
        match self {
            Coding::SevenBit => {
                seven_bit::append_page(alloc, text, octets)?;
                Ok(true)
            }
            Coding::Ucs2 => ucs2::append_page(text, octets),
        }
    }
}
