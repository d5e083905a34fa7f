//! Pages in UCS2 (TS 23.038, 6.2.3).

ghost use Rattle.std.specs.Prelude.{◌≡◌, ◌*◌, ◌++◌, length, true, false, Some, None, IfOk, MatchOption};
ghost use Rattle.std.specs.List.{AllByRecursion};
ghost use Rattle.std.specs.Str.{encode_utf8_all};
ghost use Rattle.std.specs.String.{string_bytes};
ghost use Rattle.message_text.specs.Reading.{ucs2_letters};
ghost use Rattle.message_text.specs.Texts.{IsInUcs2};

use common::Octets;
use std::alloc::{AllocError, Global};

/// The page of letters.
pub(crate) fn page_of(alloc: Global, letters: &[char]) -> Result<Octets, AllocError>
    requires { AllByRecursion IsInUcs2 letters.now }
    ensures read { IfOk result (λ octets. ucs2_letters octets ≡ Some letters.now) }
    ensures len { IfOk result (λ octets. length octets ≡ 2 * length letters.now) }
{
    let mut octets = Vec::new(alloc);
    for letter in letters {
        let code = *letter as u32;
        octets.push((code / 256) as u8)?;
        octets.push((code % 256) as u8)?;
    }
    Ok(Octets::from_vec(octets))
}

/// Appends the letters of a page, if its octets spell letters.
pub(crate) fn append_page(text: &mut String, octets: &[u8]) -> Result<bool, AllocError>
    ensures { IfOk result (λ read. MatchOption (ucs2_letters octets.now) (read ≡ false) (λ letters. (read ≡ true) × (string_bytes text.new ≡ string_bytes text.old ++ encode_utf8_all letters))) }
{
    let mut rest = octets;
    while let [high, low, others @ ..] = rest {
        let Some(letter) = char::from_u32(u32::from(*high) * 256 + u32::from(*low)) else {
            return Ok(false);
        };
        text.push(letter)?;
        rest = others;
    }
    Ok(rest.is_empty())
}
