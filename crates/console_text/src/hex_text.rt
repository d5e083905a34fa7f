//! Octets as pairs of hexadecimal digits.

ghost use Rattle.std.specs.Prelude.{◌≡◌, ◌++◌, IfOk, Some, bytes_eq};
ghost use Rattle.console_text.specs.HexText.{octets_of, pages_of, all_octets_of, fifty, security_of};

use crate::parts::split_parts;
use crate::word::Word;
use crate::words::is_word;
use common::Octets;
use hex::FromHexError;
use std::alloc::{AllocError, Global};
use warning_book::ContentPages;

/// The octets that the text spells; `None` where it isn't pairs of hexadecimal digits.
pub fn read_octets(alloc: Global, text: &[u8]) -> Result<Option<Octets>, AllocError>
    ensures { IfOk result (λ octets. octets ≡ octets_of text.now) }
{
    match hex::decode(alloc, text) {
        Ok(octets) => Ok(Some(Octets::from_vec(octets))),
        Err(FromHexError::OutOfMemory) => Err(AllocError),
        Err(_) => Ok(None),
    }
}

/// Pages as an operator writes them, joined by `/`, or `-` for none.
pub fn read_pages(alloc: Global, word: &[u8]) -> Result<Option<ContentPages>, AllocError>
    ensures { IfOk result (λ pages. pages ≡ pages_of word.now) }
{
    if is_word(word, b"-") {
        return Ok(Some(ContentPages::from_vec(Vec::new(alloc))));
    }
    let texts = split_parts(alloc, word, b'/')?;
    read_each(alloc, &texts)
}

fn read_each(alloc: Global, texts: &[Word<'_>]) -> Result<Option<ContentPages>, AllocError>
    ensures { IfOk result (λ pages. pages ≡ all_octets_of texts.now) }
{
    let mut pages = Vec::new(alloc);
    for text in texts {
        match read_octets(alloc, text.as_slice())? {
            Some(page) => pages.push(page)?,
            None => return Ok(None),
        }
    }
    Ok(Some(ContentPages::from_vec(pages)))
}

/// The octets, if there are fifty.
fn fifty(octets: &[u8]) -> Option<[u8; 50]>
    ensures { result ≡ fifty octets.now }
{
    if octets.len() != 50 {
        return None;
    }
    let mut security = [0; 50];
    security.copy_from_slice(octets);
    Some(security)
}

/// Security information as an operator writes it: fifty octets, or `-` for zeros.
pub fn read_security(alloc: Global, word: &[u8]) -> Result<Option<[u8; 50]>, AllocError>
    ensures { IfOk result (λ security. security ≡ security_of word.now) }
{
    if is_word(word, b"-") {
        return Ok(Some([0; 50]));
    }
    match read_octets(alloc, word)? {
        Some(octets) => Ok(fifty(octets.as_slice())),
        None => Ok(None),
    }
}
