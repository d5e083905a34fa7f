//! Text in a page.

ghost use Rattle.std.specs.Prelude.{◌≡◌, ◌++◌, ◌∷◌, IfOk, OnOk};
ghost use Rattle.status_pages.specs.Escapes.{escaped, escaped_behind, escaped_octet, is_control, shown_octet};

use crate::turns::{push_turn_number, turns};
use std::alloc::AllocError;

/// Whether it is a control letter, but for the end of a line.
fn is_control(octet: u8) -> bool
    ensures { result ≡ is_control octet }
{
    (octet < 32 && octet != 10) || octet == 127
}

/// The octet, or a blank for such a control letter.
fn shown_octet(octet: u8) -> u8
    ensures { result ≡ shown_octet octet }
{
    if is_control(octet) { 32 } else { octet }
}

/// Appends the octet as it stands in a page.
fn push_octet(out: &mut Vec<u8>, octet: u8) -> Result<(), AllocError>
    ensures { OnOk result (out.new.items ≡ out.old.items ++ escaped_octet octet) }
{
    match octet {
        b'&' => out.extend_from_slice(b"&amp;"),
        b'<' => out.extend_from_slice(b"&lt;"),
        b'>' => out.extend_from_slice(b"&gt;"),
        b'"' => out.extend_from_slice(b"&quot;"),
        b'\'' => out.extend_from_slice(b"&#39;"),
        octet => out.extend_from_slice(&[shown_octet(octet)]),
    }
}

/// Appends the octet as it stands in a page, or the number of the letter that it begins. Returns how many octets are passed over behind it.
fn push_begun(out: &mut Vec<u8>, octet: u8, behind: &[u8]) -> Result<usize, AllocError>
    ensures { IfOk result (λ passed. out.new.items ++ escaped_behind passed behind.now ≡ out.old.items ++ escaped (octet ∷ behind.now)) }
{
    if turns(octet, behind) {
        push_turn_number(out, behind)?;
        Ok(2)
    } else {
        push_octet(out, octet)?;
        Ok(0)
    }
}

/// Appends the text as it stands in a page.
#[tactic(auto, using(crate::proofs::EscapeLemmas::passed_on, crate::proofs::EscapeLemmas::behind_none))]
pub(crate) fn push_escaped(out: &mut Vec<u8>, text: &[u8]) -> Result<(), AllocError>
    ensures { OnOk result (out.new.items ≡ out.old.items ++ escaped text.now) }
{
    let mut rest = text;
    let mut passed = 0usize;
    while let [octet, behind @ ..] = rest {
        if passed == 0 {
            passed = push_begun(out, *octet, behind)?;
        } else {
            passed -= 1;
        }
        rest = behind;
    }
    Ok(())
}
