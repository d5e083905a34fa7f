//! The pages of a text.

ghost use Rattle.std.specs.Prelude.{◌≡◌, ◌≤◌, length, Some, IfOk, IfErr, OnOk};
ghost use Rattle.std.specs.List.{AllByRecursion};
ghost use Rattle.std.specs.Str.{chars};
ghost use Rattle.message_text.specs.Reading.{read_text};
ghost use Rattle.message_text.specs.Texts.{HasRoom, IsPlain, IsTextFault, Needs, coding_for, dcs_of};

use crate::coding::Coding;
use crate::cutting::pages;
use crate::fault::TextFault;
use crate::letters::letters_of;
use crate::text_pages::TextPages;
use std::alloc::Global;

/// The pages of a text in UTF-8, which are read as that text. No other cut at whole letters has fewer.
pub fn pages_of(alloc: Global, text: &[u8]) -> Result<TextPages, TextFault>
    ensures read { IfOk result (λ made. read_text made.dcs made.pages.items ≡ Some (chars text.now)) }
    ensures coding { IfOk result (λ made. made.dcs ≡ dcs_of (coding_for (chars text.now))) }
    ensures some { IfOk result (λ made. 1 ≤ length made.pages.items) }
    ensures count { IfOk result (λ made. length made.pages.items ≤ 15) }
    ensures sizes { IfOk result (λ made. AllByRecursion HasRoom made.pages.items) }
    ensures fewest { IfOk result (λ made. Needs (coding_for (chars text.now)) (chars text.now) (length made.pages.items)) }
    ensures plain { OnOk result (IsPlain text.now) }
    ensures fault { IfErr result (IsTextFault text.now) }
{
    let letters = letters_of(alloc, text)?;
    let coding = Coding::for_letters(letters.as_slice());
    match pages(alloc, coding, letters.as_slice())? {
        Some(pages) => Ok(TextPages {
            dcs: coding.dcs(),
            pages,
        }),
        None => Err(TextFault::TooLong),
    }
}
