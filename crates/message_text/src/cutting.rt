//! Letters cut into pages.

ghost use Rattle.std.specs.Prelude.{◌≡◌, ◌<◌, ◌≤◌, ◌+◌, ℕ, List, length, take, Some, IfOk};
ghost use Rattle.std.specs.Option.{IfSome, IfNone};
ghost use Rattle.std.specs.List.{AllByRecursion, sum_by};
ghost use Rattle.message_text.specs.Reading.{read_pages};
ghost use Rattle.message_text.specs.Texts.{CanCode, AreCut, HasRoom, Needs};
ghost use Rattle.message_text.specs.Writing as written;

use crate::coding::Coding;
use common::Octets;
use std::alloc::{AllocError, Global};

/// The most pages of a message (TS 23.041, 9.4.1.2.4).
const MOST_PAGES: usize = 15;

/// How many letters at the front have room in one page.
pub(crate) fn fitting(coding: Coding, letters: &[char]) -> usize
    ensures bound { result ≤ length letters.now }
    ensures fits { sum_by (written.width coding) (take result letters.now) ≤ written.room coding }
    ensures most { result < length letters.now → written.room coding < sum_by (written.width coding) (take (result + 1) letters.now) }
{
    let mut taken = 0;
    for (count, letter) in letters.iter().enumerate() {
        taken += coding.width(*letter);
        if taken > coding.room() {
            return count;
        }
    }
    letters.len()
}

/// The pages of letters, each with as many as it has room for; `None` where more than fifteen are needed.
pub(crate) fn pages(
    alloc: Global,
    coding: Coding,
    letters: &[char],
) -> Result<Option<Vec<Octets>>, AllocError>
    requires { AllByRecursion (CanCode coding) letters.now }
    ensures read { IfOk result (λ all. IfSome all (λ pages. read_pages coding pages.items ≡ Some letters.now)) }
    ensures count { IfOk result (λ all. IfSome all (λ pages. length pages.items ≤ 15)) }
    ensures sizes { IfOk result (λ all. IfSome all (λ pages. AllByRecursion HasRoom pages.items)) }
    ensures fewest { IfOk result (λ all. IfSome all (λ pages. Needs coding letters.now (length pages.items))) }
    ensures none { IfOk result (λ all. IfNone all ((pieces : List (List ℕ)) → AreCut coding letters.now pieces → 15 < length pieces)) }
{
    let mut pages = Vec::new(alloc);
    let mut written = 0;
    while written < letters.len() {
        if pages.len() == MOST_PAGES {
            return Ok(None);
        }
        let rest = &letters[written..];
        let count = fitting(coding, rest);
        pages.push(coding.page_of(alloc, &rest[..count])?)?;
        written += count;
    }
    Ok(Some(pages))
}
