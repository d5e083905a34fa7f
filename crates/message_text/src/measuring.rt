//! What a text takes.

ghost use Rattle.std.specs.Prelude.{◌≡◌, true, MatchOption, IfOk, IfErr, OnOk};
ghost use Rattle.std.specs.List.{list_all};
ghost use Rattle.message_text.specs.Alphabet as alphabet;
ghost use Rattle.message_text.specs.Measures.{IsCutInto, IsFirstUncoded, IsMeasure};
ghost use Rattle.message_text.specs.Texts.{IsPlain, IsTextFault, Needs};

use crate::alphabet::has_code;
use crate::coding::Coding;
use crate::cutting::fitting;
use crate::fault::TextFault;
use crate::letters::letters_of;
use crate::measure::Measure;
use std::alloc::Global;

/// The first letter that has no code, behind its place.
fn first_uncoded(letters: &[char]) -> Option<(usize, char)>
    ensures { MatchOption result (list_all alphabet.has_code letters.now ≡ true) (λ found. IsFirstUncoded letters.now found.0 found.1) }
{
    for (place, letter) in letters.iter().enumerate() {
        if !has_code(*letter) {
            return Some((place, *letter));
        }
    }
    None
}

/// How many pages letters need.
fn pages_needed(coding: Coding, letters: &[char]) -> usize
    ensures cut { IsCutInto coding letters.now result }
    ensures fewest { Needs coding letters.now result }
{
    let mut count = 0;
    let mut written = 0;
    while written < letters.len() {
        written += fitting(coding, &letters[written..]);
        count += 1;
    }
    count
}

/// What a text in UTF-8 takes, of whatever length it is. The fault is that of a text that no pages can have.
pub fn measure_of(alloc: Global, text: &[u8]) -> Result<Measure, TextFault>
    ensures measure { IfOk result (IsMeasure text.now) }
    ensures plain { OnOk result (IsPlain text.now) }
    ensures fault { IfErr result (IsTextFault text.now) }
{
    let letters = letters_of(alloc, text)?;
    let coding = Coding::for_letters(letters.as_slice());
    Ok(Measure {
        letters: letters.len(),
        coding,
        uncoded: first_uncoded(letters.as_slice()),
        pages: pages_needed(coding, letters.as_slice()),
    })
}
