//! Lines with names of areas.

ghost use Rattle.std.specs.Prelude.{◌≡◌, ◌∷◌, [], true, IfOk, OnOk, decimal};
ghost use Rattle.areas.specs.Name.{is_name};
ghost use Rattle.journal_text.specs.Sayable.{IsSelector, IsWarning, are_named};
ghost use Rattle.journal_text.specs.Texts.{areas_word, followed, selector_words};

use crate::checks::is_name;
use crate::numbers::{push_cell, write_warning};
use crate::words::{push_number, push_part, push_word};
use areas::Selector;
use common::Name;
use std::alloc::{AllocError, Global};
use warning_book::WarningId;

/// Writes a line of words and N. The answer is whether N is a name.
pub fn write_area(line: &mut Vec<u8>, words: &[u8], area: &Name) -> Result<bool, AllocError>
    requires { line.old.items ≡ [] }
    ensures named { IfOk result (λ named. named ≡ is_name area.now) }
    ensures text { IfOk result (λ named. named ≡ true → line.new.items ≡ followed 32 words.now (area.now ∷ [])) }
{
    if !is_name(area) {
        return Ok(false);
    }
    line.extend_from_slice(words)?;
    push_word(line, area.as_slice())?;
    Ok(true)
}

/// Puts L, or L and C, behind the line.
fn push_selector(alloc: Global, line: &mut Vec<u8>, selector: Selector) -> Result<(), AllocError>
    ensures text { OnOk result (line.new.items ≡ followed 32 line.old.items (selector_words selector)) }
    ensures range { IsSelector selector }
{
    match selector {
        Selector::Lac(lac) => push_number(alloc, line, u64::from(lac)),
        Selector::Cell(cell) => push_cell(alloc, line, cell),
    }
}

/// Writes a line of words, N, and L or L and C. The answer is whether N is a name.
pub fn write_selector(
    alloc: Global,
    line: &mut Vec<u8>,
    words: &[u8],
    area: &Name,
    selector: Selector,
) -> Result<bool, AllocError>
    requires { line.old.items ≡ [] }
    ensures named { IfOk result (λ named. named ≡ is_name area.now) }
    ensures text { IfOk result (λ named. named ≡ true → line.new.items ≡ followed 32 words.now (area.now ∷ selector_words selector)) }
    ensures range { IfOk result (λ named. named ≡ true → IsSelector selector) }
{
    if !write_area(line, words, area)? {
        return Ok(false);
    }
    push_selector(alloc, line, selector)?;
    Ok(true)
}

/// Writes a line of words, W and N. The answer is whether N is a name.
pub fn write_warning_area(
    alloc: Global,
    line: &mut Vec<u8>,
    words: &[u8],
    warning: WarningId,
    area: &Name,
) -> Result<bool, AllocError>
    requires { line.old.items ≡ [] }
    ensures named { IfOk result (λ named. named ≡ is_name area.now) }
    ensures text { IfOk result (λ named. named ≡ true → line.new.items ≡ followed 32 words.now (decimal warning ∷ area.now ∷ [])) }
    ensures range { IfOk result (λ named. named ≡ true → IsWarning warning) }
{
    if !is_name(area) {
        return Ok(false);
    }
    write_warning(alloc, line, words, warning)?;
    push_word(line, area.as_slice())?;
    Ok(true)
}

/// Puts names behind a line that ends with one, each after a comma.
fn push_more_names(line: &mut Vec<u8>, names: &[Name]) -> Result<(), AllocError>
    ensures { OnOk result (line.new.items ≡ followed 44 line.old.items names.now) }
{
    for name in names {
        push_part(line, b',', name.as_slice())?;
    }
    Ok(())
}

/// Puts AREAS behind the line.
pub fn push_areas(line: &mut Vec<u8>, names: &[Name]) -> Result<(), AllocError>
    requires { are_named names.now ≡ true }
    ensures { OnOk result (line.new.items ≡ followed 32 line.old.items (areas_word names.now ∷ [])) }
{
    match names {
        [first, more @ ..] => {
            push_word(line, first.as_slice())?;
            push_more_names(line, more)?;
            Ok(())
        }
        [] => unreachable!(),
    }
}
