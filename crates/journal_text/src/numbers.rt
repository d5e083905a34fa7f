//! Lines of numbers alone.

ghost use Rattle.std.specs.Prelude.{◌≡◌, ◌∷◌, [], OnOk, decimal};
ghost use Rattle.journal_text.specs.Sayable.{IsBsc, IsCell, IsWarning};
ghost use Rattle.journal_text.specs.Texts.{cell_words, followed};

use crate::words::push_number;
use cell_register::BscId;
use common::Cell;
use std::alloc::{AllocError, Global};
use warning_book::WarningId;

/// Puts B behind the line.
pub fn push_bsc(alloc: Global, line: &mut Vec<u8>, bsc: BscId) -> Result<(), AllocError>
    ensures text { OnOk result (line.new.items ≡ followed 32 line.old.items (decimal bsc ∷ [])) }
    ensures range { IsBsc bsc }
{
    push_number(alloc, line, u64::from(bsc.number()))
}

/// Puts W behind the line.
pub fn push_warning(alloc: Global, line: &mut Vec<u8>, warning: WarningId) -> Result<(), AllocError>
    ensures text { OnOk result (line.new.items ≡ followed 32 line.old.items (decimal warning ∷ [])) }
    ensures range { IsWarning warning }
{
    push_number(alloc, line, u64::from(warning.number()))
}

/// Puts L and C behind the line.
pub fn push_cell(alloc: Global, line: &mut Vec<u8>, cell: Cell) -> Result<(), AllocError>
    ensures text { OnOk result (line.new.items ≡ followed 32 line.old.items (cell_words cell)) }
    ensures range { IsCell cell }
{
    let lac = cell.lac;
    let ci = cell.ci;
    push_number(alloc, line, u64::from(lac))?;
    push_number(alloc, line, u64::from(ci))
}

/// Writes a line of words and B.
pub fn write_bsc(
    alloc: Global,
    line: &mut Vec<u8>,
    words: &[u8],
    bsc: BscId,
) -> Result<(), AllocError>
    requires { line.old.items ≡ [] }
    ensures text { OnOk result (line.new.items ≡ followed 32 words.now (decimal bsc ∷ [])) }
    ensures range { IsBsc bsc }
{
    line.extend_from_slice(words)?;
    push_bsc(alloc, line, bsc)
}

/// Writes a line of words and W.
pub fn write_warning(
    alloc: Global,
    line: &mut Vec<u8>,
    words: &[u8],
    warning: WarningId,
) -> Result<(), AllocError>
    requires { line.old.items ≡ [] }
    ensures text { OnOk result (line.new.items ≡ followed 32 words.now (decimal warning ∷ [])) }
    ensures range { IsWarning warning }
{
    line.extend_from_slice(words)?;
    push_warning(alloc, line, warning)
}

/// Writes a line of words, L and C.
pub fn write_cell(
    alloc: Global,
    line: &mut Vec<u8>,
    words: &[u8],
    cell: Cell,
) -> Result<(), AllocError>
    requires { line.old.items ≡ [] }
    ensures text { OnOk result (line.new.items ≡ followed 32 words.now (cell_words cell)) }
    ensures range { IsCell cell }
{
    line.extend_from_slice(words)?;
    push_cell(alloc, line, cell)
}

/// Writes a line of words, L, C and B.
pub fn write_cell_at(
    alloc: Global,
    line: &mut Vec<u8>,
    words: &[u8],
    cell: Cell,
    bsc: BscId,
) -> Result<(), AllocError>
    requires { line.old.items ≡ [] }
    ensures text { OnOk result (line.new.items ≡ followed 32 words.now (decimal cell.lac ∷ decimal cell.ci ∷ decimal bsc ∷ [])) }
    ensures cell { IsCell cell }
    ensures bsc { IsBsc bsc }
{
    write_cell(alloc, line, words, cell)?;
    push_bsc(alloc, line, bsc)
}
