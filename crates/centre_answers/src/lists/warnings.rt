//! The list of the warnings in the book, and one warning with its content.

ghost use Rattle.std.specs.Prelude.{◌≡◌, Some, IfOk};
ghost use Rattle.warning_book.specs.Book.{warning_of};
ghost use Rattle.centre_answers.specs.Asked.{Tells};
ghost use Rattle.centre_events.specs.Past.{Past};
ghost use Rattle.centre_events.specs.Warnings.{book_of, warnings_of};
ghost use Rattle.centre_past.specs.Lists.{current_content, sheet_of, warning_row, warning_rows, warning_sheet};

use centre_past::lists::{WarningRow, WarningRows, WarningSheet};
use common::{Name, Names};
use kept_tables::KeptTables;
use std::alloc::{AllocError, Global};
use warning_book::{Book, Content, Warning, WarningId};

/// The names, in memory of their own.
fn names_copied(alloc: Global, names: &[Name]) -> Result<Names, AllocError>
    ensures { IfOk result (λ copy. copy ≡ names.now) }
{
    let mut copy = Vec::with_capacity(alloc, names.len())?;
    for name in names {
        copy.push(name.copied(alloc)?)?;
    }
    Ok(Names::from_vec(copy))
}

/// The row of a warning in the book.
fn warning_row(alloc: Global, tables: &KeptTables, w: &Warning) -> Result<WarningRow, AllocError>
    ensures { (past : Past) → Tells past tables.now → warning_of (book_of past) w.now.number ≡ Some w.now → IfOk result (λ row. row ≡ warning_row past w.now) }
{
    let areas = names_copied(alloc, w.areas())?;
    Ok(WarningRow {
        number: w.number(),
        message_id: w.message_id(),
        serial: w.serial(),
        is_active: w.is_active(),
        kind: w.kind(),
        areas,
        numbers: tables.total(w.number()),
    })
}

/// The rows of the warnings, which are those in the book.
fn rows_of(
    alloc: Global,
    tables: &KeptTables,
    warnings: &[Warning],
) -> Result<Vec<WarningRow>, AllocError>
    ensures { (past : Past) → Tells past tables.now → warnings.now ≡ warnings_of past → IfOk result (λ rows. rows.items ≡ warning_rows past) }
{
    let mut rows = Vec::with_capacity(alloc, warnings.len())?;
    for warning in warnings {
        rows.push(warning_row(alloc, tables, warning)?)?;
    }
    Ok(rows)
}

/// The warnings in the book, in ascending order of their numbers: of each its current version, its areas and its numbers.
pub fn warnings(alloc: Global, tables: &KeptTables, book: &Book) -> Result<WarningRows, AllocError>
    ensures { (past : Past) → Tells past tables.now → book.now ≡ book_of past → IfOk result (λ rows. rows ≡ warning_rows past) }
{
    let rows = rows_of(alloc, tables, book.as_slice())?;
    Ok(WarningRows::from_vec(rows))
}

/// The content of the warning's current version, in memory of its own.
fn current_content(alloc: Global, w: &Warning) -> Result<Option<Content>, AllocError>
    ensures { IfOk result (λ content. content ≡ current_content w.now) }
{
    match w.versions().last() {
        Some(version) => Ok(Some(version.content.copied(alloc)?)),
        None => Ok(None),
    }
}

/// A warning in the book with its content.
fn warning_sheet(
    alloc: Global,
    tables: &KeptTables,
    w: &Warning,
) -> Result<WarningSheet, AllocError>
    ensures { (past : Past) → Tells past tables.now → warning_of (book_of past) w.now.number ≡ Some w.now → IfOk result (λ sheet. sheet ≡ warning_sheet past w.now) }
{
    let content = current_content(alloc, w)?;
    let row = warning_row(alloc, tables, w)?;
    Ok(WarningSheet { row, content })
}

/// The warning with its content, if the book has it.
pub fn warning(
    alloc: Global,
    tables: &KeptTables,
    book: &Book,
    number: WarningId,
) -> Result<Option<WarningSheet>, AllocError>
    ensures { (past : Past) → Tells past tables.now → book.now ≡ book_of past → IfOk result (λ sheet. sheet ≡ sheet_of past number) }
{
    match book.find(number) {
        Some(warning) => Ok(Some(warning_sheet(alloc, tables, warning)?)),
        None => Ok(None),
    }
}
