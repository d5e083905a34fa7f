//! The list of the cells in which a warning failed.

ghost use Rattle.std.specs.Prelude.{◌≡◌, ◌++◌, ℕ, None, Some, true, IfOk, OnOk, map, if◌then◌else◌};
ghost use Rattle.std.specs.List.{flat_map, list_any};
ghost use Rattle.std.specs.Option.{option_to_list};
ghost use Rattle.areas.specs.Areas.{selects, selectors_of};
ghost use Rattle.cell_register.specs.Register.{State};
ghost use Rattle.kept_tables.specs.Tables.{Tables};
ghost use Rattle.mirror.specs.Line.{state_of};
ghost use Rattle.mirror.specs.Table.{down_at, line_at};
ghost use Rattle.warning_book.specs.Book.{current_of, warning_of};
ghost use Rattle.centre_answers.specs.Asked.{Tells};
ghost use Rattle.centre_answers.specs.Failing.{AreDownsOf, IsWanted};
ghost use Rattle.centre_events.specs.Kept.{AreAreasOf, IsRegisterOf};
ghost use Rattle.centre_events.specs.Past.{Past};
ghost use Rattle.centre_events.specs.Places.{place};
ghost use Rattle.centre_events.specs.Warnings.{book_of};
ghost use Rattle.centre_past.specs.Idle.{AsBefore};
ghost use Rattle.centre_past.specs.Lists.{failed_at, failed_in, failed_of, failed_rows, failure_if};

use crate::lists::wanted_version::WantedVersion;
use areas::{Areas, Coverage};
use cell_register::{BscId, Register};
use centre_past::keys::key_of;
use centre_past::lists::{FailedRow, FailedRows, Failure};
use common::{Cell, Name};
use kept_tables::KeptTables;
use mirror::{LineKey, Presence};
use serials::Serial;
use std::alloc::{AllocError, Global};
use warning_book::{Book, Kind, Warning, WarningId};

/// The serial number of the version that is wanted wherever an area of the warning covers a cell, if one is.
fn wanted_serial(w: &Warning) -> Option<Serial>
    ensures { result ≡ (if w.now.active then current_of w.now else None) }
{
    if !w.is_active() {
        return None;
    }
    w.serial()
}

/// What each of the areas of these names covers.
fn coverages_of<'a>(
    alloc: Global,
    areas: &'a Areas,
    names: &[Name],
) -> Result<Vec<Coverage<'a>>, AllocError>
    ensures { IfOk result (λ v. v.items ≡ map (selectors_of areas.now) names.now) }
{
    let mut coverages = Vec::with_capacity(alloc, names.len())?;
    for name in names {
        coverages.push(areas.coverage(name))?;
    }
    Ok(coverages)
}

/// Whether one of these covers the cell.
fn is_covered(coverages: &[Coverage<'_>], c: Cell) -> bool
    ensures { result ≡ list_any (λ s. selects s c) coverages.now }
{
    coverages.iter().any(|coverage| coverage.covers(c))
}

/// Why the version of that serial number failed on the line, where it is wanted. The line is read unless its cell is down.
fn failure(tables: &mut KeptTables, key: LineKey, kind: Kind, serial: Serial) -> Option<Failure>
    ensures why { result ≡ failure_if (down_at tables.old.lines kind key.bsc key.cell) (state_of (line_at tables.old.lines key.bsc key.cell key.warning) serial).presence (state_of (line_at tables.old.lines key.bsc key.cell key.warning) serial).hold }
    ensures kept { (t : Tables) → AsBefore t tables.old → AsBefore t tables.new }
{
    let LineKey {
        bsc,
        cell,
        warning: _,
    } = key;
    if tables.is_down(kind, bsc, cell) {
        return Some(Failure::Down);
    }
    let state = tables.read_line(key).state(serial);
    if state.presence == Presence::OnAir {
        return None;
    }
    match state.hold {
        Some(cause) => Some(Failure::Refused(cause)),
        None => None,
    }
}

/// The row of the cell at its BSC, if the warning failed there.
fn failed_at(
    tables: &mut KeptTables,
    wanted: &WantedVersion<'_, '_>,
    b: BscId,
    c: Cell,
) -> Option<FailedRow>
    ensures row { (past : Past) (t : Tables) → Tells past t → AreDownsOf past t → AsBefore t tables.old → IsWanted past wanted.now.warning.now wanted.now.serial wanted.now.coverages.now → place past c ≡ Some b → result ≡ failed_at past wanted.now.warning.now c b }
    ensures kept { (t : Tables) → AsBefore t tables.old → AsBefore t tables.new }
{
    let w = wanted.warning;
    let why = failure(tables, key_of(b, c, w.number()), w.kind(), wanted.serial)?;
    if !is_covered(wanted.coverages, c) {
        return None;
    }
    Some(FailedRow {
        cell: c,
        bsc: b,
        why,
    })
}

/// Adds the row, if there is one.
fn push_row(out: &mut Vec<FailedRow>, row: Option<FailedRow>) -> Result<(), AllocError>
    ensures { OnOk result (out.new.items ≡ out.old.items ++ option_to_list row) }
{
    if let Some(row) = row {
        out.push(row)?;
    }
    Ok(())
}

/// Adds the row of a cell at the BSC at which it is registered, if the warning failed there.
fn add_failed(
    out: &mut Vec<FailedRow>,
    tables: &mut KeptTables,
    wanted: &WantedVersion<'_, '_>,
    at: Option<BscId>,
    c: Cell,
) -> Result<(), AllocError>
    ensures row { (past : Past) (t : Tables) → Tells past t → AreDownsOf past t → AsBefore t tables.old → IsWanted past wanted.now.warning.now wanted.now.serial wanted.now.coverages.now → place past c ≡ at → OnOk result (out.new.items ≡ out.old.items ++ failed_in past wanted.now.warning.now c) }
    ensures kept { (t : Tables) → AsBefore t tables.old → AsBefore t tables.new }
{
    let Some(b) = at else {
        return Ok(());
    };
    let row = failed_at(tables, wanted, b, c);
    push_row(out, row)
}

/// The rows of those of the cells in which the warning failed.
fn failed_among(
    alloc: Global,
    register: &Register,
    tables: &mut KeptTables,
    wanted: &WantedVersion<'_, '_>,
    cells: &[Cell],
) -> Result<Vec<FailedRow>, AllocError>
    ensures rows { (past : Past) (t : Tables) → Tells past t → AreDownsOf past t → IsRegisterOf past register.now → AsBefore t tables.old → IsWanted past wanted.now.warning.now wanted.now.serial wanted.now.coverages.now → IfOk result (λ v. v.items ≡ flat_map (failed_in past wanted.now.warning.now) cells.now) }
    ensures kept { (t : Tables) → AsBefore t tables.old → AsBefore t tables.new }
{
    let mut out = Vec::new(alloc);
    let mut near = 0;
    for cell in cells {
        let at = register.bsc_near(*cell, &mut near);
        add_failed(&mut out, tables, wanted, at, *cell)?;
    }
    Ok(out)
}

/// The cells in which a warning in the book failed. Where it was stopped it failed nowhere, and no line is read.
fn failed_rows(
    alloc: Global,
    register: &Register,
    areas: &Areas,
    tables: &mut KeptTables,
    w: &Warning,
) -> Result<FailedRows, AllocError>
    ensures rows { (past : Past) → Tells past tables.old → AreDownsOf past tables.old → IsRegisterOf past register.now → AreAreasOf past areas.now → warning_of (book_of past) w.now.number ≡ Some w.now → IfOk result (λ rows. rows ≡ failed_rows past w.now) }
    ensures kept { (t : Tables) → AsBefore t tables.old → AsBefore t tables.new }
{
    let Some(serial) = wanted_serial(w) else {
        return Ok(FailedRows::from_vec(Vec::new(alloc)));
    };
    register.tell_soundness();
    let coverages = coverages_of(alloc, areas, w.areas())?;
    let cells = register.all_cells()?;
    let wanted = WantedVersion {
        warning: w,
        serial,
        coverages: coverages.as_slice(),
    };
    let rows = failed_among(alloc, register, tables, &wanted, cells.as_slice())?;
    Ok(FailedRows::from_vec(rows))
}

/// The cells in which the warning failed, if the book has it, in ascending order: of each its BSC, and why. Each line of the
/// warning that is read is counted; nothing else changes, also at an `Err`.
pub fn failed(
    alloc: Global,
    register: &Register,
    areas: &Areas,
    book: &Book,
    tables: &mut KeptTables,
    number: WarningId,
) -> Result<Option<FailedRows>, AllocError>
    ensures rows { (past : Past) → Tells past tables.old → AreDownsOf past tables.old → IsRegisterOf past register.now → AreAreasOf past areas.now → book.now ≡ book_of past → IfOk result (λ rows. rows ≡ failed_of past number) }
    ensures kept { (t : Tables) → AsBefore t tables.old → AsBefore t tables.new }
{
    match book.find(number) {
        Some(warning) => Ok(Some(failed_rows(alloc, register, areas, tables, warning)?)),
        None => Ok(None),
    }
}
