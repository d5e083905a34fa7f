//! What is said of cells: of many the first ten are named.

ghost use Rattle.std.specs.Prelude.{◌≡◌, ◌++◌, IfOk, OnOk, drop, length, string_bytes, take};
ghost use Rattle.std.specs.List.{flat_map};
ghost use Rattle.server_errors.specs.CellLines.{cell_text, cells_text, failure_text, joined_cells, joined_refused, kept_text, kind_text, more_text, next_cell, next_refused, refusal_text, refusal_with, refused_cells_text, refused_text, restart_text};

use crate::refused_cell::RefusedCell;
use cell_register::BscId;
use common::Cell;
use std::alloc::{AllocError, Global};

/// The most cells that a line names.
const MOST_NAMED: usize = 10;

fn cell_text(alloc: Global, cell: Cell) -> Result<String, AllocError>
    ensures { IfOk result (λ text. string_bytes text ≡ cell_text cell) }
{
    let lac = cell.lac;
    let ci = cell.ci;
    format!(in alloc; "{lac} {ci}")
}

fn refused_text(alloc: Global, refused: &RefusedCell) -> Result<String, AllocError>
    ensures { IfOk result (λ text. string_bytes text ≡ refused_text refused.now) }
{
    let cell = cell_text(alloc, refused.cell)?;
    let cause = refused.cause;
    let name = refused.name;
    format!(in alloc; "{cell} ({cause} {name})")
}

fn push_next_cell(alloc: Global, text: &mut String, cell: Cell) -> Result<(), AllocError>
    ensures { OnOk result (string_bytes text.new ≡ string_bytes text.old ++ next_cell cell) }
{
    let next = cell_text(alloc, cell)?;
    text.push_str(", ")?;
    text.push_str(next.as_str())
}

fn push_next_refused(
    alloc: Global,
    text: &mut String,
    refused: &RefusedCell,
) -> Result<(), AllocError>
    ensures { OnOk result (string_bytes text.new ≡ string_bytes text.old ++ next_refused refused.now) }
{
    let next = refused_text(alloc, refused)?;
    text.push_str(", ")?;
    text.push_str(next.as_str())
}

fn push_rest(alloc: Global, text: &mut String, cells: &[Cell]) -> Result<(), AllocError>
    ensures { OnOk result (string_bytes text.new ≡ string_bytes text.old ++ flat_map next_cell cells.now) }
{
    for cell in cells {
        push_next_cell(alloc, text, *cell)?;
    }
    Ok(())
}

fn push_refused_rest(
    alloc: Global,
    text: &mut String,
    refused: &[RefusedCell],
) -> Result<(), AllocError>
    ensures { OnOk result (string_bytes text.new ≡ string_bytes text.old ++ flat_map next_refused refused.now) }
{
    for one in refused {
        push_next_refused(alloc, text, one)?;
    }
    Ok(())
}

/// The cells, with commas.
fn joined_cells(alloc: Global, cells: &[Cell]) -> Result<String, AllocError>
    ensures { IfOk result (λ text. string_bytes text ≡ joined_cells cells.now) }
{
    match cells {
        [] => Ok(String::new(alloc)),
        [first, rest @ ..] => {
            let mut text = cell_text(alloc, *first)?;
            push_rest(alloc, &mut text, rest)?;
            Ok(text)
        }
    }
}

/// The same, with the causes.
fn joined_refused(alloc: Global, refused: &[RefusedCell]) -> Result<String, AllocError>
    ensures { IfOk result (λ text. string_bytes text ≡ joined_refused refused.now) }
{
    match refused {
        [] => Ok(String::new(alloc)),
        [first, rest @ ..] => {
            let mut text = refused_text(alloc, first)?;
            push_refused_rest(alloc, &mut text, rest)?;
            Ok(text)
        }
    }
}

/// How many more there are than are named.
fn more_text(alloc: Global, count: usize) -> Result<String, AllocError>
    ensures { IfOk result (λ text. string_bytes text ≡ more_text count) }
{
    if count == 0 {
        Ok(String::new(alloc))
    } else {
        format!(in alloc; ", and {count} more")
    }
}

/// The first items, as many as are named.
#[tactic(auto, using(std::proofs::lemmas::List::take_min))]
fn named<T>(items: &[T]) -> &[T]
    ensures { result.now ≡ take 10 items.now }
{
    let count = MOST_NAMED.min(items.len());
    &items[..count]
}

/// How many there are behind these.
fn unnamed<T>(items: &[T]) -> usize
    ensures { result ≡ length (drop 10 items.now) }
{
    items.len().saturating_sub(MOST_NAMED)
}

/// The first ten of the cells, and how many more there are.
fn cells_text(alloc: Global, cells: &[Cell]) -> Result<String, AllocError>
    ensures { IfOk result (λ text. string_bytes text ≡ cells_text cells.now) }
{
    let first = joined_cells(alloc, named(cells))?;
    let more = more_text(alloc, unnamed(cells))?;
    format!(in alloc; "{first}{more}")
}

/// The same, with the causes.
fn refused_cells_text(alloc: Global, refused: &[RefusedCell]) -> Result<String, AllocError>
    ensures { IfOk result (λ text. string_bytes text ≡ refused_cells_text refused.now) }
{
    let first = joined_refused(alloc, named(refused))?;
    let more = more_text(alloc, unnamed(refused))?;
    format!(in alloc; "{first}{more}")
}

/// An order was refused in those cells, and is held back there.
#[tactic(auto, unfolding(crate::specs::CellLines::refusal_with))]
fn refusal_with(alloc: Global, order: &str, cells: &str, number: u16) -> Result<String, AllocError>
    ensures { IfOk result (λ text. string_bytes text ≡ refusal_with order.now cells.now number) }
{
    format!(in alloc; "refused: {order}, in {cells}; held back until retry {number}")
}

/// What is said of an order that was refused in these cells of the BSC, where nothing more is ordered of it: `refused: a KILL of message
/// 4370, serial number C000, in 100 7 (9 cell broadcast not supported); held back until retry 1`.
pub fn refusal_text(
    alloc: Global,
    order: &str,
    refused: &[RefusedCell],
    b: BscId,
) -> Result<String, AllocError>
    ensures { IfOk result (λ text. string_bytes text ≡ refusal_text order.now refused.now b) }
{
    let cells = refused_cells_text(alloc, refused)?;
    refusal_with(alloc, order, cells.as_str(), b.number())
}

fn kind_text(is_emergency: bool) -> &'static str
    ensures { result.now ≡ kind_text is_emergency }
{
    if is_emergency {
        "emergency warnings"
    } else {
        "texts"
    }
}

/// What is said of cells of which a FAILURE came: `cells down for texts (FAILURE): 100 7, 100 8`.
pub fn failure_text(alloc: Global, is_emergency: bool, cells: &[Cell]) -> Result<String, AllocError>
    ensures { IfOk result (λ text. string_bytes text ≡ failure_text is_emergency cells.now) }
{
    let kind = kind_text(is_emergency);
    let cells = cells_text(alloc, cells)?;
    format!(in alloc; "cells down for {kind} (FAILURE): {cells}")
}

fn kept_text(are_lost: bool) -> &'static str
    ensures { result.now ≡ kept_text are_lost }
{
    if are_lost {
        "their messages are lost"
    } else {
        "their messages are kept"
    }
}

/// What is said of cells of which a RESTART came: `cells broadcast again for texts (RESTART), their messages are lost: 100 7`.
pub fn restart_text(
    alloc: Global,
    is_emergency: bool,
    are_lost: bool,
    cells: &[Cell],
) -> Result<String, AllocError>
    ensures { IfOk result (λ text. string_bytes text ≡ restart_text is_emergency are_lost cells.now) }
{
    let kind = kind_text(is_emergency);
    let kept = kept_text(are_lost);
    let cells = cells_text(alloc, cells)?;
    format!(in alloc; "cells broadcast again for {kind} (RESTART), {kept}: {cells}")
}
