//! The list of areas, and that of an area's selectors.

ghost use Rattle.std.specs.Prelude.{◌≡◌, ◌++◌, IfOk, OnOk, map, string_bytes};
ghost use Rattle.lists_text.specs.ListTexts.{after_commas, area_line, area_text, areas_text, joined, selector_text};

use crate::lines::{push_count, push_line};
use crate::names::push_after_comma;
use areas::Selector;
use centre_past::lists::AreaRow;
use common::Name;
use std::alloc::{AllocError, Global};

/// Puts the line of an area behind the text.
fn push_area(alloc: Global, text: &mut Vec<u8>, row: &AreaRow) -> Result<(), AllocError>
    ensures { OnOk result (text.new.items ≡ text.old.items ++ area_line row.now) }
{
    push_line(text, "area ")?;
    text.extend_from_slice(row.name.as_slice())?;
    push_count(alloc, text, " selectors", row.selectors)
}

/// A line for each area, and their number.
pub fn areas_text(alloc: Global, rows: &[AreaRow]) -> Result<Vec<u8>, AllocError>
    ensures { IfOk result (λ text. text.items ≡ areas_text rows.now) }
{
    let mut text = Vec::new(alloc);
    for row in rows {
        push_area(alloc, &mut text, row)?;
    }
    push_count(alloc, &mut text, "areas", rows.len())?;
    Ok(text)
}

/// A location area, or one cell of it.
fn selector_text(alloc: Global, selector: Selector) -> Result<String, AllocError>
    ensures { IfOk result (λ text. string_bytes text ≡ selector_text selector) }
{
    match selector {
        Selector::Lac(lac) => format!(in alloc; "{lac}"),
        Selector::Cell(cell) => {
            let lac = cell.lac;
            let ci = cell.ci;
            format!(in alloc; "{lac}/{ci}")
        }
    }
}

/// Puts selectors behind the text, each after a comma.
fn push_more_selectors(
    alloc: Global,
    text: &mut Vec<u8>,
    selectors: &[Selector],
) -> Result<(), AllocError>
    ensures { OnOk result (text.new.items ≡ text.old.items ++ after_commas (map selector_text selectors.now)) }
{
    for selector in selectors {
        let more = selector_text(alloc, *selector)?;
        push_after_comma(text, more.as_bytes())?;
    }
    Ok(())
}

/// Puts selectors behind the text, with a comma between them, or `none`.
fn push_selectors(
    alloc: Global,
    text: &mut Vec<u8>,
    selectors: &[Selector],
) -> Result<(), AllocError>
    ensures { OnOk result (text.new.items ≡ text.old.items ++ joined (map selector_text selectors.now)) }
{
    match selectors {
        [] => push_line(text, "none"),
        [first, more @ ..] => {
            let first = selector_text(alloc, *first)?;
            push_line(text, first.as_str())?;
            push_more_selectors(alloc, text, more)
        }
    }
}

/// The area of that name with its selectors, and their number.
pub fn area_text(alloc: Global, name: &Name, selectors: &[Selector]) -> Result<Vec<u8>, AllocError>
    ensures { IfOk result (λ text. text.items ≡ area_text name.now selectors.now) }
{
    let mut text = Vec::new(alloc);
    push_line(&mut text, "area ")?;
    text.extend_from_slice(name.as_slice())?;
    push_line(&mut text, " ")?;
    push_selectors(alloc, &mut text, selectors)?;
    push_line(&mut text, "\n")?;
    push_count(alloc, &mut text, "selectors", selectors.len())?;
    Ok(text)
}
