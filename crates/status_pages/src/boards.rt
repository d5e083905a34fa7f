//! Boards on the page.

ghost use Rattle.std.specs.Prelude.{◌≡◌, ◌++◌, OnOk};
ghost use Rattle.std.specs.List.{flat_map};
ghost use Rattle.status_pages.specs.Boards.{area_html, areas_html, bar_html, board_html, cell_figures, figure, figure_if, figure_of, other_figures, segment, segment_if};

use crate::escapes::push_escaped;
use crate::piece::{Piece, push_piece};
use coverage_board::Numbers;
use status_figures::AreaBoard;
use std::alloc::{AllocError, Global};

#[tactic(auto, unfolding(crate::specs::Boards::segment))]
fn push_segment(
    alloc: Global,
    out: &mut Vec<u8>,
    class: &str,
    number: u64,
) -> Result<(), AllocError>
    ensures { OnOk result (out.new.items ≡ out.old.items ++ segment class.now number) }
{
    let text = format!(in alloc; "<i class=\"{class}\" style=\"flex-grow:{number}\"></i>")?;
    out.extend_from_slice(text.as_bytes())
}

#[tactic(auto, unfolding(crate::specs::Boards::segment_if))]
fn push_segment_if(
    alloc: Global,
    out: &mut Vec<u8>,
    class: &str,
    number: u64,
) -> Result<(), AllocError>
    ensures { OnOk result (out.new.items ≡ out.old.items ++ segment_if class.now number) }
{
    if number == 0 {
        Ok(())
    } else {
        push_segment(alloc, out, class, number)
    }
}

/// Appends the bar of a board's cells.
#[tactic(auto, unfolding(crate::specs::Boards::bar_html))]
fn push_bar(alloc: Global, out: &mut Vec<u8>, numbers: Numbers) -> Result<(), AllocError>
    ensures { OnOk result (out.new.items ≡ out.old.items ++ bar_html numbers) }
{
    push_piece(out, Piece::BarFront)?;
    push_segment_if(alloc, out, "o", numbers.on_air)?;
    push_segment_if(alloc, out, "a", numbers.awaited)?;
    push_segment_if(alloc, out, "f", numbers.failed)?;
    push_piece(out, Piece::BlockEnd)
}

/// Appends a number with its word.
#[tactic(auto, unfolding(crate::specs::Boards::figure))]
fn push_figure(
    alloc: Global,
    out: &mut Vec<u8>,
    class: &str,
    word: &str,
    number: u64,
) -> Result<(), AllocError>
    ensures { OnOk result (out.new.items ≡ out.old.items ++ figure class.now word.now number) }
{
    let text = format!(in alloc; "<span class=\"{class}\"><b>{number}</b> {word}</span> ")?;
    out.extend_from_slice(text.as_bytes())
}

/// Appends a number that is always told.
#[tactic(auto, unfolding(crate::specs::Boards::figure_of))]
fn push_figure_of(
    alloc: Global,
    out: &mut Vec<u8>,
    class: &str,
    word: &str,
    number: u64,
) -> Result<(), AllocError>
    ensures { OnOk result (out.new.items ≡ out.old.items ++ figure_of class.now word.now number) }
{
    if number == 0 {
        push_figure(alloc, out, "z", word, number)
    } else {
        push_figure(alloc, out, class, word, number)
    }
}

/// Appends a number that is told where it isn't 0.
#[tactic(auto, unfolding(crate::specs::Boards::figure_if))]
pub(crate) fn push_figure_if(
    alloc: Global,
    out: &mut Vec<u8>,
    class: &str,
    word: &str,
    number: u64,
) -> Result<(), AllocError>
    ensures { OnOk result (out.new.items ≡ out.old.items ++ figure_if class.now word.now number) }
{
    if number == 0 {
        Ok(())
    } else {
        push_figure(alloc, out, class, word, number)
    }
}

#[tactic(auto, unfolding(crate::specs::Boards::cell_figures))]
fn push_cell_figures(alloc: Global, out: &mut Vec<u8>, numbers: Numbers) -> Result<(), AllocError>
    ensures { OnOk result (out.new.items ≡ out.old.items ++ cell_figures numbers) }
{
    push_figure_of(alloc, out, "o", "on air", numbers.on_air)?;
    push_figure_of(alloc, out, "a", "awaited", numbers.awaited)?;
    push_figure_of(alloc, out, "f", "failed", numbers.failed)
}

#[tactic(auto, unfolding(crate::specs::Boards::other_figures))]
fn push_other_figures(alloc: Global, out: &mut Vec<u8>, numbers: Numbers) -> Result<(), AllocError>
    ensures { OnOk result (out.new.items ≡ out.old.items ++ other_figures numbers) }
{
    push_figure_if(alloc, out, "l", "left", numbers.left)?;
    push_figure_if(alloc, out, "c", "broadcasts reported", numbers.broadcasts)
}

/// Appends a board: its bar, and its numbers.
#[tactic(auto, unfolding(crate::specs::Boards::board_html))]
pub(crate) fn push_board(
    alloc: Global,
    out: &mut Vec<u8>,
    numbers: Numbers,
) -> Result<(), AllocError>
    ensures { OnOk result (out.new.items ≡ out.old.items ++ board_html numbers) }
{
    push_bar(alloc, out, numbers)?;
    push_piece(out, Piece::NumbersFront)?;
    push_cell_figures(alloc, out, numbers)?;
    push_other_figures(alloc, out, numbers)?;
    push_piece(out, Piece::ParagraphEnd)
}

#[tactic(auto, unfolding(crate::specs::Boards::area_html))]
fn push_area(alloc: Global, out: &mut Vec<u8>, area: &AreaBoard) -> Result<(), AllocError>
    ensures { OnOk result (out.new.items ≡ out.old.items ++ area_html area.now) }
{
    push_piece(out, Piece::AreaFront)?;
    push_escaped(out, area.name.as_slice())?;
    push_piece(out, Piece::AreaMiddle)?;
    push_board(alloc, out, area.numbers)?;
    push_piece(out, Piece::ItemEnd)
}

fn push_each_area(alloc: Global, out: &mut Vec<u8>, areas: &[AreaBoard]) -> Result<(), AllocError>
    ensures { OnOk result (out.new.items ≡ out.old.items ++ flat_map area_html areas.now) }
{
    for area in areas {
        push_area(alloc, out, area)?;
    }
    Ok(())
}

/// Appends the areas of a warning.
#[tactic(auto, unfolding(crate::specs::Boards::areas_html))]
pub(crate) fn push_areas(
    alloc: Global,
    out: &mut Vec<u8>,
    areas: &[AreaBoard],
) -> Result<(), AllocError>
    ensures { OnOk result (out.new.items ≡ out.old.items ++ areas_html areas.now) }
{
    push_piece(out, Piece::AreasFront)?;
    push_each_area(alloc, out, areas)?;
    push_piece(out, Piece::ListEnd)
}
