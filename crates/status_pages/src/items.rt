//! The figures of the centre.

ghost use Rattle.std.specs.Prelude.{◌≡◌, ◌++◌, OnOk};
ghost use Rattle.std.specs.List.{flat_map};
ghost use Rattle.status_pages.specs.Pages.{centre_html, centre_value, centre_word, count_html, count_value, count_word, counts_html, figures_html, item, item_if, megaoctets};

use crate::piece::{Piece, push_piece};
use centre_past::lists::PlanCounts;
use status_figures::Picture;
use std::alloc::{AllocError, Global};

/// A figure that counts things of the centre, where it isn't stale.
#[derive(Clone, Copy, Debug, PartialEq, Eq)]
pub(crate) enum CountItem {
    Active,
    LinksUp,
    Bscs,
    Cells,
}

/// A figure of the journal or of the program.
#[derive(Clone, Copy, Debug, PartialEq, Eq)]
pub(crate) enum CentreItem {
    Entries,
    Kept,
    /// Entries since the last fold.
    Unfolded,
    Limit,
    Receipts,
    Memory,
}

const COUNT_ITEMS: &[CountItem] = &[
    CountItem::Active,
    CountItem::LinksUp,
    CountItem::Bscs,
    CountItem::Cells,
];

const CENTRE_ITEMS: &[CentreItem] = &[
    CentreItem::Entries,
    CentreItem::Kept,
    CentreItem::Unfolded,
    CentreItem::Limit,
    CentreItem::Receipts,
    CentreItem::Memory,
];

impl CountItem {
    fn word(self) -> &'static str
        ensures { result.now ≡ count_word self }
    {
        match self {
            CountItem::Active => "active warnings",
            CountItem::LinksUp => "links up",
            CountItem::Bscs => "BSCs",
            CountItem::Cells => "cells",
        }
    }

    fn value(self, counts: PlanCounts) -> u64
        ensures { result ≡ count_value counts self }
    {
        match self {
            CountItem::Active => counts.active as u64,
            CountItem::LinksUp => counts.links_up as u64,
            CountItem::Bscs => counts.bscs as u64,
            CountItem::Cells => counts.cells as u64,
        }
    }
}

fn megaoctets(octets: Option<u64>) -> Option<u64>
    ensures { result ≡ megaoctets octets }
{
    match octets {
        None => None,
        Some(octets) => Some(octets / 1_000_000),
    }
}

impl CentreItem {
    fn word(self) -> &'static str
        ensures { result.now ≡ centre_word self }
    {
        match self {
            CentreItem::Entries => "entries",
            CentreItem::Kept => "kept up to",
            CentreItem::Unfolded => "since the last fold",
            CentreItem::Limit => "journal limit",
            CentreItem::Receipts => "receipts",
            CentreItem::Memory => "memory in MB",
        }
    }

    fn value(self, picture: &Picture) -> Option<u64>
        ensures { result ≡ centre_value picture.now self }
    {
        let status = &picture.status;
        match self {
            CentreItem::Entries => Some(status.entries),
            CentreItem::Kept => picture.kept,
            CentreItem::Unfolded => Some(status.entries.saturating_sub(status.folded)),
            CentreItem::Limit => Some(u64::from(status.limit)),
            CentreItem::Receipts => Some(picture.receipts),
            CentreItem::Memory => megaoctets(picture.memory),
        }
    }
}

/// Appends a figure with its word.
#[tactic(auto, unfolding(crate::specs::Pages::item))]
fn push_item(alloc: Global, out: &mut Vec<u8>, word: &str, number: u64) -> Result<(), AllocError>
    ensures { OnOk result (out.new.items ≡ out.old.items ++ item word.now number) }
{
    let text = format!(in alloc; "<li>{word} <b>{number}</b></li>")?;
    out.extend_from_slice(text.as_bytes())
}

fn push_item_if(
    alloc: Global,
    out: &mut Vec<u8>,
    word: &str,
    number: Option<u64>,
) -> Result<(), AllocError>
    ensures { OnOk result (out.new.items ≡ out.old.items ++ item_if word.now number) }
{
    match number {
        None => Ok(()),
        Some(number) => push_item(alloc, out, word, number),
    }
}

#[tactic(auto, unfolding(crate::specs::Pages::count_html))]
fn push_count(
    alloc: Global,
    out: &mut Vec<u8>,
    counts: PlanCounts,
    item: CountItem,
) -> Result<(), AllocError>
    ensures { OnOk result (out.new.items ≡ out.old.items ++ count_html counts item) }
{
    push_item(alloc, out, item.word(), item.value(counts))
}

fn push_counts(
    alloc: Global,
    out: &mut Vec<u8>,
    counts: PlanCounts,
    items: &[CountItem],
) -> Result<(), AllocError>
    ensures { OnOk result (out.new.items ≡ out.old.items ++ flat_map (count_html counts) items.now) }
{
    for item in items {
        push_count(alloc, out, counts, *item)?;
    }
    Ok(())
}

fn push_counts_if(
    alloc: Global,
    out: &mut Vec<u8>,
    counts: Option<PlanCounts>,
) -> Result<(), AllocError>
    ensures { OnOk result (out.new.items ≡ out.old.items ++ counts_html counts) }
{
    match counts {
        None => Ok(()),
        Some(counts) => push_counts(alloc, out, counts, COUNT_ITEMS),
    }
}

#[tactic(auto, unfolding(crate::specs::Pages::centre_html))]
fn push_centre_item(
    alloc: Global,
    out: &mut Vec<u8>,
    picture: &Picture,
    item: CentreItem,
) -> Result<(), AllocError>
    ensures { OnOk result (out.new.items ≡ out.old.items ++ centre_html picture.now item) }
{
    push_item_if(alloc, out, item.word(), item.value(picture))
}

fn push_centre_items(
    alloc: Global,
    out: &mut Vec<u8>,
    picture: &Picture,
    items: &[CentreItem],
) -> Result<(), AllocError>
    ensures { OnOk result (out.new.items ≡ out.old.items ++ flat_map (centre_html picture.now) items.now) }
{
    for item in items {
        push_centre_item(alloc, out, picture, *item)?;
    }
    Ok(())
}

/// Appends the figures of the centre.
#[tactic(auto, unfolding(crate::specs::Pages::figures_html))]
pub(crate) fn push_figures(
    alloc: Global,
    out: &mut Vec<u8>,
    picture: &Picture,
) -> Result<(), AllocError>
    ensures { OnOk result (out.new.items ≡ out.old.items ++ figures_html picture.now) }
{
    push_piece(out, Piece::SumsFront)?;
    push_counts_if(alloc, out, picture.status.counts)?;
    push_centre_items(alloc, out, picture, CENTRE_ITEMS)?;
    push_piece(out, Piece::SumsEnd)
}
