//! The page.

ghost use Rattle.std.specs.Prelude.{◌≡◌, ◌++◌, IfOk, OnOk};
ghost use Rattle.status_pages.specs.Pages.{front_html, lists_html, main_html, page_html, state_html, taken_html};

use crate::bscs::push_bscs;
use crate::causes::push_causes;
use crate::fixed::{push_after, push_before, push_layout, push_looks};
use crate::header::{push_moment, push_verdict};
use crate::items::push_figures;
use crate::piece::{Piece, push_piece};
use crate::ranked_warning::RankedWarning;
use crate::ranks::ranked;
use crate::verdict::Verdict;
use crate::verdicts::{verdict_of, word};
use crate::warnings::push_warnings;
use status_figures::Picture;
use std::alloc::{AllocError, Global};

/// A page of HTML that shows the picture. It is complete in itself, and renews itself from the address that it came from.
pub fn page(alloc: Global, picture: &Picture) -> Result<Vec<u8>, AllocError>
    ensures { IfOk result (λ text. text.items ≡ page_html picture.now) }
{
    let mut out = Vec::new(alloc);
    push_page(alloc, &mut out, picture)?;
    Ok(out)
}

#[tactic(auto, unfolding(crate::specs::Pages::page_html))]
fn push_page(alloc: Global, out: &mut Vec<u8>, picture: &Picture) -> Result<(), AllocError>
    ensures { OnOk result (out.new.items ≡ out.old.items ++ page_html picture.now) }
{
    let verdict = verdict_of(picture);
    push_front(out, verdict)?;
    push_main(alloc, out, picture, verdict)?;
    push_after(out)
}

/// Appends what stands in front: the title and the looks.
#[tactic(auto, unfolding(crate::specs::Pages::front_html))]
fn push_front(out: &mut Vec<u8>, verdict: Verdict) -> Result<(), AllocError>
    ensures { OnOk result (out.new.items ≡ out.old.items ++ front_html verdict) }
{
    push_before(out)?;
    out.extend_from_slice(word(verdict).as_bytes())?;
    push_looks(out)?;
    push_layout(out)
}

#[tactic(auto, unfolding(crate::specs::Pages::taken_html))]
fn push_taken(alloc: Global, out: &mut Vec<u8>, taken: u64) -> Result<(), AllocError>
    ensures { OnOk result (out.new.items ≡ out.old.items ++ taken_html taken) }
{
    let text = format!(in alloc; "<main id=\"now\" data-taken=\"{taken}\">")?;
    out.extend_from_slice(text.as_bytes())
}

/// Appends what is exchanged when the page is renewed.
#[tactic(auto, unfolding(crate::specs::Pages::main_html))]
fn push_main(
    alloc: Global,
    out: &mut Vec<u8>,
    picture: &Picture,
    verdict: Verdict,
) -> Result<(), AllocError>
    ensures { OnOk result (out.new.items ≡ out.old.items ++ main_html picture.now verdict) }
{
    let warnings = ranked(alloc, picture.warnings.as_slice())?;
    push_state(alloc, out, picture, verdict, warnings.as_slice())?;
    push_moment(out, picture.taken)?;
    push_figures(alloc, out, picture)?;
    push_lists(alloc, out, picture, warnings.as_slice())
}

/// Appends how the centre stands, and why.
#[tactic(auto, unfolding(crate::specs::Pages::state_html))]
fn push_state(
    alloc: Global,
    out: &mut Vec<u8>,
    picture: &Picture,
    verdict: Verdict,
    warnings: &[RankedWarning],
) -> Result<(), AllocError>
    ensures { OnOk result (out.new.items ≡ out.old.items ++ state_html picture.now verdict warnings.now) }
{
    push_taken(alloc, out, picture.taken)?;
    push_verdict(alloc, out, verdict)?;
    push_causes(alloc, out, picture, warnings)
}

#[tactic(auto, unfolding(crate::specs::Pages::lists_html))]
fn push_lists(
    alloc: Global,
    out: &mut Vec<u8>,
    picture: &Picture,
    warnings: &[RankedWarning],
) -> Result<(), AllocError>
    ensures { OnOk result (out.new.items ≡ out.old.items ++ lists_html picture.now warnings.now) }
{
    push_piece(out, Piece::ColumnsFront)?;
    push_warnings(alloc, out, picture, warnings)?;
    push_bscs(alloc, out, picture.taken, picture.bscs.as_slice())?;
    push_piece(out, Piece::ColumnsEnd)
}
