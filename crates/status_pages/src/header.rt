//! What stands above the warnings and the BSCs.

ghost use Rattle.std.specs.Prelude.{◌≡◌, ◌++◌, OnOk};
ghost use Rattle.status_pages.specs.Pages.{moment_html, verdict_html};

use crate::piece::{Piece, push_piece};
use crate::times::push_time;
use crate::verdict::Verdict;
use crate::verdicts::{advice, class, word};
use std::alloc::{AllocError, Global};

/// Appends the state of the centre.
#[tactic(auto, unfolding(crate::specs::Pages::verdict_html))]
pub(crate) fn push_verdict(
    alloc: Global,
    out: &mut Vec<u8>,
    verdict: Verdict,
) -> Result<(), AllocError>
    ensures { OnOk result (out.new.items ≡ out.old.items ++ verdict_html verdict) }
{
    let class = class(verdict);
    let word = word(verdict);
    let advice = advice(verdict);
    let text = format!(in alloc; "<header class=\"{class}\"><h1>{word}</h1><p>{advice}</p>")?;
    out.extend_from_slice(text.as_bytes())
}

/// Appends when the picture was taken.
#[tactic(auto, unfolding(crate::specs::Pages::moment_html))]
pub(crate) fn push_moment(out: &mut Vec<u8>, taken: u64) -> Result<(), AllocError>
    ensures { OnOk result (out.new.items ≡ out.old.items ++ moment_html taken) }
{
    push_piece(out, Piece::MomentFront)?;
    push_time(out, taken)?;
    push_piece(out, Piece::MomentEnd)
}
