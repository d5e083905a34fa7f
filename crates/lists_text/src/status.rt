//! How a centre stands.

ghost use Rattle.std.specs.Prelude.{◌≡◌, IfOk, string_bytes};
ghost use Rattle.lists_text.specs.ListTexts.{centre_name, counts_text, status_text};

use centre_past::lists::{CentreStatus, PlanCounts};
use std::alloc::{AllocError, Global};

/// How many there are of each thing.
fn counts_text(alloc: Global, counts: &Option<PlanCounts>) -> Result<String, AllocError>
    ensures { IfOk result (λ text. string_bytes text ≡ counts_text counts.now) }
{
    let Some(counts) = counts else {
        return Ok(String::new(alloc));
    };
    let PlanCounts {
        bscs,
        links_up,
        cells,
        areas,
        warnings,
        active,
    } = *counts;
    format!(in alloc;
        " bscs {bscs} up {links_up} cells {cells} areas {areas} warnings {warnings} active {active}"
    )
}

/// Whether what is kept beside the journal is of use.
fn centre_name(is_stale: bool) -> &'static str
    ensures { result.now ≡ centre_name is_stale }
{
    if is_stale { "stale" } else { "whole" }
}

/// The line of a centre.
pub fn status_text(alloc: Global, status: &CentreStatus) -> Result<String, AllocError>
    ensures { IfOk result (λ text. string_bytes text ≡ status_text status.now) }
{
    let entries = status.entries;
    let folded = status.folded;
    let limit = status.limit;
    let name = centre_name(status.is_stale);
    let counts = counts_text(alloc, &status.counts)?;
    format!(in alloc; "status entries {entries} folded {folded} limit {limit} {name}{counts}\n")
}
