//! The metrics of a picture.

ghost use Rattle.std.specs.Prelude.{◌≡◌, ◌++◌, IfOk, OnOk};
ghost use Rattle.status_figures.specs.Metrics.{build_head, build_text, entries_text, metrics_text, refusals_text, version_line};

use crate::bsc_metrics::push_bscs;
use crate::centre_metrics::push_centre;
use crate::picture::Picture;
use crate::samples::{push_head, push_tallies};
use crate::tally::Tally;
use crate::version::VERSION;
use crate::warning_metrics::push_warnings;
use std::alloc::{AllocError, Global};

/// The metrics, in the text format of Prometheus. What isn't known has no sample.
pub fn metrics(alloc: Global, picture: &Picture) -> Result<Vec<u8>, AllocError>
    ensures { IfOk result (λ text. text.items ≡ metrics_text picture.now) }
{
    let mut out = Vec::new(alloc);
    push_all(alloc, &mut out, picture)?;
    Ok(out)
}

#[tactic(auto, unfolding(crate::specs::Metrics::metrics_text))]
fn push_all(alloc: Global, out: &mut Vec<u8>, picture: &Picture) -> Result<(), AllocError>
    ensures { OnOk result (out.new.items ≡ out.old.items ++ metrics_text picture.now) }
{
    push_build(alloc, out)?;
    push_centre(alloc, out, picture)?;
    push_warnings(alloc, out, picture.warnings.as_slice())?;
    push_bscs(alloc, out, picture.bscs.as_slice())?;
    push_entries(alloc, out, picture.entries.as_slice())?;
    push_refusals(alloc, out, picture.refusals.as_slice())
}

#[tactic(auto, unfolding(crate::specs::Metrics::build_head))]
fn push_build_head(alloc: Global, out: &mut Vec<u8>) -> Result<(), AllocError>
    ensures { OnOk result (out.new.items ≡ out.old.items ++ build_head) }
{
    push_head(
        alloc,
        out,
        "cbc_build_info",
        "The version of the program.",
        "gauge",
    )
}

/// Appends which version of the program this is.
#[tactic(auto, unfolding(crate::specs::Metrics::build_text))]
fn push_build(alloc: Global, out: &mut Vec<u8>) -> Result<(), AllocError>
    ensures { OnOk result (out.new.items ≡ out.old.items ++ build_text) }
{
    push_build_head(alloc, out)?;
    push_version(alloc, out, VERSION)
}

#[tactic(auto, unfolding(crate::specs::Metrics::version_line))]
fn push_version(alloc: Global, out: &mut Vec<u8>, version: &str) -> Result<(), AllocError>
    ensures { OnOk result (out.new.items ≡ out.old.items ++ version_line version.now) }
{
    let sample = format!(in alloc; "cbc_build_info{{version=\"{version}\"}} 1\n")?;
    out.extend_from_slice(sample.as_bytes())
}

#[tactic(auto, unfolding(crate::specs::Metrics::entries_text))]
fn push_entries(alloc: Global, out: &mut Vec<u8>, entries: &[Tally]) -> Result<(), AllocError>
    ensures { OnOk result (out.new.items ≡ out.old.items ++ entries_text entries.now) }
{
    push_tallies(
        alloc,
        out,
        "cbc_events_total",
        "Events that were entered since the start, by kind.",
        "kind",
        entries,
    )
}

#[tactic(auto, unfolding(crate::specs::Metrics::refusals_text))]
fn push_refusals(alloc: Global, out: &mut Vec<u8>, refusals: &[Tally]) -> Result<(), AllocError>
    ensures { OnOk result (out.new.items ≡ out.old.items ++ refusals_text refusals.now) }
{
    push_tallies(
        alloc,
        out,
        "cbc_refusals_total",
        "Refusals since the start, of the server's own questions too.",
        "refusal",
        refusals,
    )
}
