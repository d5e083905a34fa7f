//! Metrics of one sample, and counts by name.

ghost use Rattle.std.specs.Prelude.{◌≡◌, ◌++◌, OnOk};
ghost use Rattle.std.specs.List.{flat_map};
ghost use Rattle.status_figures.specs.Metrics.{count_end, flag, head_text, single_if, single_text, tallies_text, tally_line};

use crate::labels::push_label;
use crate::tally::Tally;
use std::alloc::{AllocError, Global};

/// 1 for yes, 0 for no.
pub(crate) fn flag(holds: bool) -> u64
    ensures { result ≡ flag holds }
{
    if holds { 1 } else { 0 }
}

/// Appends what a metric is.
#[tactic(auto, unfolding(crate::specs::Metrics::head_text))]
pub(crate) fn push_head(
    alloc: Global,
    out: &mut Vec<u8>,
    name: &str,
    help: &str,
    kind: &str,
) -> Result<(), AllocError>
    ensures { OnOk result (out.new.items ≡ out.old.items ++ head_text name.now help.now kind.now) }
{
    let head = format!(in alloc; "# HELP {name} {help}\n# TYPE {name} {kind}\n")?;
    out.extend_from_slice(head.as_bytes())
}

/// Appends a metric of one sample.
#[tactic(auto, unfolding(crate::specs::Metrics::single_text))]
pub(crate) fn push_single(
    alloc: Global,
    out: &mut Vec<u8>,
    name: &str,
    help: &str,
    kind: &str,
    value: u64,
) -> Result<(), AllocError>
    ensures { OnOk result (out.new.items ≡ out.old.items ++ single_text name.now help.now kind.now value) }
{
    push_head(alloc, out, name, help, kind)?;
    let sample = format!(in alloc; "{name} {value}\n")?;
    out.extend_from_slice(sample.as_bytes())
}

/// Appends a metric of one sample, where there is one.
pub(crate) fn push_single_if(
    alloc: Global,
    out: &mut Vec<u8>,
    name: &str,
    help: &str,
    kind: &str,
    value: Option<u64>,
) -> Result<(), AllocError>
    ensures { OnOk result (out.new.items ≡ out.old.items ++ single_if name.now help.now kind.now value) }
{
    match value {
        None => Ok(()),
        Some(value) => push_single(alloc, out, name, help, kind, value),
    }
}

/// Appends a sample of a count.
fn push_tally(
    alloc: Global,
    out: &mut Vec<u8>,
    name: &str,
    label: &str,
    tally: &Tally,
) -> Result<(), AllocError>
    ensures { OnOk result (out.new.items ≡ out.old.items ++ tally_line name.now label.now tally.now) }
{
    let front = format!(in alloc; "{name}{{{label}=\"")?;
    out.extend_from_slice(front.as_bytes())?;
    push_label(out, tally.name.as_slice())?;
    push_count(alloc, out, tally.count)
}

/// Appends what follows the value of a label.
fn push_count(alloc: Global, out: &mut Vec<u8>, count: u64) -> Result<(), AllocError>
    ensures { OnOk result (out.new.items ≡ out.old.items ++ count_end count) }
{
    let end = format!(in alloc; "\"}} {count}\n")?;
    out.extend_from_slice(end.as_bytes())
}

fn push_tally_lines(
    alloc: Global,
    out: &mut Vec<u8>,
    name: &str,
    label: &str,
    tallies: &[Tally],
) -> Result<(), AllocError>
    ensures { OnOk result (out.new.items ≡ out.old.items ++ flat_map (tally_line name.now label.now) tallies.now) }
{
    for tally in tallies {
        push_tally(alloc, out, name, label, tally)?;
    }
    Ok(())
}

/// Appends a metric with a sample for each name.
#[tactic(auto, unfolding(crate::specs::Metrics::tallies_text))]
pub(crate) fn push_tallies(
    alloc: Global,
    out: &mut Vec<u8>,
    name: &str,
    help: &str,
    label: &str,
    tallies: &[Tally],
) -> Result<(), AllocError>
    ensures { OnOk result (out.new.items ≡ out.old.items ++ tallies_text name.now help.now label.now tallies.now) }
{
    push_head(alloc, out, name, help, "counter")?;
    push_tally_lines(alloc, out, name, label, tallies)
}
