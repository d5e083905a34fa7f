//! The metrics of the centre itself.

ghost use Rattle.std.specs.Prelude.{◌≡◌, ◌++◌, OnOk};
ghost use Rattle.std.specs.List.{flat_map};
ghost use Rattle.status_figures.specs.Metrics.{centre_metric_help, centre_metric_name, centre_metric_text, centre_metric_type, centre_metric_value, centre_text, counts_text, plan_metric_help, plan_metric_name, plan_metric_text, plan_metric_value};

use crate::picture::Picture;
use crate::samples::{flag, push_single, push_single_if};
use centre_past::lists::PlanCounts;
use std::alloc::{AllocError, Global};

/// A metric of the centre, which has one sample at most.
#[derive(Clone, Copy, Debug, PartialEq, Eq)]
pub(crate) enum CentreMetric {
    Begun,
    Taken,
    IsStale,
    Entries,
    Folded,
    Limit,
    Kept,
    Receipts,
    Memory,
}

/// A metric that counts things of the centre, where it isn't stale.
#[derive(Clone, Copy, Debug, PartialEq, Eq)]
pub(crate) enum PlanMetric {
    Bscs,
    LinksUp,
    Cells,
    Areas,
    Warnings,
    Active,
}

const CENTRE_METRICS: &[CentreMetric] = &[
    CentreMetric::Begun,
    CentreMetric::Taken,
    CentreMetric::IsStale,
    CentreMetric::Entries,
    CentreMetric::Folded,
    CentreMetric::Limit,
    CentreMetric::Kept,
    CentreMetric::Receipts,
    CentreMetric::Memory,
];

const PLAN_METRICS: &[PlanMetric] = &[
    PlanMetric::Bscs,
    PlanMetric::LinksUp,
    PlanMetric::Cells,
    PlanMetric::Areas,
    PlanMetric::Warnings,
    PlanMetric::Active,
];

impl CentreMetric {
    fn name(self) -> &'static str
        ensures { result.now ≡ centre_metric_name self }
    {
        match self {
            CentreMetric::Begun => "process_start_time_seconds",
            CentreMetric::Taken => "cbc_picture_timestamp_seconds",
            CentreMetric::IsStale => "cbc_stale",
            CentreMetric::Entries => "cbc_journal_entries_total",
            CentreMetric::Folded => "cbc_journal_folded_entries_total",
            CentreMetric::Limit => "cbc_journal_limit_entries",
            CentreMetric::Kept => "cbc_journal_kept_entries",
            CentreMetric::Receipts => "cbc_receipts",
            CentreMetric::Memory => "process_resident_memory_bytes",
        }
    }

    fn help(self) -> &'static str
        ensures { result.now ≡ centre_metric_help self }
    {
        match self {
            CentreMetric::Begun => "When the program began.",
            CentreMetric::Taken => "When the picture was taken.",
            CentreMetric::IsStale => "Whether the centre is stale and has to be rebuilt.",
            CentreMetric::Entries => "Entries of the journal since the beginning.",
            CentreMetric::Folded => "Entries that were folded.",
            CentreMetric::Limit => "Entries that the journal may have since it was folded.",
            CentreMetric::Kept => "Entries that stand in the kept file.",
            CentreMetric::Receipts => "Receipts that are kept for the desks.",
            CentreMetric::Memory => "Memory that the program takes.",
        }
    }

    fn type_word(self) -> &'static str
        ensures { result.now ≡ centre_metric_type self }
    {
        match self {
            CentreMetric::Entries | CentreMetric::Folded => "counter",
            CentreMetric::Begun
            | CentreMetric::Taken
            | CentreMetric::IsStale
            | CentreMetric::Limit
            | CentreMetric::Kept
            | CentreMetric::Receipts
            | CentreMetric::Memory => "gauge",
        }
    }

    fn value(self, picture: &Picture) -> Option<u64>
        ensures { result ≡ centre_metric_value picture.now self }
    {
        match self {
            CentreMetric::Begun => Some(picture.begun),
            CentreMetric::Taken => Some(picture.taken),
            CentreMetric::IsStale => Some(flag(picture.status.is_stale)),
            CentreMetric::Entries => Some(picture.status.entries),
            CentreMetric::Folded => Some(picture.status.folded),
            CentreMetric::Limit => Some(u64::from(picture.status.limit)),
            CentreMetric::Kept => picture.kept,
            CentreMetric::Receipts => Some(picture.receipts),
            CentreMetric::Memory => picture.memory,
        }
    }
}

impl PlanMetric {
    fn name(self) -> &'static str
        ensures { result.now ≡ plan_metric_name self }
    {
        match self {
            PlanMetric::Bscs => "cbc_bscs",
            PlanMetric::LinksUp => "cbc_links_up",
            PlanMetric::Cells => "cbc_registered_cells",
            PlanMetric::Areas => "cbc_areas",
            PlanMetric::Warnings => "cbc_warnings",
            PlanMetric::Active => "cbc_active_warnings",
        }
    }

    fn help(self) -> &'static str
        ensures { result.now ≡ plan_metric_help self }
    {
        match self {
            PlanMetric::Bscs => "Registered BSCs.",
            PlanMetric::LinksUp => "Registered BSCs whose link is up.",
            PlanMetric::Cells => "Registered cells.",
            PlanMetric::Areas => "Areas.",
            PlanMetric::Warnings => "Warnings in the book, stopped ones too.",
            PlanMetric::Active => "Warnings in the book that were not stopped.",
        }
    }

    fn value(self, counts: PlanCounts) -> u64
        ensures { result ≡ plan_metric_value counts self }
    {
        match self {
            PlanMetric::Bscs => counts.bscs as u64,
            PlanMetric::LinksUp => counts.links_up as u64,
            PlanMetric::Cells => counts.cells as u64,
            PlanMetric::Areas => counts.areas as u64,
            PlanMetric::Warnings => counts.warnings as u64,
            PlanMetric::Active => counts.active as u64,
        }
    }
}

#[tactic(auto, unfolding(crate::specs::Metrics::centre_metric_text))]
fn push_metric(
    alloc: Global,
    out: &mut Vec<u8>,
    picture: &Picture,
    metric: CentreMetric,
) -> Result<(), AllocError>
    ensures { OnOk result (out.new.items ≡ out.old.items ++ centre_metric_text picture.now metric) }
{
    push_single_if(
        alloc,
        out,
        metric.name(),
        metric.help(),
        metric.type_word(),
        metric.value(picture),
    )
}

fn push_metrics(
    alloc: Global,
    out: &mut Vec<u8>,
    picture: &Picture,
    metrics: &[CentreMetric],
) -> Result<(), AllocError>
    ensures { OnOk result (out.new.items ≡ out.old.items ++ flat_map (centre_metric_text picture.now) metrics.now) }
{
    for metric in metrics {
        push_metric(alloc, out, picture, *metric)?;
    }
    Ok(())
}

#[tactic(auto, unfolding(crate::specs::Metrics::plan_metric_text))]
fn push_count(
    alloc: Global,
    out: &mut Vec<u8>,
    counts: PlanCounts,
    metric: PlanMetric,
) -> Result<(), AllocError>
    ensures { OnOk result (out.new.items ≡ out.old.items ++ plan_metric_text counts metric) }
{
    push_single(
        alloc,
        out,
        metric.name(),
        metric.help(),
        "gauge",
        metric.value(counts),
    )
}

fn push_counts(
    alloc: Global,
    out: &mut Vec<u8>,
    counts: PlanCounts,
    metrics: &[PlanMetric],
) -> Result<(), AllocError>
    ensures { OnOk result (out.new.items ≡ out.old.items ++ flat_map (plan_metric_text counts) metrics.now) }
{
    for metric in metrics {
        push_count(alloc, out, counts, *metric)?;
    }
    Ok(())
}

/// Appends how many things the centre has, where that is known.
fn push_counts_if(
    alloc: Global,
    out: &mut Vec<u8>,
    counts: Option<PlanCounts>,
) -> Result<(), AllocError>
    ensures { OnOk result (out.new.items ≡ out.old.items ++ counts_text counts) }
{
    match counts {
        None => Ok(()),
        Some(counts) => push_counts(alloc, out, counts, PLAN_METRICS),
    }
}

/// Appends the centre's own metrics.
#[tactic(auto, unfolding(crate::specs::Metrics::centre_text))]
pub(crate) fn push_centre(
    alloc: Global,
    out: &mut Vec<u8>,
    picture: &Picture,
) -> Result<(), AllocError>
    ensures { OnOk result (out.new.items ≡ out.old.items ++ centre_text picture.now) }
{
    push_metrics(alloc, out, picture, CENTRE_METRICS)?;
    push_counts_if(alloc, out, picture.status.counts)
}
