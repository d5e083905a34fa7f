//! The metrics of BSCs.

ghost use Rattle.std.specs.Prelude.{◌≡◌, ◌++◌, OnOk};
ghost use Rattle.std.specs.List.{flat_map};
ghost use Rattle.status_figures.specs.Metrics.{bsc_flights_text, bsc_line, bsc_metric_help, bsc_metric_name, bsc_metric_text, bsc_metric_value, bsc_sample, bsc_states_text, bscs_text, one_if};

use crate::bsc_figures::BscFigures;
use crate::samples::{flag, push_head};
use crate::words::is_in_service;
use centre_past::lists::FlightRow;
use std::alloc::{AllocError, Global};

/// A metric that has one sample at most for each BSC.
#[derive(Clone, Copy, Debug, PartialEq, Eq)]
pub(crate) enum BscMetric {
    LinkUp,
    Cells,
    Pending,
    InFlight,
    Since,
    Reset,
    Down,
    Ended,
}

/// How many things are in flight.
fn one_if(flight: Option<FlightRow>) -> u64
    ensures { result ≡ one_if flight }
{
    match flight {
        None => 0,
        Some(_) => 1,
    }
}

impl BscMetric {
    fn name(self) -> &'static str
        ensures { result.now ≡ bsc_metric_name self }
    {
        match self {
            BscMetric::LinkUp => "cbc_bsc_link_up",
            BscMetric::Cells => "cbc_bsc_cells",
            BscMetric::Pending => "cbc_bsc_pending_orders",
            BscMetric::InFlight => "cbc_bsc_in_flight",
            BscMetric::Since => "cbc_bsc_in_flight_since_timestamp_seconds",
            BscMetric::Reset => "cbc_bsc_reset_since_timestamp_seconds",
            BscMetric::Down => "cbc_bsc_down_cells",
            BscMetric::Ended => "cbc_bsc_link_down_since_timestamp_seconds",
        }
    }

    fn help(self) -> &'static str
        ensures { result.now ≡ bsc_metric_help self }
    {
        match self {
            BscMetric::LinkUp => "Whether the link of a BSC is up, and no RESET is out over it.",
            BscMetric::Cells => "Cells that are registered at a BSC.",
            BscMetric::Pending =>
                "Messages that a BSC is still to write, replace or kill, one in flight too.",
            BscMetric::InFlight => "Orders and queries that are in flight to a BSC, one at most.",
            BscMetric::Since => "When what is in flight to a BSC went out.",
            BscMetric::Reset => "When the RESET went out that a BSC has not answered.",
            BscMetric::Ended => "When the link of a BSC ended that is down.",
            BscMetric::Down => "Cells of a BSC that are down for some kind of warning.",
        }
    }

    fn value(self, bsc: &BscFigures) -> Option<u64>
        ensures { result ≡ bsc_metric_value self bsc.now }
    {
        match self {
            BscMetric::LinkUp => Some(flag(is_in_service(bsc))),
            BscMetric::Cells => Some(bsc.row.cells as u64),
            BscMetric::Pending => Some(bsc.row.pending as u64),
            BscMetric::InFlight => Some(one_if(bsc.row.flight)),
            BscMetric::Since => bsc.since,
            BscMetric::Reset => bsc.reset,
            BscMetric::Down => bsc.down,
            BscMetric::Ended => bsc.ended,
        }
    }
}

fn push_sample(
    alloc: Global,
    out: &mut Vec<u8>,
    name: &str,
    bsc: u16,
    value: u64,
) -> Result<(), AllocError>
    ensures { OnOk result (out.new.items ≡ out.old.items ++ bsc_sample name.now bsc value) }
{
    let line = format!(in alloc; "{name}{{bsc=\"{bsc}\"}} {value}\n")?;
    out.extend_from_slice(line.as_bytes())
}

fn push_line(
    alloc: Global,
    out: &mut Vec<u8>,
    metric: BscMetric,
    bsc: &BscFigures,
) -> Result<(), AllocError>
    ensures { OnOk result (out.new.items ≡ out.old.items ++ bsc_line metric bsc.now) }
{
    match metric.value(bsc) {
        None => Ok(()),
        Some(value) => push_sample(alloc, out, metric.name(), bsc.row.bsc.number(), value),
    }
}

fn push_lines(
    alloc: Global,
    out: &mut Vec<u8>,
    metric: BscMetric,
    bscs: &[BscFigures],
) -> Result<(), AllocError>
    ensures { OnOk result (out.new.items ≡ out.old.items ++ flat_map (bsc_line metric) bscs.now) }
{
    for bsc in bscs {
        push_line(alloc, out, metric, bsc)?;
    }
    Ok(())
}

/// Appends the metric, of all BSCs.
#[tactic(auto, unfolding(crate::specs::Metrics::bsc_metric_text))]
fn push_metric(
    alloc: Global,
    out: &mut Vec<u8>,
    metric: BscMetric,
    bscs: &[BscFigures],
) -> Result<(), AllocError>
    ensures { OnOk result (out.new.items ≡ out.old.items ++ bsc_metric_text metric bscs.now) }
{
    push_head(alloc, out, metric.name(), metric.help(), "gauge")?;
    push_lines(alloc, out, metric, bscs)
}

/// Appends the metrics of their links, cells and orders.
#[tactic(auto, unfolding(crate::specs::Metrics::bsc_states_text))]
fn push_states(alloc: Global, out: &mut Vec<u8>, bscs: &[BscFigures]) -> Result<(), AllocError>
    ensures { OnOk result (out.new.items ≡ out.old.items ++ bsc_states_text bscs.now) }
{
    push_metric(alloc, out, BscMetric::LinkUp, bscs)?;
    push_metric(alloc, out, BscMetric::Ended, bscs)?;
    push_metric(alloc, out, BscMetric::Cells, bscs)?;
    push_metric(alloc, out, BscMetric::Down, bscs)?;
    push_metric(alloc, out, BscMetric::Pending, bscs)
}

/// Appends the metrics of what is out to them.
#[tactic(auto, unfolding(crate::specs::Metrics::bsc_flights_text))]
fn push_flights(alloc: Global, out: &mut Vec<u8>, bscs: &[BscFigures]) -> Result<(), AllocError>
    ensures { OnOk result (out.new.items ≡ out.old.items ++ bsc_flights_text bscs.now) }
{
    push_metric(alloc, out, BscMetric::InFlight, bscs)?;
    push_metric(alloc, out, BscMetric::Since, bscs)?;
    push_metric(alloc, out, BscMetric::Reset, bscs)
}

/// Appends all metrics of the BSCs.
#[tactic(auto, unfolding(crate::specs::Metrics::bscs_text))]
pub(crate) fn push_bscs(
    alloc: Global,
    out: &mut Vec<u8>,
    bscs: &[BscFigures],
) -> Result<(), AllocError>
    ensures { OnOk result (out.new.items ≡ out.old.items ++ bscs_text bscs.now) }
{
    push_states(alloc, out, bscs)?;
    push_flights(alloc, out, bscs)
}
