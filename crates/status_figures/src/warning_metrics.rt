//! The metrics of warnings.

ghost use Rattle.std.specs.Prelude.{◌≡◌, ◌++◌, OnOk};
ghost use Rattle.std.specs.List.{flat_map};
ghost use Rattle.status_figures.specs.Metrics.{cells_head, cells_line, cells_lines, cells_of, cells_text, planned, warning_line, warning_metric_help, warning_metric_name, warning_metric_text, warning_metric_value, warnings_text};

use crate::samples::{flag, push_head};
use crate::warning_figures::WarningFigures;
use centre_past::lists::WarningRow;
use coverage_board::Numbers;
use std::alloc::{AllocError, Global};

/// A metric that has one sample for each warning.
#[derive(Clone, Copy, Debug, PartialEq, Eq)]
pub(crate) enum WarningMetric {
    Cells,
    Active,
    Left,
    Broadcasts,
    Silent,
}

/// In how many registered cells an active warning is planned.
fn planned(numbers: Numbers) -> u128
    ensures { result ≡ planned numbers }
{
    u128::from(numbers.awaited) + u128::from(numbers.on_air) + u128::from(numbers.failed)
}

impl WarningMetric {
    fn name(self) -> &'static str
        ensures { result.now ≡ warning_metric_name self }
    {
        match self {
            WarningMetric::Cells => "cbc_warning_cells",
            WarningMetric::Active => "cbc_warning_active",
            WarningMetric::Left => "cbc_left_places",
            WarningMetric::Broadcasts => "cbc_broadcasts",
            WarningMetric::Silent => "cbc_silent_cells",
        }
    }

    fn help(self) -> &'static str
        ensures { result.now ≡ warning_metric_help self }
    {
        match self {
            WarningMetric::Cells => {
                "Registered cells in which a warning is planned: 0 of an active one that reaches nobody."
            }
            WarningMetric::Active => "Whether a warning was not stopped.",
            WarningMetric::Left => {
                "Places where an old or unwanted version of a warning is on air or may be."
            }
            WarningMetric::Broadcasts => {
                "How often a warning was broadcast in the cells that its areas cover, as reported."
            }
            WarningMetric::Silent => {
                "Cells in which a warning is on air, and its number of broadcasts does not rise."
            }
        }
    }

    fn value(self, warning: &WarningFigures) -> u128
        ensures { result ≡ warning_metric_value self warning.now }
    {
        match self {
            WarningMetric::Cells => planned(warning.sheet.row.numbers),
            WarningMetric::Active => u128::from(flag(warning.sheet.row.is_active)),
            WarningMetric::Left => u128::from(warning.sheet.row.numbers.left),
            WarningMetric::Broadcasts => u128::from(warning.sheet.row.numbers.broadcasts),
            WarningMetric::Silent => u128::from(warning.silent),
        }
    }
}

/// Appends the samples of the cells of a warning.
#[tactic(auto, unfolding(crate::specs::Metrics::cells_lines))]
fn push_cells_lines(
    alloc: Global,
    out: &mut Vec<u8>,
    warning: &WarningRow,
) -> Result<(), AllocError>
    ensures { OnOk result (out.new.items ≡ out.old.items ++ cells_lines warning.now) }
{
    let (number, id, numbers) = (warning.number.number(), warning.message_id, warning.numbers);
    push_cells_line(alloc, out, number, id, "awaited", numbers.awaited)?;
    push_cells_line(alloc, out, number, id, "on_air", numbers.on_air)?;
    push_cells_line(alloc, out, number, id, "failed", numbers.failed)
}

#[tactic(auto, unfolding(crate::specs::Metrics::cells_line))]
fn push_cells_line(
    alloc: Global,
    out: &mut Vec<u8>,
    warning: u32,
    id: u16,
    state: &str,
    count: u64,
) -> Result<(), AllocError>
    ensures { OnOk result (out.new.items ≡ out.old.items ++ cells_line warning id state.now count) }
{
    let line = format!(in alloc;
        "cbc_cells{{warning=\"{warning}\",message_id=\"{id}\",state=\"{state}\"}} {count}\n"
    )?;
    out.extend_from_slice(line.as_bytes())
}

fn push_all_cells(
    alloc: Global,
    out: &mut Vec<u8>,
    warnings: &[WarningFigures],
) -> Result<(), AllocError>
    ensures { OnOk result (out.new.items ≡ out.old.items ++ flat_map cells_of warnings.now) }
{
    for warning in warnings {
        push_cells_lines(alloc, out, &warning.sheet.row)?;
    }
    Ok(())
}

#[tactic(auto, unfolding(crate::specs::Metrics::cells_head))]
fn push_cells_head(alloc: Global, out: &mut Vec<u8>) -> Result<(), AllocError>
    ensures { OnOk result (out.new.items ≡ out.old.items ++ cells_head) }
{
    push_head(
        alloc,
        out,
        "cbc_cells",
        "Registered cells that an active warning covers, by how it stands there.",
        "gauge",
    )
}

/// Appends the cells of all warnings.
#[tactic(auto, unfolding(crate::specs::Metrics::cells_text))]
fn push_cells(
    alloc: Global,
    out: &mut Vec<u8>,
    warnings: &[WarningFigures],
) -> Result<(), AllocError>
    ensures { OnOk result (out.new.items ≡ out.old.items ++ cells_text warnings.now) }
{
    push_cells_head(alloc, out)?;
    push_all_cells(alloc, out, warnings)
}

#[tactic(auto, unfolding(crate::specs::Metrics::warning_line))]
fn push_line(
    alloc: Global,
    out: &mut Vec<u8>,
    metric: WarningMetric,
    warning: &WarningFigures,
) -> Result<(), AllocError>
    ensures { OnOk result (out.new.items ≡ out.old.items ++ warning_line metric warning.now) }
{
    let name = metric.name();
    let number = warning.sheet.row.number.number();
    let id = warning.sheet.row.message_id;
    let value = metric.value(warning);
    let line = format!(in alloc; "{name}{{warning=\"{number}\",message_id=\"{id}\"}} {value}\n")?;
    out.extend_from_slice(line.as_bytes())
}

fn push_lines(
    alloc: Global,
    out: &mut Vec<u8>,
    metric: WarningMetric,
    warnings: &[WarningFigures],
) -> Result<(), AllocError>
    ensures { OnOk result (out.new.items ≡ out.old.items ++ flat_map (warning_line metric) warnings.now) }
{
    for warning in warnings {
        push_line(alloc, out, metric, warning)?;
    }
    Ok(())
}

/// Appends the metric, of all warnings.
#[tactic(auto, unfolding(crate::specs::Metrics::warning_metric_text))]
fn push_metric(
    alloc: Global,
    out: &mut Vec<u8>,
    metric: WarningMetric,
    warnings: &[WarningFigures],
) -> Result<(), AllocError>
    ensures { OnOk result (out.new.items ≡ out.old.items ++ warning_metric_text metric warnings.now) }
{
    push_head(alloc, out, metric.name(), metric.help(), "gauge")?;
    push_lines(alloc, out, metric, warnings)
}

/// Appends all metrics of the warnings.
#[tactic(auto, unfolding(crate::specs::Metrics::warnings_text))]
pub(crate) fn push_warnings(
    alloc: Global,
    out: &mut Vec<u8>,
    warnings: &[WarningFigures],
) -> Result<(), AllocError>
    ensures { OnOk result (out.new.items ≡ out.old.items ++ warnings_text warnings.now) }
{
    push_cells(alloc, out, warnings)?;
    push_metric(alloc, out, WarningMetric::Cells, warnings)?;
    push_metric(alloc, out, WarningMetric::Active, warnings)?;
    push_metric(alloc, out, WarningMetric::Left, warnings)?;
    push_metric(alloc, out, WarningMetric::Broadcasts, warnings)?;
    push_metric(alloc, out, WarningMetric::Silent, warnings)
}
