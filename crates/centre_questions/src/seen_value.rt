//! What a question is answered.

use areas::Selectors;
use cell_register::BscId;
use centre_events::in_flight::InFlight;
use centre_past::lists::{AreaRows, BscRows, CellRows, FailedRows, WarningRows, WarningSheet};
use centre_past::reported::ReportedKeys;
use coverage_board::Numbers;
use order_maker::Orders;

/// The answer to a question, in memory of its own.
#[derive(Drop)]
pub enum SeenValue {
    /// The numbers of a warning, in all or in one area.
    Numbers(Numbers),
    /// The BSC at which a cell is registered, if it is.
    Place(Option<BscId>),
    /// The pending orders of a BSC.
    Pending(Orders),
    /// What a BSC has reported.
    Table(ReportedKeys),
    /// What is in flight to a BSC.
    InFlight(Option<InFlight>),
    /// The registered BSCs.
    Bscs(BscRows),
    /// The cells that are registered at a BSC.
    Cells(CellRows),
    /// The areas.
    Areas(AreaRows),
    /// The selectors of an area.
    Selectors(Selectors),
    /// The warnings in the book.
    Warnings(WarningRows),
    /// A warning with its content.
    Warning(WarningSheet),
    /// The cells in which a warning failed.
    Failed(FailedRows),
}
