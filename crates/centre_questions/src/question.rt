//! What can be asked of a centre.

use cell_register::BscId;
use common::{Cell, Name};
use warning_book::WarningId;

/// A question about a centre, which changes nothing.
#[derive(Debug)]
pub enum Question {
    /// The numbers of a warning.
    Total(WarningId),
    /// The numbers of a warning and one of its areas.
    Area(WarningId, Name),
    /// The BSC at which a cell is registered.
    Place(Cell),
    /// The pending orders of a BSC.
    Pending(BscId),
    /// What a BSC has reported.
    Table(BscId),
    /// What is in flight to a BSC.
    InFlight(BscId),
    /// The registered BSCs.
    Bscs,
    /// The cells that are registered at a BSC.
    Cells(BscId),
    /// The areas.
    Areas,
    /// The selectors of an area.
    Selectors(Name),
    /// The warnings in the book.
    Warnings,
    /// A warning with its content.
    Warning(WarningId),
    /// The cells in which a warning failed.
    Failed(WarningId),
}

/// Written out, so that no crate above proves anew how its parts are dropped.
impl Drop for Question {
    fn drop(self) {
        match self {
            Question::Total(_part) => {}
            Question::Area(_part0, _part1) => {}
            Question::Place(_part) => {}
            Question::Pending(_part) => {}
            Question::Table(_part) => {}
            Question::InFlight(_part) => {}
            Question::Bscs => {}
            Question::Cells(_part) => {}
            Question::Areas => {}
            Question::Selectors(_part) => {}
            Question::Warnings => {}
            Question::Warning(_part) => {}
            Question::Failed(_part) => {}
        }
    }
}
