//! What an operator may ask to have listed.

use cell_register::BscId;
use common::Name;
use warning_book::WarningId;

/// A line that asks for a list.
#[derive(Drop)]
pub enum ListLine {
    /// `bscs`
    Bscs,
    /// `links`
    Links,
    /// `cells B`
    Cells(BscId),
    /// `areas`
    Areas,
    /// `area N`
    Area(Name),
    /// `warnings`
    Warnings,
    /// `warning W`
    Warning(WarningId),
    /// `failed W`
    Failed(WarningId),
}
