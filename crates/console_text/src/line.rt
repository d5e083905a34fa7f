//! What an operator may ask for in a line.

use crate::alert_heading::AlertHeading;
use crate::content_heading::ContentHeading;
use crate::emergency_heading::EmergencyHeading;
use crate::heading::Heading;
use areas::Selector;
use cell_register::BscId;
use common::{Cell, Name, Names, Octets};
use warning_book::WarningId;

/// A line of the console whose words are known and whose numbers are in their ranges. Octets that the
/// operator writes in hexadecimal digits are still text.
#[derive(Drop)]
pub enum Line {
    /// `bsc add B`
    AddBsc(BscId),
    /// `bsc remove B`
    RemoveBsc(BscId),
    /// `cell add L C B`
    AddCell(Cell, BscId),
    /// `cell move L C B`
    MoveCell(Cell, BscId),
    /// `cell remove L C`
    RemoveCell(Cell),
    /// `area add N`
    AddArea(Name),
    /// `area drop N`
    DropArea(Name),
    /// `area put N L` and `area put N L C`
    Put(Name, Selector),
    /// `area cut N L` and `area cut N L C`
    Cut(Name, Selector),
    /// `issue M SCOPE DCS CAT PERIOD PAGES AREAS`
    Issue {
        heading: Heading,
        pages: Octets,
        areas: Names,
    },
    /// `update W DCS CAT PERIOD PAGES`
    Update {
        warning: WarningId,
        heading: ContentHeading,
        pages: Octets,
    },
    /// `alert M SCOPE I T P SEC AREAS`
    Alert {
        heading: AlertHeading,
        security: Octets,
        areas: Names,
    },
    /// `realert W I T P SEC`
    Realert {
        warning: WarningId,
        heading: EmergencyHeading,
        security: Octets,
    },
    /// `widen W N`
    Widen(WarningId, Name),
    /// `narrow W N`
    Narrow(WarningId, Name),
    /// `stop W`
    Stop(WarningId),
    /// `forget W`
    Forget(WarningId),
    /// `retry B`
    Retry(BscId),
    /// `up B`
    Up(BscId),
    /// `down B`
    Down(BscId),
    /// `gen B G`
    Keep(BscId, u64),
    /// `send B`
    Send(BscId),
    /// `ask B W` and `ask B W L C`: after that cell
    Ask(BscId, WarningId, Option<Cell>),
    /// `rx B HEX`
    Report(BscId, Octets),
    /// `board W`
    Board(WarningId),
    /// `board W N`
    AreaBoard(WarningId, Name),
    /// `pending B`
    Pending(BscId),
    /// `table B`
    Table(BscId),
    /// `rebuild`
    Rebuild,
    /// `checkpoint`
    Checkpoint,
}
