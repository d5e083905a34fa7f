//! An order in words.

use cbsp_ie::{CellId, CellIds, Form};
use cbsp_messages::{Message, read};
use common::Cell;
use link_rules::Version;
use server_ports::Named;
use std::alloc::{AllocError, Global};

/// How many cells there are, in words.
fn cells_words(alloc: Global, cells: &CellIds) -> Result<String, AllocError> {
    if cells.form() == Form::All {
        return String::from_str(alloc, "all cells");
    }
    let count = cells.len();
    if count == 1 {
        String::from_str(alloc, "one cell")
    } else {
        format!(in alloc; "{count} cells")
    }
}

/// An order of this kind, about this message in these cells.
fn words_of(
    alloc: Global,
    kind: &str,
    message_id: u16,
    serial: u16,
    cells: &CellIds,
) -> Result<String, AllocError> {
    let cells = cells_words(alloc, cells)?;
    format!(in alloc; "a {kind} of message {message_id}, serial number {serial:04X}, in {cells}")
}

/// The order in words, with its kind, the Message Identifier, the serial number that it names first, and in how many cells.
fn message_words(alloc: Global, message: &Message) -> Result<String, AllocError> {
    match message {
        Message::WriteReplace(m) => {
            words_of(alloc, "WRITE-REPLACE", m.message_id, m.serial, &m.cells)
        }
        Message::WriteEmergency(m) => {
            words_of(alloc, "WRITE-REPLACE", m.message_id, m.serial, &m.cells)
        }
        Message::Kill(m) => words_of(alloc, "KILL", m.message_id, m.serial, &m.cells),
        _ => String::from_str(alloc, "an order"),
    }
}

/// How many cells the order or the query names.
fn count_of(message: &Message) -> usize {
    match message {
        Message::WriteReplace(m) => m.cells.len(),
        Message::WriteEmergency(m) => m.cells.len(),
        Message::Kill(m) => m.cells.len(),
        Message::StatusQuery(m) => m.cells.len(),
        _ => 0,
    }
}

/// How many cells the order or the query names whose frame this is; as many as it has octets, where it can't be read.
pub(crate) fn cell_count(alloc: Global, frame: &[u8]) -> usize {
    let (Some(kind), Some(body)) = (frame.first(), frame.get(4..)) else {
        return frame.len();
    };
    let Ok(message) = read(alloc, *kind, body) else {
        return frame.len();
    };
    let count = count_of(&message);
    drop(message);
    count
}

/// How many cells a query names at most.
const MOST_CELLS: usize = 1_000;

/// The last cell of a query that names as many as it may.
fn last_cell(cells: &CellIds) -> Option<Cell> {
    if cells.len() < MOST_CELLS {
        return None;
    }
    match cells.ids().last() {
        Some(CellId::LacCi { lac, ci }) => Some(Cell { lac: *lac, ci: *ci }),
        _ => None,
    }
}

/// An order for that version.
fn order_for(message_id: u16, serial: u16) -> Named {
    Named::Order(Version { message_id, serial })
}

/// What the order or the query names.
fn names_of(message: &Message) -> Option<Named> {
    match message {
        Message::WriteReplace(m) => Some(order_for(m.message_id, m.serial)),
        Message::WriteEmergency(m) => Some(order_for(m.message_id, m.serial)),
        Message::Kill(m) => Some(order_for(m.message_id, m.serial)),
        Message::StatusQuery(m) => {
            let version = Version {
                message_id: m.message_id,
                serial: m.serial,
            };
            Some(Named::Query(version, last_cell(&m.cells)))
        }
        _ => None,
    }
}

/// What the order or the query names whose frame this is; `None` where it can't be read.
pub(crate) fn named_in(alloc: Global, frame: &[u8]) -> Option<Named> {
    let (kind, body) = (frame.first()?, frame.get(4..)?);
    let message = read(alloc, *kind, body).ok()?;
    let named = names_of(&message);
    drop(message);
    named
}

/// The order in words whose frame this is: its kind, the Message Identifier, the serial number that it names first, and in how
/// many cells.
pub fn order_words(alloc: Global, frame: &[u8]) -> Result<String, AllocError> {
    let (Some(kind), Some(body)) = (frame.first(), frame.get(4..)) else {
        return String::from_str(alloc, "an order");
    };
    let Ok(message) = read(alloc, *kind, body) else {
        return String::from_str(alloc, "an order");
    };
    let words = message_words(alloc, &message);
    drop(message);
    words
}
