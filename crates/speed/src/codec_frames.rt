//! The messages that are read and written.

use cbsp_ie::CellIds;
use cbsp_messages::{Message, Page, Pages, WriteComplete, WriteReplace};
use common::Cell;
use std::alloc::{AllocError, Global};

/// A WRITE-REPLACE COMPLETE that lists 15,000 cells in 60,000 octets.
pub fn long_complete(alloc: Global) -> Result<Message, AllocError> {
    Ok(Message::WriteComplete(WriteComplete {
        message_id: 4370,
        serial: 0xc000,
        old: None,
        counts: None,
        cells: Some(cells(alloc, 15_000)?),
        channel: Some(0),
    }))
}

/// A WRITE-REPLACE of 15 pages for 1,000 cells.
pub fn long_write(alloc: Global) -> Result<Message, AllocError> {
    let mut pages = Pages::new(alloc);
    for number in 0..15u8 {
        pages.push(Page::new(82, [number; 82]))?;
    }
    Ok(Message::WriteReplace(WriteReplace {
        message_id: 4370,
        serial: 0xc000,
        old: None,
        cells: cells(alloc, 1_000)?,
        channel: Some(0),
        category: 0,
        period: 30,
        requested: 0,
        pages,
        dcs: 15,
    }))
}

/// So many cells of one location area.
fn cells(alloc: Global, count: u16) -> Result<CellIds, AllocError> {
    let mut cells = Vec::new(alloc);
    for ci in 0..count {
        cells.push(Cell { lac: 100, ci })?;
    }
    CellIds::of_cells(alloc, cells.as_slice())
}
