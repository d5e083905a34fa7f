//! Replies whose lists name the cells of a query in the query's order, in another, twice, in another form or by another
//! network, each worked by hand: the first failure that names a cell is its cause, the last valid number that names it is
//! its count (TS 48.049, 8.1.3 and 8.2.10).

use crate::values::{same, yes};
use cbsp_ie::Cause;
use cbsp_messages::read;
use centre_events::in_flight::InFlight;
use centre_events::outcome::Outcome;
use centre_events::replies::Replies;
use centre_events::replying::replies_to;
use common::{Cell, Cells};
use serials::Serial;
use std::alloc::Global;
use std::process::Abort;

/// The network code 001-01. That of another network, in the rows, is 262-01.
const PLMN: [u8; 3] = [0x00, 0xf1, 0x10];

/// The cells of the query.
const CELLS: [Cell; 3] = [
    Cell { lac: 100, ci: 7 },
    Cell { lac: 100, ci: 9 },
    Cell { lac: 200, ci: 1 },
];

const DONE: Outcome = Outcome::Done;

const FULL: Outcome = Outcome::Refused(Cause::CELL_MEMORY_EXCEEDED);

const UNKNOWN: Outcome = Outcome::Refused(Cause::MESSAGE_REFERENCE_NOT_IDENTIFIED);

const SILENT: Outcome = Outcome::Silent;

/// The body of a MESSAGE STATUS QUERY FAILURE, and what it says of each cell of the query: what became of it, and the number
/// of broadcasts.
type Row = (&'static [u8], [Outcome; 3], [Option<u16>; 3]);

const ROWS: &[Row] = &[
    // cells in order are found
    (
        &[
            0x0e, 0x11, 0x12, 0x02, 0xc0, 0x00, 0x09, 0x00, 0x09, 0x00, 0x00, 0xf1, 0x10, 0x00,
            0x64, 0x00, 0x09, 0x07, 0x08, 0x00, 0x15, 0x00, 0x00, 0xf1, 0x10, 0x00, 0x64, 0x00,
            0x07, 0x00, 0x05, 0x00, 0x00, 0xf1, 0x10, 0x00, 0xc8, 0x00, 0x01, 0x00, 0x06, 0x00,
            0x12, 0x00,
        ],
        [DONE, FULL, DONE],
        [Some(5), None, Some(6)],
    ),
    // cells out of order are found
    (
        &[
            0x0e, 0x11, 0x12, 0x02, 0xc0, 0x00, 0x09, 0x00, 0x12, 0x00, 0x00, 0xf1, 0x10, 0x00,
            0xc8, 0x00, 0x01, 0x02, 0x00, 0x00, 0xf1, 0x10, 0x00, 0x64, 0x00, 0x07, 0x07, 0x08,
            0x00, 0x15, 0x00, 0x00, 0xf1, 0x10, 0x00, 0xc8, 0x00, 0x01, 0x00, 0x06, 0x00, 0x00,
            0xf1, 0x10, 0x00, 0x64, 0x00, 0x09, 0x00, 0x05, 0x00, 0x12, 0x00,
        ],
        [FULL, DONE, UNKNOWN],
        [None, Some(5), Some(6)],
    ),
    // the first failure and the last number hold; of the third cell nothing is said
    (
        &[
            0x0e, 0x11, 0x12, 0x02, 0xc0, 0x00, 0x09, 0x00, 0x12, 0x00, 0x00, 0xf1, 0x10, 0x00,
            0x64, 0x00, 0x07, 0x07, 0x00, 0x00, 0xf1, 0x10, 0x00, 0x64, 0x00, 0x07, 0x02, 0x08,
            0x00, 0x15, 0x00, 0x00, 0xf1, 0x10, 0x00, 0x64, 0x00, 0x09, 0x00, 0x05, 0x00, 0x00,
            0xf1, 0x10, 0x00, 0x64, 0x00, 0x09, 0x00, 0x06, 0x00, 0x12, 0x00,
        ],
        [FULL, DONE, SILENT],
        [None, Some(6), None],
    ),
    // a location area names each of its cells, and a single cell before it goes first
    (
        &[
            0x0e, 0x11, 0x12, 0x02, 0xc0, 0x00, 0x09, 0x00, 0x0d, 0x00, 0x00, 0xf1, 0x10, 0x00,
            0x64, 0x00, 0x07, 0x02, 0x05, 0x00, 0x64, 0x07, 0x12, 0x00,
        ],
        [UNKNOWN, FULL, SILENT],
        [None, None, None],
    ),
    // all cells are named by one failure alone, and after a single cell
    (
        &[
            0x0e, 0x11, 0x12, 0x02, 0xc0, 0x00, 0x09, 0x00, 0x02, 0x06, 0x07, 0x12, 0x00,
        ],
        [FULL, FULL, FULL],
        [None, None, None],
    ),
    (
        &[
            0x0e, 0x11, 0x12, 0x02, 0xc0, 0x00, 0x09, 0x00, 0x0b, 0x00, 0x00, 0xf1, 0x10, 0x00,
            0xc8, 0x00, 0x01, 0x02, 0x06, 0x07, 0x12, 0x00,
        ],
        [FULL, FULL, UNKNOWN],
        [None, None, None],
    ),
    // a cell of another network is none of ours, even where it stands in order, and so is a location area
    (
        &[
            0x0e, 0x11, 0x12, 0x02, 0xc0, 0x00, 0x09, 0x00, 0x12, 0x00, 0x62, 0xf2, 0x10, 0x00,
            0x64, 0x00, 0x07, 0x07, 0x00, 0x00, 0xf1, 0x10, 0x00, 0x64, 0x00, 0x09, 0x02, 0x12,
            0x00,
        ],
        [SILENT, UNKNOWN, SILENT],
        [None, None, None],
    ),
    (
        &[
            0x0e, 0x11, 0x12, 0x02, 0xc0, 0x00, 0x09, 0x00, 0x07, 0x04, 0x62, 0xf2, 0x10, 0x00,
            0x64, 0x07, 0x12, 0x00,
        ],
        [SILENT, SILENT, SILENT],
        [None, None, None],
    ),
];

fn query(rt: &impl Abort, alloc: Global) -> InFlight {
    let cells = Vec::from_slice(alloc, &CELLS).expect(rt, "memory");
    InFlight::Query {
        message_id: 4370,
        serial: Serial::from_u16(0xc000),
        cells: Cells::from_vec(cells),
    }
}

/// The reply with this body to the query of the cells.
fn replies(rt: &impl Abort, alloc: Global, body: &[u8]) -> Replies {
    let query = query(rt, alloc);
    let message = read(alloc, 0x0c, body).expect(rt, "the reply is read");
    let replies = replies_to(alloc, PLMN, &message, &query);
    drop(message);
    drop(query);
    replies.expect(rt, "memory")
}

fn is_answered(rt: &impl Abort, alloc: Global, row: &Row) {
    let (body, outcomes, numbers) = row;
    let replies = replies(rt, alloc, body);
    yes(rt, replies.as_slice().len() == 3, "a reply of each cell");
    for place in 0..3_usize {
        let reply = replies.as_slice()[place];
        yes(rt, reply.cell == CELLS[place], "the cell of a reply");
        same(rt, &reply.outcome, &outcomes[place], "an outcome");
        yes(rt, reply.count == numbers[place], "a number");
    }
}

#[test]
fn replies_name_their_cells(rt: HostRuntime) {
    for row in ROWS {
        is_answered(&rt, rt.alloc(), row);
    }
}
