//! What no clause says of the two sides of a link: that one link doesn't wait for another.

ghost use Rattle.std.specs.Prelude.{◌≡◌};

use crate::checks::same;
use crate::given_events::{EIGHT, bsc, coast, first_warning};
use crate::given_link::{LINK, edits, enters, first_bsc, linked, opens};
use areas::Selector;
use cell_register::BscId;
use centre_events::event::Event;
use coverage_plan::Edit;
use framing::faulty::FailsAfter;
use framing::{FromRead, FromWrite};
use link_worker::{End, Gate, OpenGate, Passage, read_side, write_side};
use office::desk::Desk;
use office::office::Office;
use office::question::Question;
use office::seen::SeenValue;
use std::alloc::Global;
use std::marker::Brand;
use std::process::Abort;
use std::sync::ledger::{Blank, Ledger};
use std::sync::{Mutex, Wait};

/// The generation of the second BSC's link, which comes up in the tenth entry.
const SECOND_LINK: u64 = 10;

/// A WRITE-REPLACE COMPLETE of the first version that names no cell.
const COMPLETE: [u8; 10] = [0x02, 0x00, 0x00, 0x06, 0x0e, 0x11, 0x12, 0x03, 0xc0, 0x00];

/// How many cells the warning is on air in.
fn on_air<L: Ledger, R: Wait>(rt: &R, office: &Office<L>, desk: &Desk<L>) -> u64 {
    match office.look(rt, desk, Question::Total(first_warning())) {
        Ok(seen) => {
            let cells = match &seen.value {
                SeenValue::Numbers(numbers) => numbers.on_air,
                _ => 0,
            };
            drop(seen);
            cells
        }
        Err(_) => 0,
    }
}

/// Serves the second BSC's link before an order of the first BSC is written.
#[derive(Drop)]
struct ServesSecond<'o, L: Ledger> {
    alloc: Global,
    office: &'o Office<L>,
    first: BscId,
    second: BscId,
    desk: Mutex<Desk<L>>,
}

impl<'o, L: Ledger> ServesSecond<'o, L> {
    /// The second BSC's order is sent over a connection that takes ten octets of it, and its COMPLETE is read. The answer is whether
    /// the warning is on air in that BSC's cell then.
    fn serves<R: Wait>(&self, rt: &R) -> bool {
        let (alloc, office, b) = (self.alloc, self.office, self.second);
        let mut desk = self.desk.lock(rt);
        let mut sink = FailsAfter::new(FromWrite::new(Vec::new(alloc)), 10);
        let written = write_side(
            rt,
            alloc,
            office,
            &mut desk,
            b,
            SECOND_LINK,
            &mut sink,
            &OpenGate,
        );
        let mut source = FromRead::new(COMPLETE.as_slice());
        let read = read_side(
            rt,
            alloc,
            office,
            &mut desk,
            b,
            SECOND_LINK,
            &mut source,
            &OpenGate,
        );
        written == End::WriteFault && read == End::PeerEnded && on_air(rt, office, &desk) == 1
    }
}

impl<'o, L: Ledger> Gate for ServesSecond<'o, L> {
    fn pass<R: Wait>(&self, rt: &R, b: BscId, _passage: Passage<'_>) -> bool {
        b == self.first && self.serves(rt)
    }
}

/// A second BSC with a cell that the warning covers. Its link is up.
fn links_second<L: Ledger, R: Wait + Abort>(
    rt: &R,
    alloc: Global,
    office: &Office<L>,
    desk: &mut Desk<L>,
    b: BscId,
) {
    let put = Edit::Put(coast(rt, alloc), Selector::Cell(EIGHT));
    edits(rt, office, desk, Edit::AddBsc(b));
    edits(rt, office, desk, Edit::AddCell(EIGHT, b));
    edits(rt, office, desk, put);
    enters(rt, office, desk, Event::LinkUp(b));
}

/// How the first BSC's link ends, over a connection that takes no octet. The gate cuts it where the second BSC isn't served.
fn overlaps<L: Ledger, R: Wait + Abort>(rt: &R, alloc: Global, blank: Blank) -> End
    requires name { blank.name ≡ L.name }
    requires parts { blank.parts ≡ L.parts }
    requires desks { blank.parts ≡ 1025 }
{
    let (first, second) = (first_bsc(rt), bsc(rt, 2));
    let (office, mut desk) = linked::<L, R>(rt, alloc, blank, 1000);
    links_second(rt, alloc, &office, &mut desk, second);
    let gate = ServesSecond {
        alloc,
        office: &office,
        first,
        second,
        desk: Mutex::new(opens(rt, &office)),
    };
    let mut sink = FailsAfter::new(FromWrite::new(Vec::new(alloc)), 0);
    write_side(rt, alloc, &office, &mut desk, first, LINK, &mut sink, &gate)
}

/// While the order of the first BSC is held before it is written, the second BSC's order is sent and answered.
#[test]
fn one_link_does_not_wait_for_another(rt: HostRuntime) {
    let end = overlaps::<Brand, _>(&rt, rt.alloc(), Blank::new(1025));
    same(&rt, end, End::WriteFault, "the second link waits");
}
