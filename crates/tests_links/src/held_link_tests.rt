//! What no clause says of two links at once, over TCP, each in threads of its own: one goes on while the other is held.

ghost use Rattle.std.specs.Prelude.{◌≡◌};

use crate::checks::{same, yes};
use crate::given_events::{EIGHT, bsc, coast, first_warning};
use crate::given_link::{COMPLETE, LINK, edits, enters, first_bsc, linked, opens};
use areas::Selector;
use cell_register::BscId;
use centre_events::event::Event;
use coverage_plan::Edit;
use framing::{FromRead, FromWrite};
use link_worker::{End, Gate, OpenGate, Passage, read_side, write_side};
use office::desk::Desk;
use office::office::Office;
use office::question::Question;
use office::seen::SeenValue;
use std::alloc::Global;
use std::io::{Read, Write};
use std::marker::Brand;
use std::net::{Net, Shutdown, TcpListener, TcpStream};
use std::process::Abort;
use std::rt::Clock;
use std::sync::ledger::{Blank, Ledger};
use std::sync::{Mutex, Wait};
use std::thread;
use std::thread::Threads;
use std::time::Duration;

/// The generation of the second BSC's link, which comes up in the tenth entry.
const SECOND_LINK: u64 = 10;

/// The WRITE-REPLACE COMPLETE of the first version in cell 100 8.
const COMPLETE_8: [u8; 20] = [
    0x02, 0x00, 0x00, 0x10, 0x0e, 0x11, 0x12, 0x03, 0xc0, 0x00, 0x04, 0x00, 0x05, 0x01, 0x00, 0x64,
    0x00, 0x08, 0x12, 0x00,
];

/// How many octets the frame of an order for one cell has, with one page.
const ORDER_LENGTH: usize = 116;

/// A link of a BSC, with both ends of its connection.
#[derive(Drop)]
struct TcpLink {
    b: BscId,
    generation: u64,
    /// What the BSC answers its order.
    reply: [u8; 20],
    centre_end: TcpStream,
    bsc_end: TcpStream,
}

/// How the two sides of a link ended, the one that writes first, and in how many cells the warning was on air once the reply was
/// read.
type Ended = (End, End, u64);

/// How many cells the warning is on air in.
fn on_air<L: Ledger, R: Wait>(rt: &R, office: &Office<L>, desk: &Desk<L>) -> u64 {
    match office.look(rt, desk, Question::Total(first_warning())) {
        Ok(seen) => {
            let cells = match &seen.value {
                SeenValue::Numbers(numbers) => numbers.on_air,
                _ => 0,
            };
            drop(seen);
            cells
        }
        Err(_) => 0,
    }
}

/// Holds a link before its order is written, until the warning is on air in a cell of another link; for 30,000 turns at most.
#[derive(Drop)]
struct HoldsUntilOnAir<'o, L: Ledger, C> {
    rt: &'o C,
    office: &'o Office<L>,
    desk: Mutex<Desk<L>>,
}

impl<'o, L: Ledger, C: Wait + Clock> Gate for HoldsUntilOnAir<'o, L, C> {
    fn pass<R: Wait>(&self, rt: &R, _b: BscId, _passage: Passage<'_>) -> bool {
        let desk = self.desk.lock(rt);
        for _turn in 0..30_000 {
            if on_air(rt, self.office, &desk) > 0 {
                return true;
            }
            thread::sleep(self.rt, Duration::from_millis(1));
        }
        false
    }
}

/// A link over TCP on this machine.
fn connected<R: Abort + Net<Stream = TcpStream, Listener = TcpListener>>(
    rt: &R,
    b: BscId,
    generation: u64,
    reply: [u8; 20],
) -> TcpLink {
    let listener = TcpListener::bind(rt, "127.0.0.1:0").expect(rt, "a port");
    let address = listener.local_addr().expect(rt, "its address");
    let bsc_end = TcpStream::connect(rt, address).expect(rt, "a connection");
    let (centre_end, _) = listener.accept().expect(rt, "it is accepted");
    let patience = Some(Duration::from_secs(50));
    bsc_end.set_read_timeout(patience).expect(rt, "a time");
    TcpLink {
        b,
        generation,
        reply,
        centre_end,
        bsc_end,
    }
}

/// How the side ends that writes.
fn writes<L: Ledger, G: Gate, R: Wait + Abort>(
    rt: &R,
    alloc: Global,
    office: &Office<L>,
    link: &TcpLink,
    gate: &G,
) -> End {
    let stream = link.centre_end.try_clone().expect(rt, "the same end");
    let mut desk = opens(rt, office);
    let mut sink = FromWrite::new(stream);
    write_side(
        rt,
        alloc,
        office,
        &mut desk,
        link.b,
        link.generation,
        &mut sink,
        gate,
    )
}

/// The BSC takes its order, answers it, and sends nothing more.
fn answers(rt: &impl Abort, link: &TcpLink) {
    let mut stream = &link.bsc_end;
    let mut order = [0; ORDER_LENGTH];
    stream.read_exact(&mut order).expect(rt, "an order comes");
    stream.write_all(&link.reply).expect(rt, "a reply is sent");
    let ended = link.bsc_end.shutdown(Shutdown::Write);
    ended.expect(rt, "the stream ends");
}

/// The BSC answers its order, which is read until the stream ends; then the link is lost.
fn reads<L: Ledger, R: Wait + Abort>(
    rt: &R,
    alloc: Global,
    office: &Office<L>,
    link: &TcpLink,
) -> (End, u64) {
    answers(rt, link);
    let stream = link.centre_end.try_clone().expect(rt, "the same end");
    let mut desk = opens(rt, office);
    let mut source = FromRead::new(stream);
    let (b, generation) = (link.b, link.generation);
    let end = read_side(
        rt,
        alloc,
        office,
        &mut desk,
        b,
        generation,
        &mut source,
        &OpenGate,
    );
    let cells = on_air(rt, office, &desk);
    enters(rt, office, &mut desk, Event::LinkDown(b, generation));
    (end, cells)
}

/// Both sides of a link, each in a thread.
fn serves<L: Ledger + Send + Sync, G: Gate + Sync, R: Threads + Wait + Clock + Abort + Sync>(
    rt: &R,
    alloc: Global,
    office: &Office<L>,
    link: &TcpLink,
    gate: &G,
) -> Ended {
    let (written, read) = thread::join(
        rt,
        move || writes(rt, alloc, office, link, gate),
        move || reads(rt, alloc, office, link),
    );
    (written, read.0, read.1)
}

/// A second BSC with a cell that the warning covers. Its link is up.
fn links_second<L: Ledger, R: Wait + Abort>(
    rt: &R,
    alloc: Global,
    office: &Office<L>,
    desk: &mut Desk<L>,
    b: BscId,
) {
    let put = Edit::Put(coast(rt, alloc), Selector::Cell(EIGHT));
    edits(rt, office, desk, Edit::AddBsc(b));
    edits(rt, office, desk, Edit::AddCell(EIGHT, b));
    edits(rt, office, desk, put);
    enters(rt, office, desk, Event::LinkUp(b));
}

/// How the first link ends, which the gate holds until the warning is on air over the second one, and how the second one does.
fn overlaps<
    L: Ledger + Send + Sync,
    R: Threads + Wait + Clock + Abort + Sync + Net<Stream = TcpStream, Listener = TcpListener>,
>(rt: &R, alloc: Global, blank: Blank) -> (Ended, Ended)
    requires name { blank.name ≡ L.name }
    requires parts { blank.parts ≡ L.parts }
    requires desks { blank.parts ≡ 1025 }
{
    let (b, second) = (first_bsc(rt), bsc(rt, 2));
    let (office, mut desk) = linked::<L, R>(rt, alloc, blank, 1000);
    links_second(rt, alloc, &office, &mut desk, second);
    let gate = HoldsUntilOnAir {
        rt,
        office: &office,
        desk: Mutex::new(opens(rt, &office)),
    };
    let first_link = connected(rt, b, LINK, COMPLETE);
    let second_link = connected(rt, second, SECOND_LINK, COMPLETE_8);
    let shared = &office;
    let held = &first_link;
    let other = &second_link;
    let holds = &gate;
    thread::join(
        rt,
        move || serves(rt, alloc, shared, held, holds),
        move || serves(rt, alloc, shared, other, &OpenGate),
    )
}

/// While the order of the first BSC is held, the warning goes on air over the second BSC's link. Then it does over the first one.
#[test]
fn one_link_goes_on_while_another_is_held(rt: HostRuntime) {
    let (held, other) = overlaps::<Brand, _>(&rt, rt.alloc(), Blank::new(1025));
    let ends = (End::Superseded, End::PeerEnded);
    same(&rt, (other.0, other.1), ends, "the second link");
    yes(&rt, other.2 > 0, "the second link's cell");
    same(&rt, (held.0, held.1), ends, "the first link");
    same(&rt, held.2, 2, "both cells");
}
