//! The gate of a link: how fast reports and orders pass, and where the journal is folded.

ghost use Rattle.journal_keeper.specs.Kept.{Covers};

use crate::orders::{cell_count, named_in, order_words};
use crate::shared::{Shared, now_of};
use cell_register::BscId;
use journal_keeper::{KeptUpTo, Untold};
use link_rules::{Repeat, kept_of_order};
use link_worker::{Gate, Load, Passage};
use office::receipt::Receipt;
use server_ports::Port;
use std::io::Write;
use std::net::SocketAddr;
use std::sync::Wait;
use std::sync::ledger::Ledger;
use std::thread;
use std::time::{Clock, Duration};

/// How long a link waits before it is looked again whether it may go on, in milliseconds.
const PAUSE: u64 = 50;

const HELD: &str = "its reports are held back: there were too many";

/// What both sides of a port's link pass. Reports pass no faster than the port's may come in, by their number and by what they cost, and
/// an order that goes out again and again no faster than it may go out. Both wait where no lock is held, so other links and the operator
/// go on. At each passage an event may have been entered, so the journal is folded where that is due. An order waits until its entry is
/// kept. Nothing passes once the link has ended or its port is closing.
#[derive(Drop)]
pub(crate) struct LinkGate<'a, L: Ledger, E: Drop, C> {
    pub(crate) rt: &'a C,
    pub(crate) shared: &'a Shared<L, E>,
    pub(crate) port: &'a Port<L>,
    /// Where the link came from.
    pub(crate) peer: SocketAddr,
}

impl<'a, L: Ledger, E: Write + Drop, C: Wait + Clock> LinkGate<'a, L, E, C> {
    /// Says that an order goes out the third time.
    fn tell_repeat(&self, frame: &[u8]) {
        let alloc = self.shared.alloc;
        let Ok(order) = order_words(alloc, frame) else {
            return;
        };
        if let Ok(text) = format!(in alloc;
            "the BSC doesn't settle: {order} goes out the third time, and no table changed: look at --plmn"
        ) {
            self.shared.tell(self.rt, self.port, &self.peer, text);
        }
    }

    /// How much is kept of the order or the query whose frame this is.
    fn kept_of(&self, frame: &[u8]) -> u64 {
        let cells = cell_count(self.shared.alloc, frame);
        kept_of_order(frame.len() as u64, cells as u64)
    }

    /// Notes what the order or the query names that goes out, where queries are entered that no operator wished for.
    fn note_sent(&self, frame: &[u8]) {
        if self.shared.options.query_ms == 0 {
            return;
        }
        if let Some(named) = named_in(self.shared.alloc, frame) {
            self.port.note_sent(self.rt, named, now_of(self.rt));
        }
    }

    /// Whether the order or the query goes out whose frame this is, as its entry is kept. It waits as long as it has to.
    fn let_out(&self, order: Untold<&[u8]>, kept: &KeptUpTo) -> bool
        requires { Covers kept.now order.place }
    {
        let frame = order.tell(kept);
        for _ in self.rt.forever() {
            if !self.port.is_live(self.rt) {
                return false;
            }
            match self.port.send(self.rt, frame, now_of(self.rt)) {
                Repeat::Go => {
                    self.note_sent(frame);
                    return true;
                }
                Repeat::Tell => {
                    self.note_sent(frame);
                    self.tell_repeat(frame);
                    return true;
                }
                Repeat::Wait { until_ms: _ } => {}
            }
            thread::sleep(self.rt, Duration::from_millis(PAUSE));
        }
        false
    }

    /// Whether the link goes on after a report that answered nothing in flight. It waits as long as it has to.
    fn let_in(&self) -> bool {
        self.port.table_changed(self.rt);
        for _ in self.rt.forever() {
            if !self.port.is_live(self.rt) {
                return false;
            }
            if self.port.take_report(self.rt, now_of(self.rt)) {
                return true;
            }
            if self.port.is_first_report(self.rt) {
                self.shared.tell(self.rt, self.port, &self.peer, HELD);
            }
            thread::sleep(self.rt, Duration::from_millis(PAUSE));
        }
        false
    }
}

impl<'a, L: Ledger, E: Write + Drop, C: Wait + Clock> Gate for LinkGate<'a, L, E, C> {
    fn before_report<R: Wait>(&self, _rt: &R, load: Load) {
        self.shared.begin_report(self.rt, self.port, load);
    }

    fn entered<R: Wait>(&self, _rt: &R, receipt: &Receipt) {
        self.shared.hear_report(self.rt, self.port, receipt);
        self.shared
            .tell_report(self.rt, self.port, &self.peer, receipt);
    }

    fn pass<R: Wait>(&self, _rt: &R, _b: BscId, passage: Passage<'_>) -> bool {
        let kept = match passage {
            Passage::Order(frame, _) => self.kept_of(frame),
            Passage::Reply | Passage::Report => self.shared.end_report(self.rt, self.port),
        };
        self.shared.submitted_large(self.rt, kept);
        match passage {
            Passage::Order(frame, place) => match self.shared.wait_kept(self.rt, place) {
                Some(kept) => self.let_out(Untold::new(place, frame), &kept),
                None => false,
            },
            Passage::Reply => {
                self.port.answered(self.rt, now_of(self.rt));
                self.port.is_live(self.rt)
            }
            Passage::Report => self.let_in(),
        }
    }
}
