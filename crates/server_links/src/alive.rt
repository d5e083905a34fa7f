//! Whether the BSC of a link is alive, as the side that reads sees it.

use crate::incoming::Incoming;
use crate::shared::now_of;
use link_resets::{AliveSeen, alive_complete, alive_frame};
use link_rules::AliveStep;
use server_ports::Shut;
use std::io::Write;
use std::sync::Wait;
use std::sync::ledger::Ledger;
use std::time::Clock;

impl<'a, L: Ledger, E: Write + Drop, C: Wait + Clock> Incoming<'a, L, E, C> {
    /// Writes a frame of the link itself, unless one of the write side's is half written. The answer is whether it was tried. A
    /// write that fails is seen by the next read.
    fn write_alive(&mut self, frame: &[u8]) -> bool {
        if !self.port.begin_alive(self.rt) {
            return false;
        }
        let mut stream = self.stream;
        let _ = stream.write_all(frame);
        self.port.end_alive(self.rt);
        true
    }

    /// Answers a KEEP ALIVE of the BSC's, where that is still to be done.
    fn answer_alive(&mut self) {
        if self.owes && self.write_alive(&alive_complete()) {
            self.owes = false;
        }
    }

    /// Sends a KEEP ALIVE.
    fn ask_alive(&mut self) {
        let frame = alive_frame(self.shared.options.alive_seconds);
        if self.write_alive(&frame) {
            self.port.asked_alive(self.rt, now_of(self.rt));
        }
    }

    /// What stands in octets that were read, of being alive. Where they can't be looked at, nothing is seen any more.
    fn seen_alive(&mut self, octets: &[u8]) -> Option<AliveSeen> {
        let seen = match &mut self.alive {
            Some(watch) => watch.see(octets),
            None => return None,
        };
        match seen {
            Ok(seen) => Some(seen),
            Err(_) => {
                self.alive = None;
                None
            }
        }
    }

    /// Octets were read: the BSC is alive.
    pub(crate) fn look_at(&mut self, octets: &[u8]) {
        if let Some(seen) = self.seen_alive(octets) {
            self.port.heard(self.rt, now_of(self.rt), seen.answers);
            self.owes = self.owes || seen.asks;
            self.answer_alive();
        }
    }

    /// Says that a KEEP ALIVE isn't answered.
    fn tell_unanswered(&self, seconds: u64) {
        if let Ok(text) = format!(in self.shared.alloc;
            "no answer to a KEEP ALIVE for {seconds} s: the BSC may know none, so only TCP notices whether it is there"
        ) {
            self.shared.tell(self.rt, self.port, &self.peer, text);
        }
    }

    /// Nothing was read for a second.
    pub(crate) fn look_at_silence(&mut self) {
        match self.port.look_alive(self.rt, now_of(self.rt)) {
            AliveStep::Wait => self.answer_alive(),
            AliveStep::Ask => self.ask_alive(),
            AliveStep::Tell { seconds } => self.tell_unanswered(seconds),
            AliveStep::Cut { seconds } => {
                self.port.shut(self.rt, Shut::Silent { seconds });
            }
        }
    }
}
