//! Reports are charged by what they may cost, before they come in.

use crate::shared::{Shared, now_of};
use centre_past::lists::BscRow;
use link_rules::Cost;
use link_worker::Load;
use server_ports::{Figures, Port};
use std::io::Write;
use std::sync::Wait;
use std::sync::ledger::Ledger;
use std::thread;
use std::time::{Clock, Duration};

/// How long a link waits before it is looked again whether its report may come in, in milliseconds.
const PAUSE: u64 = 50;

const HELD: &str = "its reports are held back: they cost too much";

/// How many cells the rows have for the BSC of the port.
fn cells_of<L: Ledger>(rows: &[BscRow], port: &Port<L>) -> usize {
    match rows.iter().find(|row| row.bsc == port.bsc) {
        Some(row) => row.cells,
        None => 0,
    }
}

impl<L: Ledger, E: Write + Drop> Shared<L, E> {
    /// Has it said that the link is held back, if it wasn't.
    fn tell_held<R: Wait + Clock>(&self, rt: &R, port: &Port<L>) {
        if !port.is_first_cost(rt) {
            return;
        }
        if let Some(peer) = port.peer(rt) {
            self.tell(rt, port, &peer, HELD);
        }
    }

    /// Waits until a report of that load may come in, or the link has ended. The answer is what it costs.
    fn wait_cost<R: Wait + Clock>(&self, rt: &R, port: &Port<L>, load: Load) -> Cost {
        for _ in rt.forever() {
            let cost = port.begin_report(rt, load);
            if port.take_cost(rt, cost, now_of(rt)) || !port.is_live(rt) {
                return cost;
            }
            self.tell_held(rt, port);
            thread::sleep(rt, Duration::from_millis(PAUSE));
        }
        port.begin_report(rt, load)
    }

    /// Waits for the turn of the heavy reports, until the port is closing.
    fn wait_heavy_turn<R: Wait + Clock>(&self, rt: &R, port: &Port<L>) {
        for _ in rt.forever() {
            if self.heavy_turn.take(rt, Duration::from_millis(PAUSE)) {
                port.take_turn(rt);
                return;
            }
            if port.is_closing(rt) {
                return;
            }
        }
    }

    /// Waits until a report of that load may come in, and where it is heavy until no other heavy one is under way. `end_report` has to
    /// follow once it was submitted. One that was read before its link ended isn't charged, but has its turn, and counts for the fold.
    /// Nothing waits where the port is closing.
    pub(crate) fn begin_report<R: Wait + Clock>(&self, rt: &R, port: &Port<L>, load: Load) {
        let cost = self.wait_cost(rt, port, load);
        if cost.is_heavy() {
            self.wait_heavy_turn(rt, port);
        }
    }
}

impl<L: Ledger, E: Drop> Shared<L, E> {
    /// The report was submitted, or the link has ended. The next heavy one has its turn after a pause, in which others get the lock. The
    /// answer is how many octets and cells are kept of it.
    pub(crate) fn end_report<R: Wait + Clock>(&self, rt: &R, port: &Port<L>) -> u64 {
        let entered = port.end_report(rt);
        if entered.had_turn {
            thread::sleep(rt, Duration::from_millis(entered.pause_ms));
            self.heavy_turn.give(rt);
        }
        entered.kept
    }

    /// Looks how many cells each BSC has and how many warnings there are: by that reports are charged from now on. Where memory runs out
    /// or the centre is stale, they are charged as before.
    pub(crate) fn look_at_figures<R: Wait>(&self, rt: &R) {
        let Ok(surveyed) = self.office.survey(rt) else {
            return;
        };
        if let Some(counts) = surveyed.survey.status.counts {
            let rows = surveyed.survey.bscs.as_slice();
            for port in self.ports.as_slice() {
                let figures = Figures {
                    cells: cells_of(rows, port) as u64,
                    warnings: counts.warnings as u64,
                };
                port.set_figures(rt, figures);
            }
        }
        drop(surveyed);
    }
}
