//! How fast the reports and the connections of a port come in, and how fast it is said what they came to.

use crate::entered::Entered;
use crate::figures::Figures;
use crate::port::Port;
use link_rules::Cost;
use link_worker::Load;
use std::sync::Wait;
use std::sync::ledger::Ledger;

impl<L: Ledger> Port<L> {
    /// By which figures reports are charged from now on.
    pub fn set_figures<R: Wait>(&self, rt: &R, figures: Figures) {
        self.pace.lock(rt).set_figures(figures);
    }

    /// A report of that load is to come in. The answer is what it costs, which isn't charged yet.
    pub fn begin_report<R: Wait>(&self, rt: &R, load: Load) -> Cost {
        self.pace.lock(rt).begin_report(load)
    }

    /// Whether a report of that cost may come in now, which is charged then.
    pub fn take_cost<R: Wait>(&self, rt: &R, cost: Cost, now: u64) -> bool {
        self.pace.lock(rt).take_cost(cost, now)
    }

    /// The report has the turn of the heavy ones.
    pub fn take_turn<R: Wait>(&self, rt: &R) {
        self.pace.lock(rt).take_turn();
    }

    /// The report was submitted, or it is none any more. The answer is what was known of it.
    pub fn end_report<R: Wait>(&self, rt: &R) -> Entered {
        self.pace.lock(rt).end_report()
    }

    /// Whether it is to be said that reports are held back for what they cost.
    pub fn is_first_cost<R: Wait>(&self, rt: &R) -> bool {
        self.pace.lock(rt).costs().is_first()
    }

    /// Whether a report may come in now, which is counted then.
    pub fn take_report<R: Wait>(&self, rt: &R, now: u64) -> bool {
        self.pace.lock(rt).reports().take(now)
    }

    /// Whether it is to be said that reports are held back.
    pub fn is_first_report<R: Wait>(&self, rt: &R) -> bool {
        self.pace.lock(rt).reports().is_first()
    }

    /// Whether a connection may get the link now, which is counted then.
    pub fn take_connection<R: Wait>(&self, rt: &R, now: u64) -> bool {
        self.pace.lock(rt).connections().take(now)
    }

    /// Whether it is to be said that connections are held back.
    pub fn is_first_connection<R: Wait>(&self, rt: &R) -> bool {
        self.pace.lock(rt).connections().is_first()
    }

    /// Whether it may be said now that a connection is closed, which is counted then.
    pub fn take_closed<R: Wait>(&self, rt: &R, now: u64) -> bool {
        self.pace.lock(rt).closed().take(now)
    }

    /// Whether it is to be said that more connections are closed than are said.
    pub fn is_first_closed<R: Wait>(&self, rt: &R) -> bool {
        self.pace.lock(rt).closed().is_first()
    }

    /// Whether it may be said now what a report came to, which is counted then.
    pub fn take_told<R: Wait>(&self, rt: &R, now: u64) -> bool {
        self.pace.lock(rt).told().take(now)
    }

    /// Whether it is to be said that reports came to more than is said.
    pub fn is_first_told<R: Wait>(&self, rt: &R) -> bool {
        self.pace.lock(rt).told().is_first()
    }
}
