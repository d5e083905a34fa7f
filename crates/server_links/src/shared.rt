//! What the threads of a server share.

ghost use Rattle.std.specs.Prelude.{IfSome};
ghost use Rattle.journal_keeper.specs.Kept.{Covers};

use crate::broadcasts::BroadcastWatch;
use crate::heavy_turn::HeavyTurn;
use crate::options::LinkOptions;
use centre_events::refusal::Refusal;
use journal_keeper::{Kept, KeptUpTo, wait_kept};
use link_rules::FoldPace;
use office::office::Office;
use server_errors::{Clearance, Errors, Level, tell_link_at};
use server_ports::Port;
use std::alloc::Global;
use std::fmt::Display;
use std::io::Write;
use std::net::SocketAddr;
use std::sync::ledger::Ledger;
use std::sync::{Condvar, Mutex, Wait};
use std::time::{Clock, Duration, SystemTime};

/// The office, the ports, and where it is said what happens to them.
#[derive(Drop)]
pub struct Shared<L: Ledger, E: Drop> {
    pub alloc: Global,
    pub office: Office<L>,
    pub ports: Vec<Port<L>>,
    pub errors: Errors<E>,
    /// By which rules links go on.
    pub options: LinkOptions,
    /// When the journal is folded. Who holds it folds it, so one thread does at a time.
    pub folds: Mutex<FoldPace>,
    /// Which link has the turn of the heavy reports.
    pub heavy_turn: HeavyTurn,
    /// What replies said of broadcasts.
    pub broadcasts: BroadcastWatch,
    /// How far the journal is kept in a file, where it is. Then the thread that keeps it folds it, where another asks for that.
    pub kept: Option<Kept<Result<u64, Refusal>>>,
    /// Whether a simulated BSC connects to each port.
    pub with_simulator: bool,
    /// Whether the server ends.
    pub closing: Mutex<bool>,
    pub closed: Condvar,
}

impl<L: Ledger, E: Write + Drop> Shared<L, E> {
    /// Has a line of a link said, which is a warning.
    pub(crate) fn tell<R: Wait + Clock, D: Display + Drop>(
        &self,
        rt: &R,
        port: &Port<L>,
        peer: &SocketAddr,
        what: D,
    ) {
        self.tell_at(rt, port, peer, Level::Warning, what);
    }

    /// Has a line of a link said, at that level.
    pub(crate) fn tell_at<R: Wait + Clock, D: Display + Drop>(
        &self,
        rt: &R,
        port: &Port<L>,
        peer: &SocketAddr,
        level: Level,
        what: D,
    ) {
        tell_link_at(rt, self.alloc, &self.errors, level, port.bsc, peer, what);
    }
}

impl<L: Ledger, E: Drop> Shared<L, E> {
    /// Waits until all entries are kept that there are now, and all up to the place, where a file is kept. `None` where the file has
    /// failed: then nobody is told of them.
    pub fn wait_kept<R: Wait>(&self, rt: &R, place: u64) -> Option<KeptUpTo>
        ensures { IfSome result (λ kept. Covers kept place) }
    {
        let last = self.office.position(rt).max(place);
        let kept = wait_kept(rt, &self.kept, last)?;
        kept.tell_covered(last, place);
        Some(kept)
    }

    /// The last entry that is kept in the file; `None` where no file is kept.
    pub fn kept_place<R: Wait>(&self, rt: &R) -> Option<u64> {
        self.kept.as_ref().map(|kept| kept.place(rt))
    }

    /// Whether the file of the journal has failed.
    pub fn has_failed<R: Wait>(&self, rt: &R) -> bool {
        match &self.kept {
            Some(kept) => kept.has_failed(rt),
            None => false,
        }
    }

    /// Has the thread end that keeps the journal, once all entries are kept.
    pub fn end_keeping<R: Wait>(&self, rt: &R) {
        if let Some(kept) = &self.kept {
            kept.end(rt);
            self.office.interrupt(rt);
        }
    }

    /// The server ends: who waits for that goes on.
    pub fn close<R: Wait>(&self, rt: &R) {
        *self.closing.lock(rt) = true;
        self.closed.notify_all();
    }

    /// Whether the server ends.
    pub fn is_closing<R: Wait>(&self, rt: &R) -> bool {
        *self.closing.lock(rt)
    }

    /// Waits until the server ends.
    pub fn wait_closed<R: Wait>(&self, rt: &R) {
        let closing = self.closing.lock(rt);
        drop(self.closed.wait_while(rt, closing, |closing| !*closing));
    }

    /// Waits so long, or until the server ends. The answer is whether it does.
    pub(crate) fn is_closed_within<R: Wait + Clock>(&self, rt: &R, time: Duration) -> bool {
        let (closing, _) = self
            .closed
            .wait_timeout_while(rt, self.closing.lock(rt), time, |closing| !*closing);
        *closing
    }
}

/// The time, in milliseconds of a clock that goes on; 0 where it can't be read.
pub(crate) fn now_of<R: Clock>(rt: &R) -> u64 {
    match rt.monotonic() {
        Ok(now) => u64::try_from(now.as_millis()).unwrap_or(u64::MAX),
        Err(_) => 0,
    }
}

/// The time, in seconds after 1970-01-01T00:00:00Z; 0 where it can't be read.
pub fn second_of<R: Clock>(rt: &R) -> u64 {
    let Ok(now) = SystemTime::now(rt) else {
        return 0;
    };
    match now.duration_since(SystemTime::UNIX_EPOCH) {
        Ok(since) => since.as_secs(),
        Err(_) => 0,
    }
}

impl<L: Ledger, E: Drop> Clearance for Shared<L, E> {
    fn may_tell<R: Wait>(&self, rt: &R) -> bool {
        self.wait_kept(rt, 0).is_some()
    }
}
