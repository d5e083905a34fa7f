//! The port of one BSC.

ghost use Rattle.std.specs.Prelude.{◌≡◌, false};
ghost use Rattle.server_ports.specs.Causes.{is_cut};

use crate::connection::Connection;
use crate::ended::Ended;
use crate::job::Job;
use crate::named::Named;
use crate::port_pace::PortPace;
use crate::port_state::PortState;
use crate::shut::Shut;
use crate::side_end::SideEnd;
use broadcast_watch::Silences;
use cell_register::BscId;
use libc::net::{SHUT_RDWR, shutdown};
use link_rules::{AliveStep, Overdue, Query, Repeat, Verdict, Version};
use office::desk::Desk;
use std::alloc::Global;
use std::net::{IpAddr, SocketAddr, TcpListener, TcpStream};
use std::os::fd::AsRawFd;
use std::sync::ledger::Ledger;
use std::sync::{Condvar, Mutex, Wait};

/// A port: where its BSC connects, the two desks of its links, and what its replies say of broadcasts.
///
/// Times are in milliseconds of a clock that goes on. No lock is held while somebody waits for a time or a connection.
pub struct Port<L: Ledger> {
    pub bsc: BscId,
    pub listener: TcpListener,
    /// Where a connection to the port is made from this process.
    pub address: SocketAddr,
    pub read_desk: Mutex<Option<Desk<L>>>,
    pub write_desk: Mutex<Option<Desk<L>>>,
    /// Which numbers of broadcasts stand still.
    pub silences: Mutex<Silences>,
    pub(crate) pace: Mutex<PortPace>,
    state: Mutex<PortState>,
    changed: Condvar,
}

/// Written out, so that no crate above proves anew how its parts are dropped.
impl<L: Ledger> Drop for Port<L> {
    fn drop(self) {
        let Port {
            bsc: _bsc,
            listener: _listener,
            address: _address,
            read_desk: _read_desk,
            write_desk: _write_desk,
            silences: _silences,
            pace: _pace,
            state: _state,
            changed: _changed,
        } = self;
    }
}

impl<L: Ledger> Port<L> {
    pub fn new(
        alloc: Global,
        bsc: BscId,
        listener: TcpListener,
        address: SocketAddr,
        pace: PortPace,
    ) -> Port<L> {
        Port {
            bsc,
            listener,
            address,
            read_desk: Mutex::new(None),
            write_desk: Mutex::new(None),
            silences: Mutex::new(Silences::new(alloc)),
            pace: Mutex::new(pace),
            state: Mutex::new(PortState::new()),
            changed: Condvar::new(),
        }
    }

    pub fn is_closing<R: Wait>(&self, rt: &R) -> bool {
        self.state.lock(rt).is_closing()
    }

    /// Whether a link is up that nothing has ended, so that its sides may go on.
    pub fn is_live<R: Wait>(&self, rt: &R) -> bool {
        self.state.lock(rt).is_live()
    }

    /// Whether a link is up.
    pub fn is_up<R: Wait>(&self, rt: &R) -> bool {
        self.generation(rt).is_some()
    }

    /// Where the link came from that is up, or is to come up.
    pub fn peer<R: Wait>(&self, rt: &R) -> Option<SocketAddr> {
        self.state.lock(rt).peer()
    }

    /// Where the link came from that has this generation, or is coming up, unless something has ended it.
    pub fn peer_of<R: Wait>(&self, rt: &R, generation: u64) -> Option<SocketAddr> {
        self.state.lock(rt).peer_of(generation)
    }

    /// The generation of the link that is up.
    pub fn generation<R: Wait>(&self, rt: &R) -> Option<u64> {
        self.state.lock(rt).generation()
    }

    /// What would be done with a connection from that address. `is_named` is whether the list of peers names it; `None` where there
    /// is no list.
    pub fn verdict<R: Wait>(&self, rt: &R, from: IpAddr, is_named: Option<bool>) -> Verdict {
        self.state.lock(rt).verdict(from, is_named)
    }

    /// Takes a connection as the next that gets the link, and ends the link that is up; or closes it. The answer is what was done.
    /// Where the port is closing, it is closed.
    pub fn offer<R: Wait>(
        &self,
        rt: &R,
        connection: Connection,
        is_named: Option<bool>,
    ) -> Verdict {
        let verdict = self.state.lock(rt).offer(connection, is_named);
        self.changed.notify_all();
        verdict
    }

    /// Waits until there is a connection that may get the link; `false` once the port is closing.
    pub fn wait_connection<R: Wait>(&self, rt: &R) -> bool {
        let state = self.changed.wait_while(rt, self.state.lock(rt), |state| {
            !state.has_next() && !state.is_closing()
        });
        !state.is_closing()
    }

    /// The newest connection that may get the link, if there is one; its link begins then.
    pub fn next_connection<R: Wait>(&self, rt: &R) -> Option<Connection> {
        self.state.lock(rt).take_next()
    }

    /// The link has come up with this generation: nothing is out, and no order went out again.
    pub fn name_link<R: Wait>(&self, rt: &R, generation: u64, now: u64) {
        self.state.lock(rt).name(generation);
        self.pace.lock(rt).begin(now);
    }

    /// Has the write side of the link begin. `false` where something has ended the link.
    pub fn begin<R: Wait>(&self, rt: &R, job: Job) -> bool {
        let begun = self.state.lock(rt).begin_writing(job);
        self.changed.notify_all();
        begun
    }

    /// The read side has ended: the connection is shut, so that the write side ends too, and nothing is out any more. The answer is what
    /// was known before.
    pub fn end_read<R: Wait>(&self, rt: &R, now: u64) -> Ended {
        let ended = self.state.lock(rt).end_read();
        self.changed.notify_all();
        let mut pace = self.pace.lock(rt);
        pace.begin(now);
        pace.end(now);
        ended
    }

    /// Waits until the write side of the link has ended too, where it had begun, and lets the link go.
    pub fn finish<R: Wait>(&self, rt: &R) {
        let mut state = self
            .changed
            .wait_while(rt, self.state.lock(rt), |state| state.is_writing());
        state.end_link();
    }

    /// Waits for a link whose write side has to begin; `None` once the port is closing.
    pub fn next_job<R: Wait>(&self, rt: &R) -> Option<Job> {
        let mut state = self.changed.wait_while(rt, self.state.lock(rt), |state| {
            !state.has_job() && !state.is_closing()
        });
        state.take_job()
    }

    /// The write side of the link has ended: the connection is shut, so that the read side ends too.
    pub fn end_write<R: Wait>(&self, rt: &R, end: SideEnd) {
        self.state.lock(rt).end_write(end);
        self.changed.notify_all();
    }

    /// Ends the link that is up, whichever it is, and says why. `false` where there is none. An operator cuts one link alone: see `cut`.
    pub fn shut<R: Wait>(&self, rt: &R, shut: Shut) -> bool
        requires { is_cut shut ≡ false }
    {
        self.state.lock(rt).shut(shut)
    }

    /// Ends the link that is up, where it has this generation: the operator cut it. `false` where there is none.
    pub fn cut<R: Wait>(&self, rt: &R, generation: u64) -> bool {
        self.state.lock(rt).cut(generation)
    }

    /// Whether an order or a query may go out whose frame this is, or has to wait. Where it may, it is out from now on.
    pub fn send<R: Wait>(&self, rt: &R, frame: &[u8], now: u64) -> Repeat {
        self.pace.lock(rt).send(frame, now)
    }

    /// An order or a query went out that names these.
    pub fn note_sent<R: Wait>(&self, rt: &R, named: Named, now: u64) {
        self.pace.lock(rt).note_sent(named, now);
    }

    /// What was out is answered.
    pub fn answered<R: Wait>(&self, rt: &R, now: u64) {
        self.pace.lock(rt).answered(now);
    }

    /// The query that is due where these versions are on air and the link is idle, if one is. It counts as wished for from now on.
    pub fn next_query<R: Wait>(&self, rt: &R, versions: &[Version], now: u64) -> Option<Query> {
        self.pace.lock(rt).next_query(versions, now)
    }

    /// The query isn't wished for, since the link has something else to do.
    pub fn unwish<R: Wait>(&self, rt: &R, query: Query, now: u64) {
        self.pace.lock(rt).unwish(query, now);
    }

    /// A report came by which tables may change.
    pub fn table_changed<R: Wait>(&self, rt: &R) {
        self.pace.lock(rt).changed();
    }

    /// A RESET is out from now on. `second` is the time in seconds after 1970-01-01T00:00:00Z.
    pub fn reset<R: Wait>(&self, rt: &R, now: u64, second: u64) {
        self.pace.lock(rt).reset(now, second);
    }

    /// Since when a RESET is out, in seconds after 1970-01-01T00:00:00Z; `None` where none is.
    pub fn reset_since<R: Wait>(&self, rt: &R) -> Option<u64> {
        self.pace.lock(rt).reset_since()
    }

    /// The RESET is answered.
    pub fn reset_done<R: Wait>(&self, rt: &R) {
        self.pace.lock(rt).reset_done();
    }

    /// Whether the reply to what is out is overdue.
    pub fn look<R: Wait>(&self, rt: &R, now: u64) -> Overdue {
        self.pace.lock(rt).look(now)
    }

    /// Since when an order or a query is out; `None` where nothing is.
    pub fn out_since<R: Wait>(&self, rt: &R) -> Option<u64> {
        self.pace.lock(rt).out_since()
    }

    /// When the last link ended; `None` where one has come up since, or none ever has.
    pub fn ended<R: Wait>(&self, rt: &R) -> Option<u64> {
        self.pace.lock(rt).ended()
    }

    /// Whether the answer to a RESET is overdue.
    pub fn look_reset<R: Wait>(&self, rt: &R, now: u64) -> Overdue {
        self.pace.lock(rt).look_reset(now)
    }

    /// Something was read from the BSC; `is_answer` where an answer to a KEEP ALIVE is among it.
    pub fn heard<R: Wait>(&self, rt: &R, now: u64, is_answer: bool) {
        self.pace.lock(rt).heard(now, is_answer);
    }

    /// A KEEP ALIVE went out.
    pub fn asked_alive<R: Wait>(&self, rt: &R, now: u64) {
        self.pace.lock(rt).asked_alive(now);
    }

    /// What is to be done about a BSC from which nothing is read.
    pub fn look_alive<R: Wait>(&self, rt: &R, now: u64) -> AliveStep {
        self.pace.lock(rt).look_alive(now)
    }

    /// Waits until no frame of the link itself is being written. Then a piece of the write side's frame may be.
    pub fn begin_piece<R: Wait>(&self, rt: &R) {
        let mut state = self
            .changed
            .wait_while(rt, self.state.lock(rt), |state| state.is_alive_written());
        state.begin_piece();
    }

    /// The piece was written, or couldn't be. `is_whole` is whether its frame is written in full.
    pub fn end_piece<R: Wait>(&self, rt: &R, is_whole: bool) {
        self.state.lock(rt).end_piece(is_whole);
    }

    /// Whether a frame of the link itself may be written now: not while one of the write side's is half written, which waits from now
    /// on. `end_alive` has to follow.
    pub fn begin_alive<R: Wait>(&self, rt: &R) -> bool {
        self.state.lock(rt).begin_alive()
    }

    /// The frame of the link itself was written, or couldn't be.
    pub fn end_alive<R: Wait>(&self, rt: &R) {
        self.state.lock(rt).end_alive();
        self.changed.notify_all();
    }

    /// Has the simulated BSC connect.
    pub fn simulate<R: Wait>(&self, rt: &R) {
        self.state.lock(rt).simulate();
        self.changed.notify_all();
    }

    /// Waits until the simulated BSC has to connect; `false` once the port is closing.
    pub fn wait_simulated<R: Wait>(&self, rt: &R) -> bool {
        let state = self.changed.wait_while(rt, self.state.lock(rt), |state| {
            !state.is_simulated() && !state.is_closing()
        });
        !state.is_closing()
    }

    /// Keeps the simulated BSC's end of its connection, which `close` shuts from now on. `false` where the port is closing: then
    /// nobody may take that connection.
    pub fn keep_simulated<R: Wait>(&self, rt: &R, stream: TcpStream) -> bool {
        self.state.lock(rt).keep_simulated(stream)
    }

    /// Lets the simulated BSC's end go.
    pub fn end_simulated<R: Wait>(&self, rt: &R) {
        self.state.lock(rt).end_simulated();
    }

    /// Takes no further connection, and shuts those that are there. The port isn't listened on any more: whoever waits for a
    /// connection to it goes on, and so does whoever waits later. This takes no descriptor, so it is done also where none is left.
    pub fn close<R: Wait>(&self, rt: &R) {
        self.state.lock(rt).close();
        self.changed.notify_all();
        let _ = shutdown(self.listener.as_raw_fd(), SHUT_RDWR);
    }
}
