//! What the threads of a port tell each other.

use crate::connection::Connection;
use crate::ended::Ended;
use crate::job::Job;
use crate::shut::Shut;
use crate::side_end::SideEnd;
use crate::up_link::UpLink;
use crate::write_state::WriteState;
use crate::write_turn::WriteTurn;
use link_rules::{Verdict, decide};
use std::mem;
use std::net::{IpAddr, Shutdown, SocketAddr, TcpStream};

/// What the threads of a port tell each other.
#[derive(Drop)]
pub(crate) struct PortState {
    /// No further connection is taken.
    is_closing: bool,
    /// The simulated BSC has to connect.
    is_simulated: bool,
    /// The next connection that gets the link.
    next: Option<Connection>,
    link: Option<UpLink>,
    write: WriteState,
    /// Who writes to the connection of the link.
    turn: WriteTurn,
    /// The simulated BSC's end of its connection.
    simulated: Option<TcpStream>,
}

impl PortState {
    pub(crate) fn new() -> PortState {
        PortState {
            is_closing: false,
            is_simulated: false,
            next: None,
            link: None,
            write: WriteState::Idle,
            turn: WriteTurn::Nobody,
            simulated: None,
        }
    }

    pub(crate) fn is_closing(&self) -> bool {
        self.is_closing
    }

    /// Whether a link is up that nothing has ended.
    pub(crate) fn is_live(&self) -> bool {
        match &self.link {
            Some(link) => link.is_live,
            None => false,
        }
    }

    /// Where the link came from that is up, or is to come up.
    pub(crate) fn peer(&self) -> Option<SocketAddr> {
        if let Some(next) = &self.next {
            return Some(next.peer);
        }
        match &self.link {
            Some(link) if link.is_live => Some(link.connection.peer),
            _ => None,
        }
    }

    /// Where the link came from that has this generation, or is coming up, unless something has ended it.
    pub(crate) fn peer_of(&self, generation: u64) -> Option<SocketAddr> {
        match &self.link {
            Some(link) if link.is_live && link.may_be(generation) => Some(link.connection.peer),
            _ => None,
        }
    }

    /// The generation of the link that is up.
    pub(crate) fn generation(&self) -> Option<u64> {
        match &self.link {
            Some(link) if link.is_live => link.generation,
            _ => None,
        }
    }

    /// What is done with a connection from that address.
    pub(crate) fn verdict(&self, from: IpAddr, is_named: Option<bool>) -> Verdict {
        let up = match self.peer() {
            Some(peer) => Some(peer.ip()),
            None => None,
        };
        decide(up, from, is_named)
    }

    /// Ends the link that is up, and says why. `false` where there is none.
    pub(crate) fn shut(&mut self, shut: Shut) -> bool {
        match &mut self.link {
            Some(link) if link.is_live => {
                link.end(Some(shut));
                true
            }
            _ => false,
        }
    }

    /// Ends the link that is up, where it has this generation, by the operator. `false` where there is none.
    pub(crate) fn cut(&mut self, generation: u64) -> bool {
        self.generation() == Some(generation) && self.shut(Shut::Cut)
    }

    /// Takes a connection as the next one, or drops it. The answer is what was done with it.
    pub(crate) fn offer(&mut self, connection: Connection, is_named: Option<bool>) -> Verdict {
        let verdict = self.verdict(connection.peer.ip(), is_named);
        let is_taken = matches!(verdict, Verdict::Take | Verdict::TakePlace);
        if is_taken && !self.is_closing {
            self.shut(Shut::Replaced);
            self.next = Some(connection);
        }
        verdict
    }

    /// Whether there is a next connection.
    pub(crate) fn has_next(&self) -> bool {
        self.next.is_some()
    }

    /// Gives the next connection to be served, and a link of it begins.
    pub(crate) fn take_next(&mut self) -> Option<Connection> {
        let connection = self.next.take()?;
        let Ok(kept) = connection.shared() else {
            return None;
        };
        self.link = Some(UpLink::new(kept));
        Some(connection)
    }

    /// The link has come up with this generation.
    pub(crate) fn name(&mut self, generation: u64) {
        if let Some(link) = &mut self.link {
            link.generation = Some(generation);
        }
    }

    /// Has the write side of the link begin. `false` where something has ended the link.
    pub(crate) fn begin_writing(&mut self, job: Job) -> bool {
        let is_live = self.is_live();
        if is_live {
            self.write = WriteState::Due(job);
        }
        is_live
    }

    /// Whether a write side has to begin.
    pub(crate) fn has_job(&self) -> bool {
        matches!(self.write, WriteState::Due(_))
    }

    /// Gives the write side that has to begin.
    pub(crate) fn take_job(&mut self) -> Option<Job> {
        match mem::replace(&mut self.write, WriteState::Running) {
            WriteState::Due(job) => Some(job),
            other => {
                self.write = other;
                None
            }
        }
    }

    /// The write side has ended, so the link does.
    pub(crate) fn end_write(&mut self, end: SideEnd) {
        self.write = WriteState::Ended(end);
        if let Some(link) = &mut self.link {
            link.end(None);
        }
    }

    /// The read side has ended, so the link does. The answer is what was known of it before.
    pub(crate) fn end_read(&mut self) -> Ended {
        let written = match &self.write {
            WriteState::Ended(end) => Some(*end),
            _ => None,
        };
        let mut shut = None;
        if let Some(link) = &mut self.link {
            shut = link.shut;
            link.end(None);
        }
        Ended { shut, written }
    }

    /// Whether the write side is at work.
    pub(crate) fn is_writing(&self) -> bool {
        matches!(self.write, WriteState::Running)
    }

    /// Lets the link go, both of whose sides have ended.
    pub(crate) fn end_link(&mut self) {
        self.link = None;
        self.write = WriteState::Idle;
        self.turn = WriteTurn::Nobody;
    }

    /// Whether a frame of the link itself is being written.
    pub(crate) fn is_alive_written(&self) -> bool {
        self.turn == WriteTurn::Alive
    }

    /// A piece of the write side's frame is to be written.
    pub(crate) fn begin_piece(&mut self) {
        self.turn = WriteTurn::Order;
    }

    /// A piece of the write side's frame was written, or couldn't be. `is_whole` is whether the frame is written in full.
    pub(crate) fn end_piece(&mut self, is_whole: bool) {
        if is_whole {
            self.turn = WriteTurn::Nobody;
        }
    }

    /// A frame of the link itself is to be written. `false` where one of the write side's is half written.
    pub(crate) fn begin_alive(&mut self) -> bool {
        let is_free = self.turn == WriteTurn::Nobody;
        if is_free {
            self.turn = WriteTurn::Alive;
        }
        is_free
    }

    /// The frame of the link itself was written, or couldn't be.
    pub(crate) fn end_alive(&mut self) {
        self.turn = WriteTurn::Nobody;
    }

    /// Has the simulated BSC connect.
    pub(crate) fn simulate(&mut self) {
        self.is_simulated = true;
    }

    pub(crate) fn is_simulated(&self) -> bool {
        self.is_simulated
    }

    /// Keeps the simulated BSC's end of its connection. `false` where the port is closing.
    pub(crate) fn keep_simulated(&mut self, stream: TcpStream) -> bool {
        if !self.is_closing {
            self.simulated = Some(stream);
        }
        !self.is_closing
    }

    /// Lets the simulated BSC's end go.
    pub(crate) fn end_simulated(&mut self) {
        self.simulated = None;
    }

    /// Takes no further connection, and shuts those that are there.
    pub(crate) fn close(&mut self) {
        self.is_closing = true;
        self.next = None;
        if let Some(link) = &mut self.link {
            link.end(None);
        }
        if let Some(stream) = &self.simulated {
            let _ = stream.shutdown(Shutdown::Both);
        }
    }
}
