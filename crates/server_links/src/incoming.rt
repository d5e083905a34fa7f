//! What is read from a connection.

ghost use Rattle.std.specs.Counts.{IsPrefixLen};
ghost use Rattle.std.specs.Io.{ReadsAtMost};
ghost use Rattle.std.specs.Prelude.{IfOk, IfSome};

use crate::shared::Shared;
use link_resets::AliveWatch;
use server_ports::{Broken, Connection, Port};
use std::alloc::{AllocError, Global};
use std::io;
use std::io::{ErrorKind, Read, Write};
use std::net::{SocketAddr, TcpStream};
use std::sync::Wait;
use std::sync::ledger::Ledger;
use std::time::{Clock, Duration};

/// Reads from the connection of a port's link, and keeps why that failed. Once the link has ended nothing is read. Octets that were
/// read and held are given before those that are read later. What is read is looked at for what says that the BSC is alive.
#[derive(Drop)]
pub(crate) struct Incoming<'a, L: Ledger, E: Drop, C> {
    pub(crate) rt: &'a C,
    pub(crate) shared: &'a Shared<L, E>,
    pub(crate) port: &'a Port<L>,
    pub(crate) peer: SocketAddr,
    pub(crate) stream: &'a TcpStream,
    /// What the system said of the last read that failed.
    broken: Option<Broken>,
    /// What was read and is to be given yet.
    held: Vec<u8>,
    /// Looks for what says that the BSC is alive, where that is asked for.
    pub(crate) alive: Option<AliveWatch>,
    /// Whether a KEEP ALIVE of the BSC's is to be answered yet.
    pub(crate) owes: bool,
}

/// For how long a read waits, in seconds, where it is to be seen that a BSC says nothing.
const TURN: u64 = 1;

/// Has reads wait no longer than that, where a BSC may be asked whether it is alive.
fn watch_of(alloc: Global, alive_seconds: u32, stream: &TcpStream) -> Option<AliveWatch> {
    if alive_seconds == 0 {
        return None;
    }
    let _ = stream.set_read_timeout(Some(Duration::from_secs(TURN)));
    Some(AliveWatch::new(alloc))
}

impl<'a, L: Ledger, E: Write + Drop, C: Wait + Clock> Incoming<'a, L, E, C> {
    /// Nothing was read yet.
    pub(crate) fn new(
        rt: &'a C,
        shared: &'a Shared<L, E>,
        port: &'a Port<L>,
        connection: &'a Connection,
    ) -> Incoming<'a, L, E, C> {
        Incoming {
            rt,
            shared,
            port,
            peer: connection.peer,
            stream: &connection.stream,
            broken: None,
            held: Vec::new(shared.alloc),
            alive: watch_of(
                shared.alloc,
                shared.options.alive_seconds,
                &connection.stream,
            ),
            owes: false,
        }
    }

    /// What the system said of the last read that failed.
    pub(crate) fn broken(&self) -> Option<Broken> {
        self.broken
    }

    /// Holds octets that were read.
    pub(crate) fn hold(&mut self, octets: &[u8]) -> Result<(), AllocError> {
        self.held.extend_from_slice(octets)
    }

    /// How many octets are held.
    pub(crate) fn held(&self) -> usize {
        self.held.len()
    }

    /// What a read that gave nothing comes to: the link had ended, and why is known elsewhere.
    fn ended(&mut self) -> io::Error {
        self.broken = None;
        io::Error::from(ErrorKind::NotConnected)
    }

    /// Whether a read that failed so is made again: it waited for as long as it may, or a signal interrupted it.
    fn is_pause(&self, kind: ErrorKind) -> bool {
        match kind {
            ErrorKind::WouldBlock => self.shared.options.alive_seconds != 0,
            ErrorKind::Interrupted => true,
            _ => false,
        }
    }

    /// Reads, and keeps why that failed. `None` where nothing came for so long that it is to be seen whether the BSC is alive.
    fn read_once(&mut self, buf: &mut [u8]) -> io::Result<Option<usize>>
        ensures { IfOk result (λ got. IfSome got (λ count. IsPrefixLen count buf.new)) }
    {
        match self.stream.read(buf) {
            Ok(count) => Ok(Some(count)),
            Err(error) if self.is_pause(error.kind()) => Ok(None),
            Err(error) => {
                self.broken = Some(Broken::of(error.kind()));
                Err(error)
            }
        }
    }

    /// Reads from the connection, whatever is held. A BSC that says nothing meanwhile may be asked whether it is alive.
    pub(crate) fn fetch(&mut self, buf: &mut [u8]) -> io::Result<usize>
        ensures { ReadsAtMost result buf.new }
    {
        let rt = self.rt;
        for _ in rt.forever() {
            if !self.port.is_live(rt) {
                break;
            }
            match self.read_once(buf)? {
                Some(count) if self.port.is_live(rt) => {
                    self.look_at(&buf[..count]);
                    return Ok(count);
                }
                Some(_) => break,
                None => self.look_at_silence(),
            }
        }
        Err(self.ended())
    }

    /// Gives octets that are held.
    fn give(&mut self, buf: &mut [u8]) -> io::Result<usize>
        ensures { ReadsAtMost result buf.new }
    {
        if !self.port.is_live(self.rt) {
            return Err(self.ended());
        }
        let count = self.held.len().min(buf.len());
        let (front, _) = self.held.as_slice().split_at(count);
        buf[..count].copy_from_slice(front);
        self.held.drain(..count);
        Ok(count)
    }
}

impl<L: Ledger, E: Write + Drop, C: Wait + Clock> Read for Incoming<'_, L, E, C> {
    fn read(&mut self, buf: &mut [u8]) -> io::Result<usize> {
        if self.held.is_empty() {
            self.fetch(buf)
        } else {
            self.give(buf)
        }
    }
}
