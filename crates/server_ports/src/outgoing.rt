//! What is written to a connection.

use crate::broken::Broken;
use crate::port::Port;
use std::io;
use std::io::Write;
use std::net::TcpStream;
use std::sync::Wait;
use std::sync::ledger::Ledger;

/// Writes to the connection of a port's link, and keeps why that failed. Each write is given what is left of one frame, so a frame of
/// the link itself goes between two frames, and never into one.
#[derive(Drop)]
pub struct Outgoing<'a, L: Ledger, C> {
    rt: &'a C,
    port: &'a Port<L>,
    stream: &'a TcpStream,
    broken: Option<Broken>,
}

impl<'a, L: Ledger, C: Wait> Outgoing<'a, L, C> {
    pub fn new(rt: &'a C, port: &'a Port<L>, stream: &'a TcpStream) -> Outgoing<'a, L, C> {
        Outgoing {
            rt,
            port,
            stream,
            broken: None,
        }
    }

    /// What the system said of the last write that failed.
    pub fn broken(&self) -> Option<Broken> {
        self.broken
    }
}

impl<L: Ledger, C: Wait> Write for Outgoing<'_, L, C> {
    fn write(&mut self, buf: &[u8]) -> io::Result<usize> {
        self.port.begin_piece(self.rt);
        match self.stream.write(buf) {
            Ok(count) => {
                self.port.end_piece(self.rt, count == buf.len());
                Ok(count)
            }
            Err(error) => {
                self.port.end_piece(self.rt, false);
                self.broken = Some(Broken::of(error.kind()));
                Err(error)
            }
        }
    }

    fn flush(&mut self) -> io::Result<()> {
        Ok(())
    }
}
