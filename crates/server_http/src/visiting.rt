//! What is done for one connection when it is ready.

use crate::site::Site;
use crate::visitor::Visitor;
use bytes::Buf;
use http_server::{Connection, State};
use std::io::{ErrorKind, Read, Write};
use std::net::Shutdown;

/// How often it is written at once, before others get their turn.
const MOST_WRITES: u32 = 64;

/// How many pieces of what isn't answered are read at once.
const MOST_PIECES: u32 = 64;

/// How many octets such a piece has.
const PIECE: usize = 4_096;

/// What one is told whose request took too long.
const TOO_LATE: &[u8] =
    b"HTTP/1.1 408 Request Timeout\r\nconnection: close\r\ncontent-length: 0\r\n\r\n";

/// What came of a read or a write.
#[derive(Clone, Copy, PartialEq, Eq)]
enum Came {
    Some,
    /// Nothing for now.
    Nothing,
    Failed,
}

/// Reads once.
fn read(visitor: &mut Visitor) -> Came {
    let mut reader = &visitor.stream;
    match visitor.connection.read_from(&mut reader) {
        Ok(_) => Came::Some,
        Err(error) if error.kind() == ErrorKind::WouldBlock => Came::Nothing,
        Err(error) if error.kind() == ErrorKind::Interrupted => Came::Nothing,
        Err(_) => Came::Failed,
    }
}

/// Writes once.
fn write(visitor: &mut Visitor) -> Came {
    let mut writer = &visitor.stream;
    match visitor.connection.write_to(&mut writer) {
        Ok(0) => Came::Failed,
        Ok(_) => Came::Some,
        Err(error) if error.kind() == ErrorKind::WouldBlock => Came::Nothing,
        Err(error) if error.kind() == ErrorKind::Interrupted => Came::Nothing,
        Err(_) => Came::Failed,
    }
}

/// Writes what waits to be sent, as far as that goes now, and answers what waits for that.
fn send(visitor: &mut Visitor, site: &mut Site, now: u64) {
    for _ in 0..MOST_WRITES {
        if !visitor.connection.wants_write() {
            return;
        }
        match write(visitor) {
            Came::Some => {}
            Came::Nothing => return,
            Came::Failed => {
                visitor.visit.ends();
                return;
            }
        }
        let is_whole = !visitor.connection.wants_write();
        visitor.visit.written(now, is_whole);
        visitor.connection.advance(site);
    }
}

/// Nothing more is answered. What still comes is read for a while: else the system tells the other end of a fault, in place of the
/// answer.
fn leave(visitor: &mut Visitor, now: u64) {
    if visitor.connection.state() == State::Aborted {
        visitor.visit.ends();
        return;
    }
    visitor.visit.leaves(now);
    if visitor.stream.shutdown(Shutdown::Write).is_err() {
        visitor.visit.ends();
    }
}

/// Reads what isn't answered any more.
fn let_go(visitor: &mut Visitor) {
    let mut piece = [0u8; PIECE];
    let mut reader = &visitor.stream;
    for _ in 0..MOST_PIECES {
        match reader.read(&mut piece) {
            Ok(0) => {
                visitor.visit.ends();
                return;
            }
            Ok(_) => {}
            Err(error) if error.kind() == ErrorKind::WouldBlock => return,
            Err(_) => {
                visitor.visit.ends();
                return;
            }
        }
    }
}

/// Reads, answers and writes, as far as that goes now.
pub(crate) fn visit(visitor: &mut Visitor, site: &mut Site, now: u64) {
    if visitor.visit.is_leaving {
        let_go(visitor);
        return;
    }
    if visitor.connection.wants_read() {
        match read(visitor) {
            Came::Some => visitor.visit.read(now),
            Came::Nothing => {}
            Came::Failed => {
                visitor.visit.ends();
                return;
            }
        }
    }
    visitor.connection.advance(site);
    send(visitor, site, now);
    if visitor.connection.is_done() && !visitor.visit.is_over {
        leave(visitor, now);
    }
}

/// Whether a request has begun that isn't answered.
fn is_asking(connection: Connection) -> bool {
    let (unread, pending) = connection.into_buffers();
    !unread.is_empty() && !pending.has_remaining()
}

/// Closes the connection. One who waits for an answer to a request that didn't come whole is told so.
pub(crate) fn part(visitor: Visitor) {
    let Visitor {
        stream,
        connection,
        visit,
    } = visitor;
    if visit.gets_time_out(is_asking(connection)) {
        let mut writer = &stream;
        let _ = writer.write(TOO_LATE);
    }
    let _ = stream.shutdown(Shutdown::Both);
}
