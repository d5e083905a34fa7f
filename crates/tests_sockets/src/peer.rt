//! A peer of a server, which plays the part of a BSC: a connection, and the octets that it sends and gets.

use libc::net::{AF_INET, SOCK_CLOEXEC, SOCK_STREAM, bind, connect, listen, socket};
use os::FromRawFd;
use std::io::{ErrorKind, Read, Write};
use std::net::{TcpListener, TcpStream};
use std::process::Abort;
use std::time::Duration;

/// How long it is waited for what is to come, in seconds. A test may take a minute in the gate.
pub(crate) const PATIENCE: u64 = 50;

/// The most pieces of what a server sends before it closes a connection.
const MOST_PIECES: u32 = 100_000;

/// An address of IPv4 in 16 octets, as the system has it: 127.0.0.x, x the number, and the port.
fn address_of(from: u8, port: u16) -> [u8; 128] {
    let [high, low] = port.to_be_bytes();
    let mut address = [0u8; 128];
    address[0] = 2;
    address[2] = high;
    address[3] = low;
    address[4] = 127;
    address[7] = from;
    address
}

/// A connection from 127.0.0.x, x the number, to that port of this machine; `None` where it isn't made.
fn connection(from: u8, port: u16) -> Option<TcpStream> {
    let fd = unsafe { socket(AF_INET, SOCK_STREAM | SOCK_CLOEXEC, 0) };
    if fd < 0 {
        return None;
    }
    let stream = unsafe { TcpStream::from_raw_fd(fd) };
    let bound = unsafe { bind(fd, &address_of(from, 0), 16) };
    let connected = unsafe { connect(fd, &address_of(1, port), 16) };
    if bound == 0 && connected == 0 {
        Some(stream)
    } else {
        None
    }
}

/// A listener on 127.0.0.1 that has room for one connection that waits, if the system gives one.
fn narrow() -> Option<TcpListener> {
    let fd = unsafe { socket(AF_INET, SOCK_STREAM | SOCK_CLOEXEC, 0) };
    if fd < 0 {
        return None;
    }
    let listener = unsafe { TcpListener::from_raw_fd(fd) };
    let bound = unsafe { bind(fd, &address_of(1, 0), 16) };
    if bound == 0 && listen(fd, 0) == 0 {
        Some(listener)
    } else {
        None
    }
}

/// A listener on 127.0.0.1 that takes no connection, and has room for one that waits.
pub(crate) fn narrow_listener(rt: &impl Abort) -> TcpListener {
    narrow().expect(rt, "it listens")
}

/// A connection from that address to the port, on which somebody listens.
pub(crate) fn connected(rt: &impl Abort, from: u8, port: u16) -> TcpStream {
    let stream = connection(from, port).expect(rt, "a connection");
    let patience = Some(Duration::from_secs(PATIENCE));
    stream.set_read_timeout(patience).expect(rt, "a time");
    stream
}

pub(crate) fn sends(rt: &impl Abort, stream: &mut TcpStream, octets: &[u8], times: u32) {
    for _ in 0..times {
        stream.write_all(octets).expect(rt, "octets are sent");
    }
}

/// Says that the cells of location area 100 fail from number 0 to before that one, each in a FAILURE of its own.
pub(crate) fn fails(rt: &impl Abort, stream: &mut TcpStream, cells: u16) {
    for number in 0..cells {
        let [high, low] = number.to_be_bytes();
        let failure = [
            0x14, 0, 0, 0x0b, 0x09, 0, 6, 1, 0, 100, high, low, 0x0a, 0x16, 0,
        ];
        sends(rt, stream, &failure, 1);
    }
}

fn next_octet(rt: &impl Abort, stream: &mut TcpStream) -> u8 {
    let mut octets = [0];
    stream.read_exact(&mut octets).expect(rt, "an octet comes");
    let [octet] = octets;
    octet
}

/// Whether the next octets are these.
pub(crate) fn gets(rt: &impl Abort, stream: &mut TcpStream, octets: &[u8]) -> bool {
    for octet in octets {
        if next_octet(rt, stream) != *octet {
            return false;
        }
    }
    true
}

/// The type of the next frame, which is read.
pub(crate) fn next_frame(rt: &impl Abort, stream: &mut TcpStream) -> u8 {
    let kind = next_octet(rt, stream);
    let high = next_octet(rt, stream);
    let middle = next_octet(rt, stream);
    let low = next_octet(rt, stream);
    for _ in 0..u32::from_be_bytes([0, high, middle, low]) {
        next_octet(rt, stream);
    }
    kind
}

/// Whether the server closes the connection. What it sends before that is passed over.
pub(crate) fn is_closed(stream: &mut TcpStream) -> bool {
    let mut octets = [0; 64];
    for _ in 0..MOST_PIECES {
        match stream.read(&mut octets) {
            Ok(0) => return true,
            Ok(_) => {}
            Err(error) => return error.kind() != ErrorKind::WouldBlock,
        }
    }
    false
}
