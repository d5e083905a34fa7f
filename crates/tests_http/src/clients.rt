//! Clients of a page.

use std::alloc::Global;
use std::io::{Read, Write};
use std::net::{Net, Shutdown, SocketAddr, TcpListener, TcpStream};
use std::process::Abort;
use std::time::Duration;

/// How long it is waited for what is to come, in seconds. A test may take a minute in the gate.
const PATIENCE: u64 = 50;

/// The most pieces of an answer.
const MOST_PIECES: u32 = 100_000;

/// A connection to the page.
pub(crate) fn connected<R: Net<Stream = TcpStream, Listener = TcpListener> + Abort>(
    rt: &R,
    address: &SocketAddr,
) -> TcpStream {
    let time = Duration::from_secs(PATIENCE);
    let stream = TcpStream::connect_timeout(rt, address, time).expect(rt, "a connection");
    stream
        .set_read_timeout(Some(time))
        .expect(rt, "a time limit");
    stream
}

/// What comes until the server ends the connection.
pub(crate) fn rest_of(rt: &impl Abort, alloc: Global, mut stream: &TcpStream) -> Vec<u8> {
    let mut text = Vec::new(alloc);
    let mut piece = [0u8; 4096];
    for _ in 0..MOST_PIECES {
        match stream.read(&mut piece) {
            Ok(count) if count > 0 => text.extend_from_slice(&piece[..count]).expect(rt, "memory"),
            _ => break,
        }
    }
    text
}

/// What a request is answered that comes so often, after which the client sends nothing more.
pub(crate) fn answer_to<R: Net<Stream = TcpStream, Listener = TcpListener> + Abort>(
    rt: &R,
    alloc: Global,
    address: &SocketAddr,
    request: &[&[u8]],
    times: &[u32],
) -> Vec<u8> {
    let stream = connected(rt, address);
    let mut writer = &stream;
    for (part, count) in request.iter().zip(times.iter()) {
        for _ in 0..*count {
            let _ = writer.write_all(part);
        }
    }
    let _ = stream.shutdown(Shutdown::Write);
    rest_of(rt, alloc, &stream)
}

/// Whether the text has that in it.
pub(crate) fn has(text: &[u8], wanted: &[u8]) -> bool {
    text.windows(wanted.len().max(1)).any(|part| part == wanted)
}
