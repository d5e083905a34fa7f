//! A console at the socket file of a server.

use crate::peer::PATIENCE;
use std::io::{Read, Write};
use std::net::{Net, Shutdown};
use std::os::unix::net::UnixStream;
use std::process::Abort;
use std::time::Duration;

/// The most octets of an answer that is looked at.
const MOST_OCTETS: usize = 200;

/// Types no more. The answer is whether nothing else comes, up to the end of the connection.
fn ends(stream: &mut UnixStream) -> bool {
    let _ = stream.shutdown(Shutdown::Write);
    let mut octet = [0u8; 1];
    matches!(stream.read(&mut octet), Ok(0))
}

/// Types the line at the socket file. The answer is whether what it is answered is this, and the connection ends then: so the console
/// is free again.
pub(crate) fn is_told<R: Abort + Net>(rt: &R, path: &str, line: &str, answer: &str) -> bool {
    let mut stream = UnixStream::connect(rt, path).expect(rt, "it is connected");
    let patience = Some(Duration::from_secs(PATIENCE));
    stream.set_read_timeout(patience).expect(rt, "a time");
    stream.write_all(line.as_bytes()).expect(rt, "it is typed");
    let mut octets = [0u8; MOST_OCTETS];
    let place = octets.get_mut(..answer.len()).expect(rt, "a short answer");
    stream.read_exact(place).is_ok() && octets.starts_with(answer.as_bytes()) && ends(&mut stream)
}

/// How long a read waits, in milliseconds, for an entry to be handed on.
const TURN: u64 = 20;

/// Has a console at the socket file follow the journal. A read of it waits a short time.
pub(crate) fn follows<R: Abort + Net>(rt: &R, path: &str) -> UnixStream {
    let mut stream = UnixStream::connect(rt, path).expect(rt, "it is connected");
    let turn = Some(Duration::from_millis(TURN));
    stream.set_read_timeout(turn).expect(rt, "a time");
    stream.write_all(b"watch\n").expect(rt, "it is typed");
    stream
}
