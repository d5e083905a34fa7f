//! The figures that a server shows at its page.

use crate::checks::yes;
use crate::given_texts::has;
use crate::peer::PATIENCE;
use std::alloc::Global;
use std::io::{Read, Write};
use std::net::{Net, SocketAddr, TcpListener, TcpStream};
use std::process::Abort;
use std::thread;
use std::time::{Clock, Duration};

/// Where the page is, which one test alone has served.
pub(crate) const PAGE: &str = "127.0.0.77:48077";

/// How often it is looked at what is to be shown.
const MOST_LOOKS: u32 = 500;

const REQUEST: &[u8] = b"GET /metrics HTTP/1.1\r\nHost: h\r\nConnection: close\r\n\r\n";

/// What the page answers who asks for the figures.
fn figures<R: Abort + Net<Stream = TcpStream, Listener = TcpListener>>(
    rt: &R,
    alloc: Global,
) -> Vec<u8> {
    let address = SocketAddr::parse_ascii(PAGE.as_bytes()).expect(rt, "an address");
    let mut stream = TcpStream::connect(rt, address).expect(rt, "a connection");
    let patience = Some(Duration::from_secs(PATIENCE));
    stream.set_read_timeout(patience).expect(rt, "a time");
    stream.write_all(REQUEST).expect(rt, "it is asked for");
    let mut text = Vec::new(alloc);
    stream.read_to_end(&mut text).expect(rt, "the answer comes");
    text
}

/// Whether each of the lines stands in the text.
fn has_all(text: &[u8], lines: &[&str]) -> bool {
    lines.iter().all(|line| has(text, line.as_bytes()))
}

/// The figures come to have each of the lines at once.
pub(crate) fn shows<R: Abort + Clock + Net<Stream = TcpStream, Listener = TcpListener>>(
    rt: &R,
    alloc: Global,
    lines: &[&str],
) {
    for _ in 0..MOST_LOOKS {
        if has_all(figures(rt, alloc).as_slice(), lines) {
            return;
        }
        thread::sleep(rt, Duration::from_millis(50));
    }
    yes(rt, false, lines.first().copied().unwrap_or("nothing"));
}
