//! What no clause says of the page: what a client gets for each request, good or bad.

use crate::checks::yes;
use crate::clients::{answer_to, has};
use crate::given_page::{Client, served};
use crate::given_pictures::Given;
use std::alloc::Global;
use std::net::{Net, SocketAddr, TcpListener, TcpStream};
use std::process::Abort;

/// A request, each part so often, and what its answer begins with, has in it and ends with.
#[derive(Drop)]
pub(crate) struct Row {
    request: &'static [&'static [u8]],
    times: &'static [u32],
    begin: &'static [u8],
    part: &'static [u8],
    end: &'static [u8],
}

const GOOD: &[Row] = &[
    Row {
        request: &[b"GET / HTTP/1.1\r\nHost: h\r\n\r\n"],
        times: &[1],
        begin: b"HTTP/1.1 200 OK\r\ndate: ",
        part: b"\r\ncontent-type: text/html; charset=utf-8\r\ncontent-security-policy: default-src 'none'; ",
        end: b"</html>\n",
    },
    Row {
        request: &[b"HEAD / HTTP/1.1\r\nHost: h\r\n\r\n"],
        times: &[1],
        begin: b"HTTP/1.1 200 OK\r\n",
        part: b"\r\ncache-control: no-store\r\nx-content-type-options: nosniff\r\n",
        end: b"\r\n\r\n",
    },
    Row {
        request: &[b"GET /boards.csv?all HTTP/1.0\r\n\r\n"],
        times: &[1],
        begin: b"HTTP/1.0 200 OK\r\n",
        part: b"\r\ncontent-type: text/csv; charset=utf-8; header=present\r\n",
        end: b"\r\n\r\nwarning,message_id,serial,kind,state,area,awaited,on_air,failed,left,broadcasts\n",
    },
    Row {
        request: &[b"GET /bscs.csv HTTP/1.1\r\nHost: h\r\n\r\n"],
        times: &[1],
        begin: b"HTTP/1.1 200 OK\r\n",
        part: b"text/csv",
        end: b"\r\n\r\nbsc,cells,link,generation,in_flight,message_id,serial,in_flight_since,pending\n",
    },
    Row {
        request: &[b"GET /metrics HTTP/1.1\r\nHost: h\r\n\r\n"],
        times: &[1],
        begin: b"HTTP/1.1 200 OK\r\n",
        part: b"\r\ncontent-type: text/plain; version=0.0.4; charset=utf-8\r\n",
        end: b"\n",
    },
    Row {
        request: &[b"GET /health HTTP/1.1\r\nHost: h\r\n\r\n"],
        times: &[1],
        begin: b"HTTP/1.1 200 OK\r\n",
        part: b"\r\ncontent-length: 3\r\n",
        end: b"\r\n\r\nok\n",
    },
    Row {
        request: &[b"GET /health HTTP/1.1\r\nHost: h\r\n\r\n"],
        times: &[300],
        begin: b"HTTP/1.1 200 OK\r\n",
        part: b"\r\n\r\nok\nHTTP/1.1 200 OK\r\n",
        end: b"\r\n\r\nok\n",
    },
];

const BAD: &[Row] = &[
    Row {
        request: &[b"POST / HTTP/1.1\r\nHost: h\r\nContent-Length: 0\r\n\r\n"],
        times: &[1],
        begin: b"HTTP/1.1 405 Method Not Allowed\r\n",
        part: b"\r\nallow: GET, HEAD\r\n",
        end: b"\r\n\r\nmethod not allowed\n",
    },
    Row {
        request: &[b"GET /../metrics HTTP/1.1\r\nHost: h\r\n\r\n"],
        times: &[1],
        begin: b"HTTP/1.1 404 Not Found\r\n",
        part: b"\r\ncontent-type: text/plain; charset=utf-8\r\n",
        end: b"\r\n\r\nnot found\n",
    },
    Row {
        request: &[b"DELETE /boards HTTP/1.1\r\nHost: h\r\n\r\n"],
        times: &[1],
        begin: b"HTTP/1.1 404 Not Found\r\n",
        part: b"\r\ncache-control: no-store\r\n",
        end: b"\r\n\r\nnot found\n",
    },
    Row {
        request: &[b"POST / HTTP/1.1\r\nHost: h\r\nContent-Length: 5\r\n\r\nhello"],
        times: &[1],
        begin: b"HTTP/1.1 413 ",
        part: b"\r\nconnection: close\r\n",
        end: b"\r\n\r\n",
    },
    Row {
        request: &[b"GET /", b"aaaaaaaaaaaaaaaa"],
        times: &[1, 65_536],
        begin: b"HTTP/1.1 414 ",
        part: b"\r\nconnection: close\r\n",
        end: b"\r\n\r\n",
    },
    Row {
        request: &[
            b"GET / HTTP/1.1\r\nHost: h\r\n",
            b"A: aaaaaaaaaaaaaaaaaa\r\n",
        ],
        times: &[1, 1_000],
        begin: b"HTTP/1.1 431 ",
        part: b"\r\nconnection: close\r\n",
        end: b"\r\n\r\n",
    },
    Row {
        request: &[b"GET / HTTP/1.1\r\nHost: h\r\n"],
        times: &[1],
        begin: b"HTTP/1.1 400 ",
        part: b"\r\nconnection: close\r\n",
        end: b"\r\n\r\n",
    },
    Row {
        request: &[b"\x16\x03\x01\x00\xf4\x01\x00\x00\xf0\x03\x03\r\n\r\n"],
        times: &[1],
        begin: b"HTTP/1.1 400 ",
        part: b"\r\nconnection: close\r\n",
        end: b"\r\n\r\n",
    },
];

const STALE: &[Row] = &[
    Row {
        request: &[b"GET /health HTTP/1.1\r\nHost: h\r\n\r\n"],
        times: &[1],
        begin: b"HTTP/1.1 503 Service Unavailable\r\n",
        part: b"\r\ncontent-length: 6\r\n",
        end: b"\r\n\r\nstale\n",
    },
    Row {
        request: &[b"GET /boards.csv HTTP/1.1\r\nHost: h\r\n\r\n"],
        times: &[1],
        begin: b"HTTP/1.1 503 Service Unavailable\r\n",
        part: b"\r\ncontent-type: text/plain; charset=utf-8\r\n",
        end: b"\r\n\r\nstale\n",
    },
    Row {
        request: &[b"GET /bscs.csv HTTP/1.1\r\nHost: h\r\n\r\n"],
        times: &[1],
        begin: b"HTTP/1.1 503 Service Unavailable\r\n",
        part: b"\r\ncontent-type: text/plain; charset=utf-8\r\n",
        end: b"\r\n\r\nstale\n",
    },
    Row {
        request: &[b"GET / HTTP/1.1\r\nHost: h\r\n\r\n"],
        times: &[1],
        begin: b"HTTP/1.1 200 OK\r\n",
        part: b"stale",
        end: b"</html>\n",
    },
];

const UNKEPT: &[Row] = &[
    Row {
        request: &[b"GET / HTTP/1.1\r\nHost: h\r\n\r\n"],
        times: &[1],
        begin: b"HTTP/1.1 503 Service Unavailable\r\n",
        part: b"\r\ncontent-type: text/plain; charset=utf-8\r\n",
        end: b"\r\n\r\nno picture\n",
    },
    Row {
        request: &[b"GET /metrics HTTP/1.1\r\nHost: h\r\n\r\n"],
        times: &[1],
        begin: b"HTTP/1.1 503 Service Unavailable\r\n",
        part: b"\r\ncontent-type: text/plain; charset=utf-8\r\n",
        end: b"\r\n\r\nno picture\n",
    },
];

pub(crate) fn asks<R: Abort + Net<Stream = TcpStream, Listener = TcpListener>>(
    rt: &R,
    alloc: Global,
    address: &SocketAddr,
    rows: &[Row],
) {
    for row in rows {
        let answer = answer_to(rt, alloc, address, row.request, row.times);
        let text = answer.as_slice();
        let holds = text.starts_with(row.begin) && has(text, row.part) && text.ends_with(row.end);
        let at = match row.request.first() {
            Some(part) => str::from_utf8(part).unwrap_or("octets"),
            None => "nothing",
        };
        yes(rt, holds, at);
    }
}

#[test]
fn each_path_is_answered(rt: HostRuntime) {
    let _ = served(&rt, rt.alloc(), Given::Whole, Client::Asks(GOOD));
}

#[test]
fn bad_requests_are_refused(rt: HostRuntime) {
    let _ = served(&rt, rt.alloc(), Given::Whole, Client::Asks(BAD));
}

#[test]
fn a_stale_centre_is_told(rt: HostRuntime) {
    let _ = served(&rt, rt.alloc(), Given::Stale, Client::Asks(STALE));
}

/// What isn't kept yet is shown to nobody.
#[test]
fn a_picture_waits_until_its_entries_are_kept(rt: HostRuntime) {
    let _ = served(&rt, rt.alloc(), Given::Unkept, Client::Asks(UNKEPT));
}
