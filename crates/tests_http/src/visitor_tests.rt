//! What no clause says of many who look: that pictures are few, and that those who stay keep nobody out.

use crate::checks::{same, yes};
use crate::clients::{answer_to, connected, rest_of};
use crate::given_page::{Client, served};
use crate::given_pictures::Given;
use std::alloc::Global;
use std::io::Write;
use std::net::{Net, SocketAddr, TcpListener, TcpStream};
use std::process::Abort;
use std::thread;
use std::time::{Clock, Duration};

const REQUEST: &[u8] = b"GET /health HTTP/1.1\r\nHost: h\r\n\r\n";

const LAST: &[u8] = b"GET /health HTTP/1.1\r\nHost: h\r\nConnection: close\r\n\r\n";

/// Ask one after another.
pub(crate) fn ask_often<R: Abort + Net<Stream = TcpStream, Listener = TcpListener>>(
    rt: &R,
    alloc: Global,
    address: &SocketAddr,
) {
    for _ in 0..100 {
        let answer = answer_to(rt, alloc, address, &[REQUEST], &[1]);
        yes(rt, answer.as_slice().ends_with(b"ok\n"), "an answer");
    }
}

/// 64 stay and ask nothing, the first of which has asked half a request. Then others come, for whom those go that have been there for
/// the longest time.
pub(crate) fn stay<R: Abort + Net<Stream = TcpStream, Listener = TcpListener>>(
    rt: &R,
    alloc: Global,
    address: &SocketAddr,
) {
    let first = connected(rt, address);
    let mut others = Vec::new(alloc);
    for _ in 0..63 {
        others.push(connected(rt, address)).expect(rt, "memory");
    }
    let answer = answer_to(rt, alloc, address, &[REQUEST], &[1]);
    yes(
        rt,
        answer.as_slice().ends_with(b"ok\n"),
        "one more is answered",
    );
    let rest = rest_of(rt, alloc, &first);
    same(rt, rest.len(), 0, "the first one is closed");
    let Some(last) = others.last() else {
        return;
    };
    let mut writer = last;
    let _ = writer.write_all(LAST);
    let text = rest_of(rt, alloc, last);
    yes(
        rt,
        text.as_slice().ends_with(b"ok\n"),
        "the last one is answered",
    );
}

/// One asks for many pages at once, more than wait to be sent at a time, and then sends nothing until all are there.
pub(crate) fn ask_at_once<R: Abort + Net<Stream = TcpStream, Listener = TcpListener>>(
    rt: &R,
    alloc: Global,
    address: &SocketAddr,
) {
    let mut requests: Vec<u8> = Vec::new(alloc);
    for _ in 0..200 {
        let page = b"GET / HTTP/1.1\r\nHost: h\r\n\r\n";
        requests.extend_from_slice(page).expect(rt, "memory");
    }
    requests.extend_from_slice(LAST).expect(rt, "memory");
    let stream = connected(rt, address);
    let mut writer = &stream;
    let _ = writer.write_all(requests.as_slice());
    let text = rest_of(rt, alloc, &stream);
    yes(
        rt,
        text.as_slice().ends_with(b"ok\n"),
        "the last one of many is answered",
    );
}

/// Whether what one sends behind an answer, after which nothing more is answered, is still taken.
fn is_more_taken<R: Clock + Abort + Net<Stream = TcpStream, Listener = TcpListener>>(
    rt: &R,
    alloc: Global,
    address: &SocketAddr,
) -> bool {
    let stream = connected(rt, address);
    let mut writer = &stream;
    let _ = writer.write_all(LAST);
    let text = rest_of(rt, alloc, &stream);
    yes(rt, text.as_slice().ends_with(b"ok\n"), "an answer");
    let mut is_taken = true;
    for _ in 0..4 {
        thread::sleep(rt, Duration::from_millis(50));
        is_taken = writer.write_all(b"more").is_ok() && is_taken;
    }
    is_taken
}

/// More comes behind an answer, for a shorter time than what comes is read. The client is tried more than once, since it may be halted.
pub(crate) fn send_more<R: Clock + Abort + Net<Stream = TcpStream, Listener = TcpListener>>(
    rt: &R,
    alloc: Global,
    address: &SocketAddr,
) {
    let mut is_taken = false;
    for _ in 0..3 {
        is_taken = is_taken || is_more_taken(rt, alloc, address);
    }
    yes(rt, is_taken, "what comes is read for a while");
}

/// One stays for a while, and asks nothing.
pub(crate) fn rest<R: Clock + Abort + Net<Stream = TcpStream, Listener = TcpListener>>(
    rt: &R,
    address: &SocketAddr,
) {
    let stream = connected(rt, address);
    thread::sleep(rt, Duration::from_millis(1_500));
    drop(stream);
}

/// A picture is taken at most where the connection ends.
#[test]
fn one_who_asks_nothing_has_no_pictures_taken(rt: HostRuntime) {
    let count = served(&rt, rt.alloc(), Given::Whole, Client::Rests);
    yes(&rt, count <= 1, "nobody asked");
}

#[test]
fn many_requests_take_few_pictures(rt: HostRuntime) {
    let begin = rt.monotonic().expect(&rt, "a clock");
    let count = served(&rt, rt.alloc(), Given::Whole, Client::AsksOften);
    let end = rt.monotonic().expect(&rt, "a clock");
    let halves = end.saturating_sub(begin).as_millis() / 500;
    yes(
        &rt,
        u128::from(count) <= halves.saturating_add(1),
        "two a second",
    );
}

#[test]
fn those_who_stay_keep_nobody_out(rt: HostRuntime) {
    let _ = served(&rt, rt.alloc(), Given::Whole, Client::Stays);
}

#[test]
fn all_that_is_asked_at_once_is_answered(rt: HostRuntime) {
    let _ = served(&rt, rt.alloc(), Given::Whole, Client::AsksAtOnce);
}

#[test]
fn what_comes_behind_an_answer_is_read(rt: HostRuntime) {
    let _ = served(&rt, rt.alloc(), Given::Whole, Client::SendsMore);
}
