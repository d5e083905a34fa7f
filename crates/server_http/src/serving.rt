//! The thread that serves the page.

use crate::http_port::HttpPort;
use crate::pictures::Pictures;
use crate::readiness::{no_fds, wait_ready};
use crate::refreshing::{Renewed, now_of};
use crate::turns::{close_late, serve_ready, take_coming};
use libc::types::pollfd;
use std::alloc::Global;
use std::sync::Wait;
use std::thread;
use std::time::{Clock, Duration};

/// How long to wait, in milliseconds, where there is no memory to wait for the connections.
const PAUSE: u64 = 250;

fn is_ready(fds: &[pollfd]) -> bool {
    match fds.first() {
        Some(fd) => fd.revents != 0,
        None => false,
    }
}

/// Serves the page to whoever connects until the port is closing. Nobody is waited for but all at once, and no lock is held while
/// a request is answered: a picture is taken at most twice a second, and shared by all answers. At most 64 connections are open; one
/// more takes the place of the one that has been silent for the longest time. An exchange may take 20 seconds.
pub fn serve_http<R: Wait + Clock, P: Pictures>(
    rt: &R,
    alloc: Global,
    port: &HttpPort,
    pictures: &P,
) {
    let mut renewed = Renewed::new(alloc);
    let mut visitors = Vec::new(alloc);
    let mut fds = no_fds(alloc);
    let mut was_told = false;
    for _ in rt.forever() {
        if port.is_closing() {
            break;
        }
        if wait_ready(port, visitors.as_slice(), &mut fds).is_err() {
            thread::sleep(rt, Duration::from_millis(PAUSE));
        }
        let now = now_of(rt);
        serve_ready(
            rt,
            alloc,
            pictures,
            &mut renewed,
            visitors.as_mut_slice(),
            fds.as_slice(),
            now,
        );
        close_late(&mut visitors, now);
        if is_ready(fds.as_slice()) {
            was_told = take_coming(rt, alloc, port, pictures, &mut visitors, now, was_told);
        }
    }
}
