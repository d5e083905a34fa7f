//! A turn of the thread: whoever is ready is served, whoever is late is closed, and who comes is taken.

ghost use Rattle.std.specs.Prelude.{◌≡◌, ◌≤◌, length, position};
ghost use Rattle.server_http.specs.Visits.{IsMostSilent, is_closed};

use crate::http_port::HttpPort;
use crate::pictures::Pictures;
use crate::refreshing::{Renewed, second_of};
use crate::visiting::{part, visit};
use crate::visitor::Visitor;
use libc::types::pollfd;
use std::alloc::Global;
use std::io::ErrorKind;
use std::net::TcpStream;
use std::sync::Wait;
use std::time::{Clock, Duration};
use std::{io, thread};

/// The most connections at once.
pub(crate) const MOST_VISITORS: usize = 64;

/// How long to wait, in milliseconds, where a connection can't be taken.
const PAUSE: u64 = 50;

/// Serves those that are ready. Another picture is taken first, where that is due.
pub(crate) fn serve_ready<R: Wait + Clock, P: Pictures>(
    rt: &R,
    alloc: Global,
    pictures: &P,
    renewed: &mut Renewed,
    visitors: &mut [Visitor],
    fds: &[pollfd],
    now: u64,
) {
    for (visitor, fd) in visitors.iter_mut().zip(fds.iter().skip(1)) {
        if fd.revents != 0 {
            renewed.renew(rt, alloc, pictures, now, second_of(rt));
            visit(visitor, &mut renewed.site, now);
        }
    }
}

/// The place of the first that is to be closed.
fn place_of_closed(visitors: &[Visitor], now: u64) -> Option<usize>
    ensures { result ≡ position (λ v. is_closed now v.visit) visitors.now }
{
    visitors
        .iter()
        .position(|visitor| visitor.visit.is_closed(now))
}

/// Closes those that are over or late.
pub(crate) fn close_late(visitors: &mut Vec<Visitor>, now: u64) {
    for _ in 0..MOST_VISITORS {
        let Some(place) = place_of_closed(visitors.as_slice(), now) else {
            return;
        };
        if place < visitors.len() {
            part(visitors.swap_remove(place));
        }
    }
}

/// The place of the one that has been silent for the longest time, the first of several.
fn most_silent(visitors: &[Visitor]) -> usize
    ensures { IsMostSilent visitors.now result }
{
    let mut found = 0;
    for place in 1..visitors.len() {
        if visitors[place].visit.heard < visitors[found].visit.heard {
            found = place;
        }
    }
    found
}

/// Closes the one that has been silent for the longest time, where there are as many as there may be.
fn make_room(visitors: &mut Vec<Visitor>)
    ensures { length visitors.old.items ≤ 64 → length visitors.new.items ≤ 63 }
{
    if visitors.len() >= MOST_VISITORS {
        let place = most_silent(visitors.as_slice());
        if place < visitors.len() {
            part(visitors.swap_remove(place));
        }
    }
}

/// Takes the connection. Where there are as many as there may be, the one is closed that has been silent for the longest time.
fn take(alloc: Global, visitors: &mut Vec<Visitor>, stream: TcpStream, now: u64)
    ensures { length visitors.old.items ≤ 64 → length visitors.new.items ≤ 64 }
{
    make_room(visitors);
    if let Ok(visitor) = Visitor::new(alloc, stream, now) {
        drop(visitors.push(visitor));
    }
}

/// Says that no connection can be taken, if it wasn't said since the last one that was.
fn tell_untaken<R: Wait + Clock, P: Pictures>(
    rt: &R,
    alloc: Global,
    pictures: &P,
    error: &io::Error,
    was_told: bool,
) {
    if was_told {
        return;
    }
    if let Ok(text) = format!(in alloc; "no connection to the page can be taken: {error}") {
        pictures.tell(rt, text.as_str());
    }
}

/// Takes those that come, none of which is waited for. The answer is whether it was said that none can be taken.
pub(crate) fn take_coming<R: Wait + Clock, P: Pictures>(
    rt: &R,
    alloc: Global,
    port: &HttpPort,
    pictures: &P,
    visitors: &mut Vec<Visitor>,
    now: u64,
    mut was_told: bool,
) -> bool {
    for _ in 0..MOST_VISITORS {
        match port.listener.accept() {
            Ok((stream, _)) => {
                was_told = false;
                take(alloc, visitors, stream, now);
            }
            Err(error) if error.kind() == ErrorKind::WouldBlock => return was_told,
            Err(error) => {
                tell_untaken(rt, alloc, pictures, &error, was_told);
                thread::sleep(rt, Duration::from_millis(PAUSE));
                return true;
            }
        }
    }
    was_told
}
