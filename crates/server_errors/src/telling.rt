//! What is said of the centre, of BSCs and of their links. Each line has the time at which the call was made. Where memory runs out
//! for a line, it isn't said.

use crate::errors::Errors;
use crate::level::Level;
use crate::lines::{bsc_text, link_text};
use cell_register::BscId;
use std::alloc::Global;
use std::fmt::Display;
use std::io::Write;
use std::net::SocketAddr;
use std::sync::Wait;
use std::time::Clock;

/// Has a line of the centre said, or of no BSC alone: `2026-11-27T19:53:45Z cbc: ` and this. It is a notice.
pub fn say_of_centre<E: Write + Drop, R: Wait + Clock, D: Display + Drop>(
    rt: &R,
    alloc: Global,
    errors: &Errors<E>,
    what: D,
) {
    say_of_centre_at(rt, alloc, errors, Level::Notice, what);
}

/// The same, at that level.
pub fn say_of_centre_at<E: Write + Drop, R: Wait + Clock, D: Display + Drop>(
    rt: &R,
    alloc: Global,
    errors: &Errors<E>,
    level: Level,
    what: D,
) {
    if let Ok(what) = format!(in alloc; "{what}") {
        errors.tell(rt, alloc, level, what.as_str());
    }
}

/// Has a line of a BSC said, or of its port: `2026-11-27T19:53:45Z cbc: BSC 2: ` and this. It is a warning.
pub fn tell<E: Write + Drop, R: Wait + Clock, D: Display + Drop>(
    rt: &R,
    alloc: Global,
    errors: &Errors<E>,
    b: BscId,
    what: D,
) {
    let Ok(what) = format!(in alloc; "{what}") else {
        return;
    };
    if let Ok(text) = bsc_text(alloc, b, what.as_str()) {
        errors.tell(rt, alloc, Level::Warning, text.as_str());
    }
}

/// Has a line of a BSC's link said, which came from that address: `2026-11-27T19:53:45Z cbc: BSC 2 (127.0.0.1:40312): ` and this. It is
/// a warning.
pub fn tell_link<E: Write + Drop, R: Wait + Clock, D: Display + Drop>(
    rt: &R,
    alloc: Global,
    errors: &Errors<E>,
    b: BscId,
    peer: &SocketAddr,
    what: D,
) {
    tell_link_at(rt, alloc, errors, Level::Warning, b, peer, what);
}

/// The same, at that level.
pub fn tell_link_at<E: Write + Drop, R: Wait + Clock, D: Display + Drop>(
    rt: &R,
    alloc: Global,
    errors: &Errors<E>,
    level: Level,
    b: BscId,
    peer: &SocketAddr,
    what: D,
) {
    let Ok(what) = format!(in alloc; "{what}") else {
        return;
    };
    if let Ok(text) = link_text(alloc, b, peer, what.as_str()) {
        errors.tell(rt, alloc, level, text.as_str());
    }
}
