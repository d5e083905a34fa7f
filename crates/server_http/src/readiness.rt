//! Which connections are ready.

use crate::http_port::HttpPort;
use crate::visitor::Visitor;
use libc::net::{POLLIN, poll};
use libc::types::pollfd;
use std::alloc::{AllocError, Global};
use std::os::fd::AsRawFd;

/// How long is waited for anybody, in milliseconds.
const MOST_TIME: i32 = 250;

/// Waits a quarter of a second until something can be done: for the first, a connection be taken, for each other its visitor be
/// served. `fds` is written over.
pub(crate) fn wait_ready(
    port: &HttpPort,
    visitors: &[Visitor],
    fds: &mut Vec<pollfd>,
) -> Result<(), AllocError> {
    fds.clear();
    fds.push(pollfd {
        fd: port.listener.as_raw_fd(),
        events: POLLIN,
        revents: 0,
    })?;
    for visitor in visitors {
        fds.push(pollfd {
            fd: visitor.stream.as_raw_fd(),
            events: visitor.events(),
            revents: 0,
        })?;
    }
    let _ = poll(fds.as_mut_slice(), MOST_TIME);
    Ok(())
}

/// No descriptor is asked for.
pub(crate) fn no_fds(alloc: Global) -> Vec<pollfd> {
    Vec::new(alloc)
}
