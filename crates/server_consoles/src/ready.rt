//! What is known of a descriptor without a read or a write.

use libc::net::{POLLERR, POLLHUP, POLLIN, POLLNVAL, poll};
use libc::types::pollfd;
use std::os::fd::RawFd;

/// How long is waited for a connection, in milliseconds.
const MOST_TIME: i32 = 250;

/// Whether something has come that can be read or taken, or that can't be known. It waits a quarter of a second for it.
pub(crate) fn is_ready(fd: RawFd) -> bool {
    let mut asked = [pollfd {
        fd,
        events: POLLIN,
        revents: 0,
    }];
    poll(&mut asked, MOST_TIME) != 0
}

/// Whether the other end of the connection is closed for good.
pub(crate) fn is_over(fd: RawFd) -> bool {
    let mut asked = [pollfd {
        fd,
        events: 0,
        revents: 0,
    }];
    poll(&mut asked, 0) > 0 && asked[0].revents & (POLLHUP | POLLERR | POLLNVAL) != 0
}
