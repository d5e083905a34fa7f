//! What the system does by itself about a connection whose other end has gone.

use libc::net::{
    IPPROTO_TCP, SO_KEEPALIVE, SOL_SOCKET, TCP_KEEPCNT, TCP_KEEPIDLE, TCP_KEEPINTVL,
    TCP_USER_TIMEOUT, setsockopt,
};
use std::net::TcpStream;
use std::os::fd::AsRawFd;

/// After how many seconds without a word the system asks the other end, and how often then.
const IDLE: u32 = 50;

const INTERVAL: u32 = 10;

/// After how many questions without an answer it gives the connection up.
const COUNT: u32 = 5;

/// After how many milliseconds it gives up where what is written isn't taken.
const USER_TIMEOUT: u32 = 100_000;

/// A number, as the system has the value of an option.
pub(crate) fn value_of(number: u32) -> [u8; 16] {
    let [a, b, c, d] = number.to_le_bytes();
    let mut value = [0; 16];
    value[0] = a;
    value[1] = b;
    value[2] = c;
    value[3] = d;
    value
}

/// Has the system give a connection up, within two minutes, whose other end has gone, or takes nothing. Where it can't be had, the
/// connection goes on without it.
pub(crate) fn watch_connection(stream: &TcpStream) {
    let fd = stream.as_raw_fd();
    let _ = unsafe { setsockopt(fd, SOL_SOCKET, SO_KEEPALIVE, &value_of(1), 4) };
    let _ = unsafe { setsockopt(fd, IPPROTO_TCP, TCP_KEEPIDLE, &value_of(IDLE), 4) };
    let _ = unsafe { setsockopt(fd, IPPROTO_TCP, TCP_KEEPINTVL, &value_of(INTERVAL), 4) };
    let _ = unsafe { setsockopt(fd, IPPROTO_TCP, TCP_KEEPCNT, &value_of(COUNT), 4) };
    let _ = unsafe {
        setsockopt(
            fd,
            IPPROTO_TCP,
            TCP_USER_TIMEOUT,
            &value_of(USER_TIMEOUT),
            4,
        )
    };
}
