//! A knock: a SYN to where a BSC's link came from, from the port to which it connected.

use crate::sockaddr::encode;
use crate::tcp::value_of;
use libc::close;
use libc::net::{
    AF_INET, AF_INET6, SO_REUSEADDR, SOCK_CLOEXEC, SOCK_NONBLOCK, SOCK_STREAM, SOL_SOCKET, bind,
    connect, setsockopt, socket,
};
use std::net::{IpAddr, Ipv4Addr, SocketAddr};

/// Whether both are addresses of IPv4, or both of IPv6.
fn are_alike(one: IpAddr, other: IpAddr) -> bool {
    one.is_ipv4() == other.is_ipv4()
}

/// The address and the port from which a BSC is knocked at that connected to this one. Who listens on `::` is reached over IPv4 too.
/// `None` where the BSC can't have connected to it.
fn from_of(listened: SocketAddr, to: SocketAddr) -> Option<SocketAddr> {
    if are_alike(listened.ip(), to.ip()) {
        return Some(listened);
    }
    if to.is_ipv4() && listened.ip().is_unspecified() {
        return Some(SocketAddr::new(IpAddr::V4(Ipv4Addr::UNSPECIFIED), listened.port()));
    }
    None
}

/// A new socket that never waits; negative where there is none.
fn open(to: SocketAddr) -> i32 {
    let kind = SOCK_STREAM | SOCK_NONBLOCK | SOCK_CLOEXEC;
    match to {
        SocketAddr::V4(_) => unsafe { socket(AF_INET, kind, 0) },
        SocketAddr::V6(_) => unsafe { socket(AF_INET6, kind, 0) },
    }
}

/// Begins to connect from one to the other. `false` where the port can't be had. Who listens on it later isn't kept from that.
fn begin(fd: i32, from: SocketAddr, to: SocketAddr) -> bool {
    let (own, own_length) = encode(from);
    let (other, other_length) = encode(to);
    let _ = unsafe { setsockopt(fd, SOL_SOCKET, SO_REUSEADDR, &value_of(1), 4) };
    if unsafe { bind(fd, &own, own_length) } < 0 {
        return false;
    }
    let _ = unsafe { connect(fd, &other, other_length) };
    true
}

/// Knocks at a BSC whose link came from `to`, from the address and port that is to be listened on: a SYN goes there, and nothing is
/// waited for and nothing else is sent. A BSC that still holds that link answers by the number of an octet that was never sent; then
/// the system of this machine resets it, and the BSC connects anew. `false` where no SYN can go out. It has to come before the port is
/// listened on.
pub fn knock(listened: SocketAddr, to: SocketAddr) -> bool {
    let Some(from) = from_of(listened, to) else {
        return false;
    };
    let fd = open(to);
    if fd < 0 {
        return false;
    }
    let is_begun = begin(fd, from, to);
    let _ = close(fd);
    is_begun
}
