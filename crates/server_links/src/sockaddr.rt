//! An address and a port, as the system has them.

ghost use Rattle.std.specs.Prelude.{◌≡◌, ◌+◌, ◌≤◌, ◌++◌, ℕ, List, length};
ghost use Rattle.std.specs.Net.SockAddr.{family_and_port, in_storage, sockaddr, sockaddr_in, sockaddr_in6, sockaddr_len};

use libc::net::{_SS_SIZE, AF_INET, AF_INET6};
use std::net::{SocketAddr, SocketAddrV4, SocketAddrV6};

const V4_LENGTH: u32 = 16;

const V6_LENGTH: u32 = 28;

/// Puts octets behind those that are there.
fn put(raw: &mut [u8; _SS_SIZE], at: usize, octets: &[u8])
    requires { at + length octets.now ≤ 128 }
    ensures { (front : List ℕ) → length front ≡ at → raw.old ≡ in_storage front → raw.new ≡ in_storage (front ++ octets.now) }
{
    raw[at..at + octets.len()].copy_from_slice(octets);
}

fn begun(family: u16, port: u16) -> [u8; _SS_SIZE]
    ensures { result ≡ in_storage (family_and_port family port) }
{
    let mut raw = [0u8; _SS_SIZE];
    put(&mut raw, 0, &family.to_ne_bytes());
    put(&mut raw, 2, &port.to_be_bytes());
    raw
}

fn encode_v4(address: SocketAddrV4) -> [u8; _SS_SIZE]
    ensures { result ≡ in_storage (sockaddr_in address) }
{
    let mut raw = begun(AF_INET as u16, address.port());
    put(&mut raw, 4, &address.ip().octets());
    raw
}

fn encode_v6(address: SocketAddrV6) -> [u8; _SS_SIZE]
    ensures { result ≡ in_storage (sockaddr_in6 address) }
{
    let mut raw = begun(AF_INET6 as u16, address.port());
    put(&mut raw, 4, &address.flowinfo().to_ne_bytes());
    put(&mut raw, 8, &address.ip().octets());
    put(&mut raw, 24, &address.scope_id().to_ne_bytes());
    raw
}

/// The octets, and how many of them the system is to read.
pub(crate) fn encode(address: SocketAddr) -> ([u8; _SS_SIZE], u32)
    ensures octets { result.0 ≡ in_storage (sockaddr address) }
    ensures length { result.1 ≡ sockaddr_len address }
    ensures within { result.1 ≤ 128 }
{
    match address {
        SocketAddr::V4(address) => (encode_v4(address), V4_LENGTH),
        SocketAddr::V6(address) => (encode_v6(address), V6_LENGTH),
    }
}
