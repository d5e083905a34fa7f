//! A connection of somebody who looks.

use crate::counted_keys::keys;
use crate::visit::Visit;
use http_server::{Config, Connection};
use http1::Limits;
use libc::net::{POLLIN, POLLOUT};
use std::alloc::Global;
use std::io;
use std::net::TcpStream;

/// How many octets the head of a request may have.
const MOST_HEAD: usize = 16_384;

/// How many octets may wait to be sent before a further request is read.
const MOST_PENDING: usize = 65_536;

/// How many octets a read is given room for, at least.
const READ_SIZE: usize = 4_096;

/// A connection of somebody who looks.
#[derive(Drop)]
pub(crate) struct Visitor {
    pub(crate) stream: TcpStream,
    pub(crate) connection: Connection,
    pub(crate) visit: Visit,
}

impl Visitor {
    /// Nobody is waited for on the connection.
    pub(crate) fn new(alloc: Global, stream: TcpStream, now: u64) -> io::Result<Visitor> {
        stream.set_nonblocking(true)?;
        let _ = stream.set_nodelay(true);
        let config = Config {
            limits: Limits {
                max_head_len: MOST_HEAD,
                max_extensions_len: MOST_HEAD,
                max_trailers_len: MOST_HEAD,
            },
            max_body_len: 0,
            max_pending: MOST_PENDING,
            read_size: READ_SIZE,
        };
        Ok(Visitor {
            stream,
            connection: Connection::new(alloc, keys()?, config),
            visit: Visit::new(now),
        })
    }

    /// For what it waits, as `poll` is asked.
    pub(crate) fn events(&self) -> i16 {
        if self.visit.is_leaving {
            return POLLIN;
        }
        match (self.connection.wants_read(), self.connection.wants_write()) {
            (true, true) => POLLIN | POLLOUT,
            (true, false) => POLLIN,
            (false, true) => POLLOUT,
            (false, false) => 0,
        }
    }
}
