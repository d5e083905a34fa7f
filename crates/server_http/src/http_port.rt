//! Where the page is served.

use std::io;
use std::net::{Net, SocketAddr, TcpListener, TcpStream};
use std::sync::atomic::{AtomicBool, Ordering};

/// Where the page is served, and whether it still is.
#[derive(Drop)]
pub struct HttpPort {
    /// Takes connections without waiting.
    pub(crate) listener: TcpListener,
    pub address: SocketAddr,
    is_closing: AtomicBool,
}

impl HttpPort {
    /// Listens at that address, `HOST:PORT`.
    pub fn open<R: Net<Stream = TcpStream, Listener = TcpListener>>(
        rt: &R,
        address: &str,
    ) -> io::Result<HttpPort> {
        let listener = TcpListener::bind(rt, address)?;
        listener.set_nonblocking(true)?;
        let address = listener.local_addr()?;
        Ok(HttpPort {
            listener,
            address,
            is_closing: AtomicBool::new(false),
        })
    }

    /// Has the thread end that serves the page, within a quarter of a second.
    pub fn close(&self) {
        self.is_closing.store(true, Ordering::SeqCst);
    }

    pub(crate) fn is_closing(&self) -> bool {
        self.is_closing.load(Ordering::SeqCst)
    }
}
