//! A connection that a port took.

use std::alloc::{AllocError, Global};
use std::net::{Shutdown, SocketAddr, TcpStream};
use std::sync::Arc;

/// A connection that a port took, as each thread of the port holds it. It is closed once nobody holds it.
#[derive(Drop)]
pub struct Connection {
    pub stream: Arc<TcpStream, Global>,
    /// Where it came from.
    pub peer: SocketAddr,
}

impl Connection {
    pub fn new(
        alloc: Global,
        stream: TcpStream,
        peer: SocketAddr,
    ) -> Result<Connection, AllocError> {
        match Arc::new(alloc, stream) {
            Ok(stream) => Ok(Connection { stream, peer }),
            Err(_) => Err(AllocError),
        }
    }

    /// The same connection, for another thread.
    pub fn shared(&self) -> Result<Connection, AllocError> {
        Ok(Connection {
            stream: Arc::try_clone(&self.stream)?,
            peer: self.peer,
        })
    }

    /// Ends it: whoever reads or writes goes on.
    pub fn shut(&self) {
        let _ = self.stream.shutdown(Shutdown::Both);
    }
}
