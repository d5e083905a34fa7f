//! Why a read or a write of a connection failed.

ghost use Rattle.std.specs.Prelude.{◌≡◌};
ghost use Rattle.server_ports.specs.Causes.{broken_by};

use std::io::ErrorKind;

/// What the system says of a connection of which a read or a write failed.
#[derive(Clone, Copy, Debug, PartialEq, Eq)]
pub enum Broken {
    /// The peer had closed it.
    Closed,
    /// The peer had reset it.
    Reset,
    /// The peer didn't answer for so long that the system gave up.
    TimedOut,
    /// Anything else, as a connection that this program had shut.
    Otherwise,
}

impl Broken {
    /// What an error of this kind says.
    pub fn of(kind: ErrorKind) -> Broken
        ensures { result ≡ broken_by kind }
    {
        match kind {
            ErrorKind::BrokenPipe => Broken::Closed,
            ErrorKind::ConnectionReset | ErrorKind::ConnectionAborted => Broken::Reset,
            ErrorKind::TimedOut | ErrorKind::HostUnreachable | ErrorKind::NetworkUnreachable => {
                Broken::TimedOut
            }
            _ => Broken::Otherwise,
        }
    }
}
