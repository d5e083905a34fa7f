//! The socket file of the consoles.

use crate::open_fault::OpenFault;
use libc::net::listen;
use std::fs::{Files, Permissions};
use std::io::ErrorKind;
use std::net::Net;
use std::os::fd::{AsFd, AsRawFd, OwnedFd};
use std::os::unix::fs::{FileTypeExt, PermissionsExt};
use std::os::unix::net::{SocketAddr, UnixListener, UnixStream};
use std::{fs, io};

/// The rights of the file: its owner may read and write, that is connect.
const OWNER_ALONE: u32 = 0o600;

/// How many connections may wait until they are taken: as many as the system lets wait.
const BACKLOG: i32 = -1;

/// Takes connections at the address, which the socket has, once nobody but the owner of its file can connect.
fn listen_for_owner<R: Files>(rt: &R, path: &str, socket: OwnedFd) -> io::Result<UnixListener> {
    fs::set_permissions(rt, path, Permissions::from_mode(OWNER_ALONE))?;
    if listen(socket.as_raw_fd(), BACKLOG) != 0 {
        return Err(io::Error::from(ErrorKind::Other));
    }
    let listener = UnixListener::from(socket);
    listener.set_nonblocking(true)?;
    Ok(listener)
}

/// Makes the file, and takes connections there. Where that fails, no file is left.
fn bind<R: Files + Net>(rt: &R, path: &str) -> io::Result<UnixListener> {
    let address = SocketAddr::from_pathname(path)?;
    let socket = rt.unix_socket()?;
    rt.bind_unix(socket.as_fd(), &address)?;
    let listening = listen_for_owner(rt, path, socket);
    if listening.is_err() {
        let _ = fs::remove_file(rt, path);
    }
    listening
}

/// Takes a socket file away at which nobody takes connections any more.
fn clear<R: Files + Net>(rt: &R, path: &str) -> Result<(), OpenFault> {
    if !fs::symlink_metadata(rt, path)?.file_type().is_socket() {
        return Err(OpenFault::Other);
    }
    match UnixStream::connect(rt, path) {
        Ok(_) => Err(OpenFault::InUse),
        Err(error) if error.kind() == ErrorKind::ConnectionRefused => {
            fs::remove_file(rt, path)?;
            Ok(())
        }
        Err(error) => Err(OpenFault::System(error)),
    }
}

/// Makes the socket file, for its owner alone, and takes connections there. A socket file that a program has left which was killed is
/// taken over; one in use isn't, nor is any other file.
pub fn open_socket<R: Files + Net>(rt: &R, path: &str) -> Result<UnixListener, OpenFault> {
    match bind(rt, path) {
        Ok(listener) => Ok(listener),
        Err(error) if error.kind() == ErrorKind::AddrInUse => {
            clear(rt, path)?;
            Ok(bind(rt, path)?)
        }
        Err(error) => Err(OpenFault::System(error)),
    }
}

/// Takes the socket file away.
pub fn close_socket<R: Files>(rt: &R, path: &str) {
    let _ = fs::remove_file(rt, path);
}
