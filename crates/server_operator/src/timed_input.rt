//! An input that is waited for no longer than a while.

use libc::net::{POLLIN, poll};
use libc::types::pollfd;
use std::io;
use std::io::{ErrorKind, Read};
use std::os::fd::AsRawFd;

/// How long a read waits, in milliseconds.
const MOST_TIME: i32 = 250;

/// Reads from an input that has a descriptor. Where nothing comes for a quarter of a second, the read answers `WouldBlock`, so that
/// whoever reads can look whether to go on.
#[derive(Drop)]
pub struct TimedInput<I: Drop> {
    input: I,
}

impl<I: AsRawFd + Drop> TimedInput<I> {
    pub fn new(input: I) -> TimedInput<I> {
        TimedInput { input }
    }

    /// Waits until a read of the input will not wait. `WouldBlock` where it still would, `Interrupted` where the wait ended early.
    fn wait(&self) -> io::Result<()> {
        let mut asked = [pollfd {
            fd: self.input.as_raw_fd(),
            events: POLLIN,
            revents: 0,
        }];
        match poll(&mut asked, MOST_TIME) {
            0 => Err(io::Error::from(ErrorKind::WouldBlock)),
            1.. => Ok(()),
            _ => Err(io::Error::from(ErrorKind::Interrupted)),
        }
    }
}

impl<I: Read + AsRawFd + Drop> Read for TimedInput<I> {
    fn read(&mut self, buf: &mut [u8]) -> io::Result<usize> {
        self.wait()?;
        self.input.read(buf)
    }
}
