//! What is said on standard error, for the tests to see.

use std::io;
use std::io::{Error, ErrorKind, Write};
use std::sync::{Mutex, Wait};

/// What is said on standard error.
#[derive(Drop)]
pub(crate) struct Said<'a, R> {
    pub(crate) rt: &'a R,
    pub(crate) octets: &'a Mutex<Vec<u8>>,
}

impl<R: Wait> Write for Said<'_, R> {
    fn write(&mut self, buf: &[u8]) -> io::Result<usize> {
        match self.octets.lock(self.rt).extend_from_slice(buf) {
            Ok(()) => Ok(buf.len()),
            Err(_) => Err(Error::from(ErrorKind::OutOfMemory)),
        }
    }

    fn flush(&mut self) -> io::Result<()> {
        Ok(())
    }
}
