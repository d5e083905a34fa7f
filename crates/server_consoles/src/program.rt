//! The program, as its consoles know it.

use server_operator::Server;
use std::alloc::{AllocError, Global};
use std::sync::Wait;
use std::time::Clock;

/// The program, as its consoles know it.
pub trait Program: Server {
    /// Has the program end, as `quit` on standard input does.
    fn end<R: Wait>(&self, rt: &R);

    /// Says something of the consoles on standard error.
    fn tell<R: Wait + Clock>(&self, rt: &R, what: &str);

    /// How many lines were said on standard error that consoles are shown which follow the journal.
    fn said_count<R: Wait>(&self, _rt: &R) -> u64 {
        0
    }

    /// What such a console is shown of the lines behind that number, and the number of the last.
    fn said_after<R: Wait>(
        &self,
        _rt: &R,
        alloc: Global,
        place: u64,
    ) -> Result<(u64, Vec<u8>), AllocError> {
        Ok((place, Vec::new(alloc)))
    }
}
