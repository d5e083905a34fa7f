//! Time taken.

use std::io;
use std::rt::Clock;
use std::time::{Duration, Instant};

/// Runs from when it was made.
#[derive(Drop)]
pub struct Stopwatch {
    start: Instant,
}

impl Stopwatch {
    pub fn start(rt: &impl Clock) -> io::Result<Stopwatch> {
        Ok(Stopwatch {
            start: Instant::now(rt)?,
        })
    }

    /// Millions of octets a second, where so many octets were handled since the start.
    pub fn rate(&self, rt: &impl Clock, octets: u64) -> io::Result<u64> {
        Ok(octets.checked_div(self.microseconds(rt)?).unwrap_or(0))
    }

    /// Picoseconds for each of so many octets handled since the start.
    pub fn picoseconds_each(&self, rt: &impl Clock, octets: u64) -> io::Result<u64> {
        let picoseconds = self.microseconds(rt)?.saturating_mul(1_000_000);
        Ok(picoseconds.checked_div(octets).unwrap_or(0))
    }

    /// Microseconds since the start.
    fn microseconds(&self, rt: &impl Clock) -> io::Result<u64> {
        let time: Duration = self.start.elapsed(rt)?;
        Ok(u64::try_from(time.as_micros()).unwrap_or(u64::MAX))
    }
}
