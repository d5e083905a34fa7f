//! A source that ends early.

ghost use Rattle.std.specs.Prelude.{◌≡◌, ℕ, None};

use crate::{Failed, Source};

/// Is at its end from one read on, counted from 1, and reads as the source within before that. What
/// it has yet to give is therefore not told.
#[derive(Drop)]
pub struct EndsAtRead<S: Source + Drop> {
    source: S,
    last_read: u64,
    calls: u64,
    failures: u64,
}

impl<S: Source + Drop> EndsAtRead<S> {
    pub fn new(source: S, last_read: u64) -> Self {
        EndsAtRead {
            source,
            last_read,
            calls: 0,
            failures: 0,
        }
    }
}

impl<S: Source + Drop> Source for EndsAtRead<S> {
    ghost remaining = { λ _. None };

    ghost calls = { λ s. s.calls };

    ghost failures = { λ s. s.failures };

    fn read(&mut self, buffer: &mut [u8]) -> Result<usize, Failed> {
        self.calls = self.calls.saturating_add(1);
        if self.last_read <= self.calls {
            return Ok(0);
        }
        match self.source.read(buffer) {
            Ok(count) => Ok(count),
            Err(failed) => {
                self.failures = self.failures.saturating_add(1);
                Err(failed)
            }
        }
    }
}
