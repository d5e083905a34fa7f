//! A source that fails at one read.

ghost use Rattle.std.specs.Prelude.{◌≡◌, ℕ};

use crate::{Failed, Source};

/// Fails at one read, counted from 1, and reads as the source within at all others.
#[derive(Drop)]
pub struct FailsAtRead<S: Source + Drop> {
    source: S,
    fatal_read: u64,
    calls: u64,
    failures: u64,
}

impl<S: Source + Drop> FailsAtRead<S> {
    pub fn new(source: S, fatal_read: u64) -> Self {
        FailsAtRead {
            source,
            fatal_read,
            calls: 0,
            failures: 0,
        }
    }
}

impl<S: Source + Drop> Source for FailsAtRead<S> {
    ghost remaining = { λ s. S.remaining s.source };

    ghost calls = { λ s. s.calls };

    ghost failures = { λ s. s.failures };

    fn read(&mut self, buffer: &mut [u8]) -> Result<usize, Failed> {
        self.calls = self.calls.saturating_add(1);
        if self.calls == self.fatal_read {
            self.failures = self.failures.saturating_add(1);
            return Err(Failed);
        }
        match self.source.read(buffer) {
            Ok(count) => Ok(count),
            Err(failed) => {
                self.failures = self.failures.saturating_add(1);
                Err(failed)
            }
        }
    }
}
