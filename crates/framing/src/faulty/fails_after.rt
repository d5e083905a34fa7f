//! A sink that fails once it is full.

ghost use Rattle.std.specs.Prelude.{◌≡◌, ℕ};

use crate::{Failed, Sink};

/// Takes so many octets, as the sink within does, and fails at each write after them.
#[derive(Drop)]
pub struct FailsAfter<W: Sink + Drop> {
    sink: W,
    room: usize,
    calls: u64,
    failures: u64,
}

impl<W: Sink + Drop> FailsAfter<W> {
    pub fn new(sink: W, room: usize) -> Self {
        FailsAfter {
            sink,
            room,
            calls: 0,
            failures: 0,
        }
    }

    pub fn into_inner(self) -> W {
        let FailsAfter {
            sink,
            room: _,
            calls: _,
            failures: _,
        } = self;
        sink
    }
}

impl<W: Sink + Drop> Sink for FailsAfter<W> {
    ghost written = { λ s. W.written s.sink };

    ghost calls = { λ s. s.calls };

    ghost failures = { λ s. s.failures };

    fn write(&mut self, octets: &[u8]) -> Result<usize, Failed> {
        self.calls = self.calls.saturating_add(1);
        if self.room == 0 {
            self.failures = self.failures.saturating_add(1);
            return Err(Failed);
        }
        let most = octets.len().min(self.room);
        match self.sink.write(&octets[..most]) {
            Ok(count) => {
                if count == 0 && !octets.is_empty() {
                    self.failures = self.failures.saturating_add(1);
                }
                self.room -= count;
                Ok(count)
            }
            Err(failed) => {
                self.failures = self.failures.saturating_add(1);
                Err(failed)
            }
        }
    }
}
