//! The side of a stream that is read from.

ghost use Rattle.std.specs.Prelude.{◌≡◌, ℕ, ◌≤◌, List, Option, length, IfOk, is_err};
ghost use Rattle.std.specs.Io.KnownBytes.{ReadConsumes};
ghost use Rattle.framing.specs.Source.{counted, with_failure};

use crate::Failed;
use crate::interrupted::read_again;
use std::io::Read;

/// The most reads of a loop that reads a stream to its end. So each such loop ends.
pub const MOST_READS: u64 = 1_000_000_000_000;

/// What octets are read from: a connection, standard input, or octets in memory.
///
/// It tells the octets that it has yet to give where they are known, the number of its reads, and how
/// many of them failed.
pub trait Source {
    ghost remaining: { Self → Option (List ℕ) };

    ghost calls: { Self → ℕ };

    ghost failures: { Self → ℕ };

    /// Fills the front of the buffer and answers how many octets that were. A buffer with room gets
    /// none only at the end of the stream.
    fn read(&mut self, buffer: &mut [u8]) -> Result<usize, Failed>
        ensures bound { IfOk result (λ n. n ≤ length buffer.old) }
        ensures octets { ReadConsumes (remaining self.old) (remaining self.new) result buffer.new }
        ensures calls { calls self.new ≡ counted (calls self.old) 1 }
        ensures failures { failures self.new ≡ with_failure (failures self.old) (is_err result) };
}

/// A source that reads from a reader of the standard library. A read that a signal to the process
/// interrupts is made again, as the same call.
#[derive(Drop)]
pub struct FromRead<R: Read + Drop> {
    reader: R,
    calls: u64,
    failures: u64,
}

impl<R: Read + Drop> FromRead<R> {
    /// Earlier reads of the reader don't count, nor do their failures.
    pub fn new(reader: R) -> Self
        ensures remaining { ⟦<FromRead<R> as Source>⟧.remaining result ≡ R.remaining reader }
        ensures calls { ⟦<FromRead<R> as Source>⟧.calls result ≡ 0 }
        ensures failures { ⟦<FromRead<R> as Source>⟧.failures result ≡ 0 }
    {
        FromRead {
            reader,
            calls: 0,
            failures: 0,
        }
    }

    /// The reader. The source holds none of its octets back.
    pub fn into_inner(self) -> R
        ensures { R.remaining result ≡ ⟦<FromRead<R> as Source>⟧.remaining self }
    {
        let FromRead {
            reader,
            calls: _,
            failures: _,
        } = self;
        reader
    }
}

impl<R: Read + Drop> Source for FromRead<R> {
    ghost remaining = { λ s. R.remaining s.reader };

    ghost calls = { λ s. s.calls };

    ghost failures = { λ s. s.failures };

    fn read(&mut self, buffer: &mut [u8]) -> Result<usize, Failed> {
        self.calls = self.calls.saturating_add(1);
        match read_again(&mut self.reader, buffer) {
            Ok(count) => Ok(count),
            Err(failed) => {
                self.failures = self.failures.saturating_add(1);
                Err(failed)
            }
        }
    }
}
