//! The side of a stream that is written to.

ghost use Rattle.std.specs.Prelude.{◌≡◌, ℕ, ◌≤◌, List, Option, length, IfOk, OnOk, OnErr, is_err};
ghost use Rattle.std.specs.Io.KnownBytes.{Appends, WriteAppends};
ghost use Rattle.framing.specs.Source.{counted, with_failure};
ghost use Rattle.framing.specs.Sink.{AppendsFront, is_refused};

use crate::Failed;
use crate::interrupted::write_again;
use std::io::Write;

/// What octets are written to: a connection, standard output, or octets in memory.
///
/// It tells the octets that it took where they are known, the number of its writes, and how many
/// of them failed. A write that takes none of one octet or more counts as failed.
pub trait Sink {
    ghost written: { Self → Option (List ℕ) };

    ghost calls: { Self → ℕ };

    ghost failures: { Self → ℕ };

    /// Takes the front of the octets and answers how many octets that were.
    fn write(&mut self, octets: &[u8]) -> Result<usize, Failed>
        ensures bound { IfOk result (λ n. n ≤ length octets.now) }
        ensures octets { WriteAppends (written self.old) (written self.new) result octets.now }
        ensures calls { calls self.new ≡ counted (calls self.old) 1 }
        ensures failures { failures self.new ≡ with_failure (failures self.old) (is_refused result (length octets.now)) };
}

/// A sink that writes to a writer of the standard library. A write that a signal to the process
/// interrupts is made again, as the same call. Nothing is flushed.
#[derive(Drop)]
pub struct FromWrite<W: Write + Drop> {
    writer: W,
    calls: u64,
    failures: u64,
}

impl<W: Write + Drop> FromWrite<W> {
    /// Earlier writes to the writer don't count, nor do their failures.
    pub fn new(writer: W) -> Self
        ensures written { ⟦<FromWrite<W> as Sink>⟧.written result ≡ W.contents writer }
        ensures calls { ⟦<FromWrite<W> as Sink>⟧.calls result ≡ 0 }
        ensures failures { ⟦<FromWrite<W> as Sink>⟧.failures result ≡ 0 }
    {
        FromWrite {
            writer,
            calls: 0,
            failures: 0,
        }
    }

    /// The writer. If it holds octets back, its owner has to flush it.
    pub fn into_inner(self) -> W
        ensures { W.contents result ≡ ⟦<FromWrite<W> as Sink>⟧.written self }
    {
        let FromWrite {
            writer,
            calls: _,
            failures: _,
        } = self;
        writer
    }
}

impl<W: Write + Drop> Sink for FromWrite<W> {
    ghost written = { λ s. W.contents s.writer };

    ghost calls = { λ s. s.calls };

    ghost failures = { λ s. s.failures };

    fn write(&mut self, octets: &[u8]) -> Result<usize, Failed> {
        self.calls = self.calls.saturating_add(1);
        match write_again(&mut self.writer, octets) {
            Ok(count) => {
                if count == 0 && !octets.is_empty() {
                    self.failures = self.failures.saturating_add(1);
                }
                Ok(count)
            }
            Err(failed) => {
                self.failures = self.failures.saturating_add(1);
                Err(failed)
            }
        }
    }
}

/// Writes all the octets, in as many writes as it takes. At an `Err` one of these writes was refused or
/// took none, and what was taken before it is a prefix of the octets.
pub fn write_all<W: Sink>(writer: &mut W, octets: &[u8]) -> Result<(), Failed>
    ensures all { OnOk result (Appends (W.written writer.old) (W.written writer.new) octets.now) }
    ensures part { OnErr result (AppendsFront (W.written writer.old) (W.written writer.new) octets.now) }
    ensures failures { W.failures writer.new ≡ with_failure (W.failures writer.old) (is_err result) }
{
    let mut rest = octets;
    while !rest.is_empty() {
        let count = writer.write(rest)?;
        if count == 0 {
            return Err(Failed);
        }
        let (_, after) = rest.split_at(count);
        rest = after;
    }
    Ok(())
}
