//! Lines that are answered together.

ghost use Rattle.std.specs.Prelude.{◌≡◌, ◌++◌, ◌↔◌, [], OnOk, IsTrue, max, true, if◌then◌else◌};
ghost use Rattle.std.specs.Io.KnownBytes.{Appends};
ghost use Rattle.journal_keeper.specs.Kept.{Covers};

use crate::server::Server;
use console_text::ReplayFault;
use journal_keeper::KeptUpTo;
use std::alloc::Global;
use std::io::Write;
use std::mem;
use std::sync::Wait;
use std::time::Clock;

/// The most octets of answers that are gathered.
const MOST_GATHERED: usize = 65_536;

/// The lines that are there already when one of them is read. Their answers are written together.
#[derive(Drop)]
pub(crate) struct Batch {
    /// The answers that aren't written yet, one behind the other.
    answers: Vec<u8>,
    /// The place of the last entry of which these may tell, of those that were entered for them.
    place: u64,
    /// All that had come is read, so the next read may wait.
    pub(crate) may_wait: bool,
    /// The server wasn't told yet that the latest line was answered.
    is_untold: bool,
}

/// Writes the text.
fn write_text<W: Write>(writer: &mut W, text: &[u8]) -> Result<(), ReplayFault>
    ensures { OnOk result (Appends (W.contents writer.old) (W.contents writer.new) text.now) }
{
    match writer.write_all(text) {
        Ok(()) => Ok(()),
        Err(_) => Err(ReplayFault::WriteFault),
    }
}

/// Writes the two texts one behind the other.
#[tactic(auto, using(crate::proofs::BatchLemmas::appended_both))]
fn write_both<W: Write>(writer: &mut W, first: &[u8], second: &[u8]) -> Result<(), ReplayFault>
    ensures { OnOk result (Appends (W.contents writer.old) (W.contents writer.new) (first.now ++ second.now)) }
{
    write_text(writer, first)?;
    write_text(writer, second)?;
    match writer.flush() {
        Ok(()) => Ok(()),
        Err(_) => Err(ReplayFault::WriteFault),
    }
}

impl Batch {
    /// No line is answered.
    pub(crate) fn new(alloc: Global) -> Batch
        ensures answers { result.answers.items ≡ [] }
        ensures wait { result.may_wait ≡ true }
    {
        Batch {
            answers: Vec::new(alloc),
            place: 0,
            may_wait: true,
            is_untold: false,
        }
    }

    /// Whether all answers are written.
    pub(crate) fn is_written(&self) -> bool
        ensures { IsTrue result ↔ (self.now.answers.items ≡ []) }
    {
        self.answers.is_empty()
    }

    /// A line was answered, when this was the place of the last entry that was entered for the lines.
    pub(crate) fn count(&mut self, place: u64)
        ensures { self.new ≡ record self.old { is_untold = true; place = max self.old.place place } }
    {
        self.is_untold = true;
        self.place = self.place.max(place);
    }

    /// The place of the last entry of which the answers may tell, of those that were entered for them.
    pub(crate) fn place(&self) -> u64
        ensures { result ≡ self.now.place }
    {
        self.place
    }

    /// Takes the answer among those that are written together. The answer is whether it is taken: it isn't where there would be too
    /// many octets, or where memory runs out for them.
    pub(crate) fn gather(&mut self, text: &[u8]) -> bool
        ensures answers { self.new.answers.items ≡ (if result then self.old.answers.items ++ text.now else self.old.answers.items) }
        ensures wait { self.new.may_wait ≡ self.old.may_wait }
        ensures place { self.new.place ≡ self.old.place }
    {
        if self.answers.len().saturating_add(text.len()) > MOST_GATHERED {
            return false;
        }
        self.answers.extend_from_slice(text).is_ok()
    }

    /// Writes the answers, and that text behind them, as what they tell is kept. At a fault nobody knows how much of them is written, so
    /// none is written again.
    pub(crate) fn write<W: Write>(
        &mut self,
        writer: &mut W,
        text: &[u8],
        kept: &KeptUpTo,
    ) -> Result<(), ReplayFault>
        requires covers { Covers kept.now self.old.place }
        ensures written { OnOk result (Appends (W.contents writer.old) (W.contents writer.new) (self.old.answers.items ++ text.now)) }
        ensures none { self.new.answers.items ≡ [] }
        ensures place { self.new.place ≡ self.old.place }
    {
        let _ = kept;
        let result = write_both(writer, self.answers.as_slice(), text);
        self.answers.clear();
        result
    }

    /// The answers aren't written any more.
    pub(crate) fn forget(&mut self)
        ensures none { self.new.answers.items ≡ [] }
        ensures place { self.new.place ≡ self.old.place }
    {
        self.answers.clear();
        self.is_untold = false;
    }

    /// Tells the server that the latest line was answered, where it wasn't told yet.
    pub(crate) fn tell<S: Server, R: Wait + Clock>(&mut self, rt: &R, server: &S)
        ensures answers { self.new.answers ≡ self.old.answers }
        ensures place { self.new.place ≡ self.old.place }
    {
        if mem::replace(&mut self.is_untold, false) {
            server.answered(rt);
        }
    }
}
