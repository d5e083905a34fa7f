//! What follows a journal into a file.

ghost use Rattle.std.specs.Prelude.{◌≡◌, ◌↔◌, IsTrue};
ghost use Rattle.journal_file.specs.Lines.{IsLine};

use crate::comment::is_comment;
use crate::journal_file::{JournalFile, append_all};
use crate::line_end::has_no_end;
use crate::loading::LONGEST_LINE;
use crate::put_fault::PutFault;
use crate::synced::Synced;
use framing::Failed;
use std::alloc::{AllocError, Global};
use std::marker::Model;

/// The line that stands where the journal was folded.
const CHECKPOINT: &[u8] = b"checkpoint";

/// Whether the octets can stand in a file as one line.
fn fits(line: &[u8]) -> bool
    ensures { IsTrue result ↔ IsLine line.now }
{
    line.len() <= LONGEST_LINE && has_no_end(line)
}

/// What follows a journal into a file: how far it has come, and the octets that aren't written yet. Lines are put in the order of
/// the journal, and `keep` writes and syncs all that were put. Once a write or a sync has failed, each later `keep` fails.
#[derive(Drop)]
pub struct Writing {
    taken: u64,
    waiting: Vec<u8>,
    synced: u64,
    failed: bool,
}

impl Model for Writing {
    ghost use Rattle.journal_file.specs.Writing.{WritingState};

    ghost Value = { WritingState };

    ghost view = { λ s. record { taken = s.taken; waiting = s.waiting.items; synced = s.synced; failed = s.failed } };
}

impl Writing {
    ghost use Rattle.std.specs.Prelude.{◌≡◌, ◌++◌, ◌∷◌, [], false, true, IfOk, OnOk, OnErr, IfErr};
    ghost use Rattle.journal_file.specs.File.{Grows, GrowsForGood, GrowsInPart};
    ghost use Rattle.journal_file.specs.Lines.{IsCommentLine, IsEntryLine, line_octets};
    ghost use Rattle.journal_file.specs.Writing.{Comment, Entry, Fold, begins_after, with_item, all_kept, broken};
    ghost use Rattle.journal_file.specs.PutFaults.{IsRefused, IsRefusedComment};

    /// All entries up to the place stand in the file already, synced.
    pub fn new(alloc: Global, place: u64) -> Writing
        ensures { result ≡ begins_after place }
    {
        Writing {
            taken: place,
            waiting: Vec::new(alloc),
            synced: place,
            failed: false,
        }
    }

    /// The place of the last entry that was put.
    pub fn taken(&self) -> u64
        ensures { result ≡ self.now.taken }
    {
        self.taken
    }

    /// The place up to which all entries are written and synced.
    pub fn synced(&self) -> u64
        ensures { result ≡ self.now.synced }
    {
        self.synced
    }

    /// Whether a write or a sync has failed.
    pub fn has_failed(&self) -> bool
        ensures { result ≡ self.now.failed }
    {
        self.failed
    }

    /// How many octets aren't written yet.
    pub fn waiting(&self) -> usize
        ensures { result ≡ Rattle.std.specs.Prelude.length self.now.waiting }
    {
        self.waiting.len()
    }

    /// Puts the line and its end.
    fn put(&mut self, line: &[u8]) -> Result<(), AllocError>
        ensures ok { OnOk result (self.new ≡ record { taken = self.old.taken; waiting = self.old.waiting ++ line_octets line.now; synced = self.old.synced; failed = self.old.failed }) }
        ensures err { OnErr result (self.new ≡ self.old) }
    {
        let count = self.waiting.len();
        self.waiting.extend_from_slice(line)?;
        match self.waiting.push(b'\n') {
            Ok(()) => Ok(()),
            Err(_) => {
                self.waiting.truncate(count);
                Err(AllocError)
            }
        }
    }

    /// Puts the line of the next entry. At an `Err` nothing changed.
    pub fn put_entry(&mut self, line: &[u8]) -> Result<(), PutFault>
        ensures line { OnOk result (IsEntryLine line.now) }
        ensures ok { OnOk result (self.new ≡ with_item self.old (Entry line.now)) }
        ensures err { OnErr result (self.new ≡ self.old) }
        ensures fault { IfErr result (IsRefused self.old.taken line.now) }
    {
        if is_comment(line) || !fits(line) {
            return Err(PutFault::BadLine);
        }
        if self.taken == u64::MAX {
            return Err(PutFault::Full);
        }
        match self.put(line) {
            Ok(()) => {
                self.taken += 1;
                Ok(())
            }
            Err(_) => Err(PutFault::Memory),
        }
    }

    /// Puts that the journal was folded behind the last entry that was put. At an `Err` nothing changed.
    pub fn put_fold(&mut self) -> Result<(), AllocError>
        ensures ok { OnOk result (self.new ≡ with_item self.old Fold) }
        ensures err { OnErr result (self.new ≡ self.old) }
    {
        self.put(CHECKPOINT)
    }

    /// Puts a comment behind the last line that was put. It is no entry, and nobody needs to wait for it: it goes with what is written
    /// next. At an `Err` nothing changed.
    pub fn put_comment(&mut self, line: &[u8]) -> Result<(), PutFault>
        ensures line { OnOk result (IsCommentLine line.now) }
        ensures ok { OnOk result (self.new ≡ with_item self.old (Comment line.now)) }
        ensures err { OnErr result (self.new ≡ self.old) }
        ensures fault { IfErr result (IsRefusedComment line.now) }
    {
        if !is_comment(line) || !fits(line) {
            return Err(PutFault::BadLine);
        }
        match self.put(line) {
            Ok(()) => Ok(()),
            Err(_) => Err(PutFault::Memory),
        }
    }

    /// Writes all that was put and isn't written yet, and syncs the file. The answer says up to which place all entries stand there now.
    /// At an `Err` some of it may be written.
    pub fn keep<F: JournalFile>(&mut self, file: &mut F) -> Result<Synced, Failed>
        ensures place { IfOk result (λ synced. synced.place ≡ self.old.taken) }
        ensures sound { OnOk result (self.old.failed ≡ false) }
        ensures ok { OnOk result (self.new ≡ all_kept self.old) }
        ensures kept { OnOk result (GrowsForGood (F.state file.old) (F.state file.new) self.old.waiting) }
        ensures err { OnErr result (self.new ≡ broken self.old) }
        ensures part { OnErr result (GrowsInPart (F.state file.old) (F.state file.new) self.old.waiting) }
        ensures failed { OnErr result (self.old.failed ≡ true → Grows (F.state file.old) (F.state file.new) []) }
    {
        if self.failed {
            return Err(Failed);
        }
        if append_all(file, &self.waiting).is_err() || file.sync().is_err() {
            self.failed = true;
            return Err(Failed);
        }
        self.waiting.clear();
        self.synced = self.taken;
        Ok(Synced::up_to(self.taken))
    }
}
