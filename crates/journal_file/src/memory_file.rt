//! A file in memory, for tests.

ghost use Rattle.std.specs.Prelude.{◌≡◌, ◌≤◌, Some, [], take};

use crate::journal_file::JournalFile;
use framing::Failed;
use std::alloc::{AllocError, Global};

/// A file in memory with room for some appends and some syncs, after which each fails. A crash leaves what was synced, and as
/// much of the rest as the test wants.
#[derive(Drop)]
pub struct MemoryFile {
    octets: Vec<u8>,
    durable: usize,
    /// How many octets it still takes.
    room: usize,
    /// How many syncs it still makes.
    syncs: usize,
}

impl MemoryFile {
    /// A file of these octets, all of which are synced.
    pub fn new(octets: Vec<u8>, room: usize, syncs: usize) -> MemoryFile
        ensures { ⟦<MemoryFile as JournalFile>⟧.state result ≡ Some (record { octets = octets.items; durable = Rattle.std.specs.Prelude.length octets.items }) }
    {
        let durable = octets.len();
        MemoryFile {
            octets,
            durable,
            room,
            syncs,
        }
    }

    pub fn octets(&self) -> &[u8]
        ensures { ⟦<MemoryFile as JournalFile>⟧.state self.now ≡ Some (record { octets = result.now; durable = self.now.durable }) }
    {
        &self.octets
    }

    /// How many of its octets a crash leaves for certain.
    pub fn durable(&self) -> usize
        ensures { ⟦<MemoryFile as JournalFile>⟧.state self.now ≡ Some (record { octets = self.now.octets.items; durable = result }) }
    {
        self.durable
    }

    /// What a crash leaves where it takes so many octets from the end, but none that is synced.
    pub fn after_crash(&self, alloc: Global, lost: usize) -> Result<Vec<u8>, AllocError> {
        let kept = self.octets.len().saturating_sub(lost).max(self.durable);
        Vec::from_slice(alloc, self.octets.get(..kept).unwrap_or(&self.octets))
    }
}

impl JournalFile for MemoryFile {
    ghost use Rattle.std.specs.Prelude.{Some};

    ghost state = { λ s. Some (record { octets = s.octets.items; durable = s.durable }) };

    fn append(&mut self, octets: &[u8]) -> Result<usize, Failed> {
        if self.room == 0 {
            return Err(Failed);
        }
        let count = octets.len().min(self.room);
        match self.octets.extend_from_slice(&octets[..count]) {
            Ok(()) => {
                self.room -= count;
                Ok(count)
            }
            Err(_) => Err(Failed),
        }
    }

    fn sync(&mut self) -> Result<(), Failed> {
        if self.syncs == 0 {
            return Err(Failed);
        }
        self.syncs -= 1;
        self.durable = self.octets.len();
        Ok(())
    }
}
