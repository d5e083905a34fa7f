//! The journal is kept in a file, by a thread of its own.

use crate::closing::close_all;
use crate::shared::Shared;
use journal_file::DiskFile;
use journal_keeper::{KeepFault, Keeper, keep_journal};
use journal_office::OfficeJournal;
use server_errors::Level;
use std::io::Write;
use std::sync::Wait;
use std::sync::ledger::Ledger;
use std::time::Clock;

/// What is said at once where the journal isn't kept any more.
fn words_of(fault: KeepFault) -> &'static [u8] {
    match fault {
        KeepFault::File | KeepFault::Entry => b"cbc: journal fault: nothing more is answered\n",
        KeepFault::Memory => b"cbc: out of memory: nothing more is answered\n",
    }
}

/// Keeps the journal in the file until all is kept once it is to end. Where the file fails, this is said at once, and all links end.
pub fn keep<L: Ledger, E: Write + Drop, R: Wait + Clock>(
    rt: &R,
    shared: &Shared<L, E>,
    mut keeper: Keeper<DiskFile>,
) {
    let Some(kept) = &shared.kept else {
        return;
    };
    let journal = OfficeJournal {
        alloc: shared.alloc,
        office: &shared.office,
        peers: shared,
    };
    if let Err(fault) = keep_journal(rt, &journal, kept, &mut keeper) {
        let words = words_of(fault);
        shared.errors.say(rt, shared.alloc, Level::Error, words);
        close_all(rt, shared);
    }
}
