//! An office, as the thread sees it that keeps its journal.

ghost use Rattle.std.specs.Prelude.{◌≡◌, [], OnOk};
ghost use Rattle.journal_keeper.specs.Following.{Puts};
ghost use Rattle.journal_office.specs.OfficeJournals.{PutsEntries, PutsEntry};

use crate::comments::link_comment;
use crate::link_peers::LinkPeers;
use centre_events::answer::Answer;
use centre_events::entry::Entry;
use centre_events::event::Event;
use centre_events::refusal::Refusal;
use journal_file::Writing;
use journal_keeper::{Followed, KeepFault, Seen};
use journal_text::line_of;
use office::entries::Entries;
use office::office::Office;
use std::alloc::Global;
use std::sync::Wait;
use std::sync::ledger::Ledger;

/// How many entries are copied under one hold of the lock.
const MOST_ENTRIES: u64 = 1_000;

/// An office, as the thread sees it that keeps its journal.
#[derive(Drop)]
pub struct OfficeJournal<'a, L: Ledger, P> {
    pub alloc: Global,
    pub office: &'a Office<L>,
    /// Where its links come from.
    pub peers: &'a P,
}

/// Puts the comment where there is memory for it.
fn put_comment(comment: &[u8], writing: &mut Writing)
    ensures { Puts writing.old writing.new [] }
{
    let _ = writing.put_comment(comment);
}

/// Puts where the link came from that came up with the entry, behind its line. The entry is kept without that where there is no memory.
#[tactic(auto, using(crate::proofs::PuttingLemmas::peer_none))]
fn put_peer<P: LinkPeers, R: Wait>(
    rt: &R,
    alloc: Global,
    peers: &P,
    entry: &Entry,
    writing: &mut Writing,
)
    ensures { Puts writing.old writing.new [] }
{
    let (Event::LinkUp(bsc), Answer::Link(generation)) = (&entry.event, &entry.answer) else {
        return;
    };
    let Some(peer) = peers.peer_of(rt, *bsc, *generation) else {
        return;
    };
    if let Ok(comment) = link_comment(alloc, *bsc, &peer) {
        put_comment(comment.as_bytes(), writing);
    }
}

/// Puts the line of an entry. `Entry` where it has none.
#[tactic(auto, using(crate::proofs::PuttingLemmas::entry_put))]
fn put_entry(alloc: Global, entry: &Entry, writing: &mut Writing) -> Result<(), KeepFault>
    ensures { OnOk result (PutsEntry entry.now writing.old writing.new) }
{
    match line_of(alloc, entry)? {
        Some(line) => {
            writing.put_entry(line.as_slice())?;
            Ok(())
        }
        None => Err(KeepFault::Entry),
    }
}

/// Puts the lines of the entries, and where links came from.
fn put_each<P: LinkPeers, R: Wait>(
    rt: &R,
    alloc: Global,
    peers: &P,
    entries: &[Entry],
    writing: &mut Writing,
) -> Result<(), KeepFault>
    ensures { OnOk result (PutsEntries entries.now writing.old writing.new) }
{
    for entry in entries {
        put_entry(alloc, entry, writing)?;
        put_peer(rt, alloc, peers, entry, writing);
    }
    Ok(())
}

/// Puts the lines of entries that stand behind the last that was put, and where links came from. `Entry` where some between are folded.
pub(crate) fn put_all<P: LinkPeers, R: Wait>(
    rt: &R,
    alloc: Global,
    peers: &P,
    entries: &Entries,
    writing: &mut Writing,
) -> Result<(), KeepFault>
    ensures missed { OnOk result (entries.now.missed ≡ 0) }
    ensures put { OnOk result (PutsEntries entries.now.entries.items writing.old writing.new) }
{
    if entries.missed > 0 {
        return Err(KeepFault::Entry);
    }
    put_each(rt, alloc, peers, entries.entries.as_slice(), writing)
}

impl<L: Ledger, P: LinkPeers> Followed for OfficeJournal<'_, L, P> {
    ghost use Rattle.journal_office.specs.OfficeJournals.{GivesSomewhere};

    ghost gives = { λ _ place portion. GivesSomewhere place portion };

    type Refusal = Refusal;

    fn wait_entries<R: Wait>(&self, rt: &R, after: u64, interrupts: u64) -> Seen {
        let progress = self.office.wait_entries(rt, after, interrupts);
        Seen {
            position: progress.position,
            interrupts: progress.interrupts,
        }
    }

    fn interrupt<R: Wait>(&self, rt: &R) {
        self.office.interrupt(rt);
    }

    #[tactic(auto, using(crate::proofs::PuttingLemmas::next_if))]
    fn put_entries<R: Wait>(&self, rt: &R, writing: &mut Writing) -> Result<(), KeepFault> {
        let entries = self.office.entries(rt, writing.taken(), MOST_ENTRIES)?;
        let result = put_all(rt, self.alloc, self.peers, &entries, writing);
        drop(entries);
        result
    }

    fn put_fold<R: Wait>(
        &self,
        rt: &R,
        writing: &mut Writing,
    ) -> Result<Result<u64, Refusal>, KeepFault> {
        match self.office.checkpoint_after(rt, writing.taken()) {
            Ok(folded) => {
                let count = folded.count;
                let result = put_all(rt, self.alloc, self.peers, &folded.rest, writing);
                drop(folded);
                result?;
                writing.put_fold()?;
                Ok(Ok(count))
            }
            Err(refusal) => Ok(Err(refusal)),
        }
    }
}
