//! What no clause says of a journal that is folded while a file is kept: who submits waits for the fold, so that the journal never
//! fills up; what is there at the start counts; the fold is said; and where the file fails, the links end and nothing is told.

ghost use Rattle.std.specs.Prelude.{◌≡◌};

use crate::checks::{same, yes};
use crate::given_said::Said;
use cell_register::BscId;
use centre_events::event::Event;
use centre_events::network::Network;
use coverage_plan::Edit;
use framing::Failed;
use journal_file::{DiskFile, JournalFile, MemoryFile, Writing};
use journal_keeper::{KeepFault, Keeper, Kept, keep_journal};
use journal_office::{NoPeers, OfficeJournal};
use link_rules::FoldPace;
use office::desk::Desk;
use office::office::Office;
use server_errors::Errors;
use server_links::{BroadcastWatch, HeavyTurn, LinkOptions, Shared, keep};
use std::alloc::Global;
use std::fs::{File, Files};
use std::io::Write;
use std::marker::Brand;
use std::process::Abort;
use std::sync::ledger::{Blank, Ledger};
use std::sync::{Condvar, Mutex, Wait};
use std::thread;
use std::thread::Threads;
use std::time::{Clock, Duration};

/// How many entries the journal may hold. It is folded at nine tenths of that.
const LIMIT: u32 = 40;

/// The network of the office.
const NETWORK: Network = Network {
    plmn: [0x00, 0xf1, 0x10],
    broadcasts: 0,
};

/// A file of the system that takes no octets.
const FULL: &str = "/dev/full";

/// How often it is tried to open it.
const MOST_TRIES: u32 = 10_000;

/// What is said at once where the file fails.
const FAILED: &[u8] = b"cbc: journal fault: nothing more is answered\n";

/// What is said at the end.
const LAST: &[u8] = b"cbc: journal fault\n";

/// A file whose syncs take a while.
#[derive(Drop)]
struct SlowFile<'a, R> {
    rt: &'a R,
    file: MemoryFile,
}

impl<R: Clock> JournalFile for SlowFile<'_, R> {
    ghost use Rattle.std.specs.Prelude.{None};

    ghost state = { λ _. None };

    fn append(&mut self, octets: &[u8]) -> Result<usize, Failed> {
        self.file.append(octets)
    }

    fn sync(&mut self) -> Result<(), Failed> {
        thread::sleep(self.rt, Duration::from_millis(5));
        self.file.sync()
    }
}

/// What a server without ports shares, which keeps its journal.
fn shared_of<L: Ledger, E: Write + Drop>(
    alloc: Global,
    office: Office<L>,
    errors: E,
) -> Shared<L, E> {
    Shared {
        alloc,
        office,
        ports: Vec::new(alloc),
        errors: Errors::new(alloc, errors),
        options: LinkOptions {
            plmn: [0x00, 0xf1, 0x10],
            reset: false,
            reply_seconds: 0,
            cut_seconds: 0,
            alive_seconds: 0,
            query_ms: 0,
            queries_per_second: 2,
            peers: Mutex::new(None),
            peers_file: None,
        },
        folds: Mutex::new(FoldPace::new(4_000_000, LIMIT)),
        heavy_turn: HeavyTurn::new(),
        broadcasts: BroadcastWatch::new(alloc, NETWORK, 0),
        kept: Some(Kept::new()),
        with_simulator: false,
        closing: Mutex::new(false),
        closed: Condvar::new(),
    }
}

/// Keeps the journal in a slow file until it is to end.
fn keeps<L: Ledger, E: Write + Drop, R: Wait + Clock>(
    rt: &R,
    shared: &Shared<L, E>,
) -> Result<(), KeepFault> {
    let Some(kept) = &shared.kept else {
        return Err(KeepFault::Entry);
    };
    let mut keeper = Keeper {
        writing: Writing::new(shared.alloc, 0),
        file: SlowFile {
            rt,
            file: MemoryFile::new(Vec::new(shared.alloc), 1_000_000, 1_000_000),
        },
    };
    let journal = OfficeJournal {
        alloc: shared.alloc,
        office: &shared.office,
        peers: &NoPeers,
    };
    keep_journal(rt, &journal, kept, &mut keeper)
}

/// Registers the BSC at the desk, and brings up its link so often. The answer is how many of these events were refused.
fn brings_up<L: Ledger, E: Write + Drop, R: Wait>(
    rt: &R,
    shared: &Shared<L, E>,
    desk: &mut Desk<L>,
    b: BscId,
    times: u32,
) -> u32 {
    let added = shared.office.submit(rt, desk, Event::Edit(Edit::AddBsc(b)));
    let mut refused = u32::from(added.is_err());
    for _ in 0..times {
        let up = shared.office.submit(rt, desk, Event::LinkUp(b));
        refused = refused.saturating_add(u32::from(up.is_err()));
    }
    refused
}

/// The same at a desk of its own for the BSC of that number, and has the journal folded after each event where that is due.
fn brings_up_and_folds<L: Ledger, E: Write + Drop, R: Wait + Clock + Abort>(
    rt: &R,
    shared: &Shared<L, E>,
    number: u16,
    times: u32,
) -> u32 {
    let b = bsc(rt, number);
    let Ok(mut desk) = shared.office.open_desk(rt) else {
        return u32::MAX;
    };
    let mut refused = brings_up(rt, shared, &mut desk, b, 0);
    for _ in 0..times {
        shared.submitted(rt);
        let up = shared.office.submit(rt, &mut desk, Event::LinkUp(b));
        refused = refused.saturating_add(u32::from(up.is_err()));
        let _ = shared.office.release(rt, &mut desk);
    }
    shared.submitted(rt);
    refused
}

/// The same for two BSCs at once.
fn two_at_once<
    L: Ledger + Send + Sync,
    E: Write + Drop + Send,
    R: Wait + Clock + Threads + Sync + Abort,
>(rt: &R, shared: &Shared<L, E>, first: u16, second: u16, times: u32) -> u32 {
    let (of_first, of_second) = thread::join(
        rt,
        move || brings_up_and_folds(rt, shared, first, times),
        move || brings_up_and_folds(rt, shared, second, times),
    );
    of_first.saturating_add(of_second)
}

/// The same for four BSCs at once. Then the thread that keeps the journal is to end.
fn four_at_once<
    L: Ledger + Send + Sync,
    E: Write + Drop + Send,
    R: Wait + Clock + Threads + Sync + Abort,
>(rt: &R, shared: &Shared<L, E>, times: u32) -> u32 {
    let (of_two, of_others) = thread::join(
        rt,
        move || two_at_once(rt, shared, 1, 2, times),
        move || two_at_once(rt, shared, 3, 4, times),
    );
    shared.end_keeping(rt);
    of_two.saturating_add(of_others)
}

fn bsc<R: Abort>(rt: &R, number: u16) -> BscId {
    BscId::new(number).expect(rt, "a number of a BSC")
}

/// Four desks enter events, while the journal is kept in a slow file. The answer is what was said.
fn enters_at_four_desks<L: Ledger + Send + Sync, R: Wait + Clock + Threads + Sync + Abort>(
    rt: &R,
    alloc: Global,
    blank: Blank,
) -> Vec<u8>
    requires name { blank.name ≡ L.name }
    requires parts { blank.parts ≡ L.parts }
    requires desks { blank.parts ≡ 1025 }
{
    let octets = Mutex::new(Vec::new(alloc));
    let said = Said {
        rt,
        octets: &octets,
    };
    let office: Office<L> = Office::new(alloc, blank, NETWORK, LIMIT);
    let shared = shared_of(alloc, office, said);
    let lent = &shared;
    let (result, refused) = thread::join(
        rt,
        move || keeps(rt, lent),
        move || four_at_once(rt, lent, 100),
    );
    same(rt, result, Ok(()), "the thread that keeps the journal ends");
    same(rt, refused, 0, "no event is refused");
    same(rt, shared.office.position(rt), 404, "all are entered");
    shared.errors.say_last(rt, alloc, LAST);
    drop(shared);
    octets.into_inner()
}

/// The same at an office of its own.
fn found_at_four_desks<R: Wait + Clock + Threads + Sync + Abort>(rt: &R, alloc: Global) -> Vec<u8> {
    enters_at_four_desks::<Brand, R>(rt, alloc, Blank::new(1025))
}

#[test]
fn a_journal_that_is_kept_never_fills_up(rt: HostRuntime) {
    let said = found_at_four_desks(&rt, rt.alloc());
    let words = b"cbc: the journal was folded, entries: ".as_slice();
    yes(
        &rt,
        said.as_slice()
            .windows(words.len())
            .any(|piece| piece == words),
        "each fold is said",
    );
    yes(&rt, said.ends_with(LAST), "and the last words after it");
}

/// Enters an event less than a fold is due with, as a start does, and then that one. The answer is how many entries aren't folded then.
fn one_more<L: Ledger, E: Write + Drop, R: Wait + Clock + Abort>(
    rt: &R,
    shared: &Shared<L, E>,
) -> u64 {
    let b = bsc(rt, 1);
    let left = match shared.office.open_desk(rt) {
        Ok(mut desk) => {
            let _ = brings_up(rt, shared, &mut desk, b, 34);
            shared.count_entered(rt);
            let _ = shared.office.submit(rt, &mut desk, Event::LinkUp(b));
            shared.submitted(rt);
            shared.office.unfolded(rt)
        }
        Err(_) => u64::MAX,
    };
    shared.end_keeping(rt);
    left
}

/// The journal is kept in a slow file meanwhile.
fn enters_one_more<L: Ledger + Send + Sync, R: Wait + Clock + Threads + Sync + Abort>(
    rt: &R,
    alloc: Global,
    blank: Blank,
) -> u64
    requires name { blank.name ≡ L.name }
    requires parts { blank.parts ≡ L.parts }
    requires desks { blank.parts ≡ 1025 }
{
    let office: Office<L> = Office::new(alloc, blank, NETWORK, LIMIT);
    let shared = shared_of(alloc, office, Vec::new(alloc));
    let lent = &shared;
    let (result, left) = thread::join(rt, move || keeps(rt, lent), move || one_more(rt, lent));
    same(rt, result, Ok(()), "the thread that keeps the journal ends");
    left
}

/// The same at an office of its own.
fn found_with_one_more<R: Wait + Clock + Threads + Sync + Abort>(rt: &R, alloc: Global) -> u64 {
    enters_one_more::<Brand, R>(rt, alloc, Blank::new(1025))
}

#[test]
fn what_a_start_enters_counts_for_the_next_fold(rt: HostRuntime) {
    let left = found_with_one_more(&rt, rt.alloc());
    same(&rt, left, 0, "all are folded");
}

/// A file that takes no octets. Another test may have it open for a moment.
fn full_file<R: Files<File = File> + Clock + Abort>(rt: &R) -> DiskFile {
    for _ in 0..MOST_TRIES {
        if let Ok(file) = DiskFile::open(rt, FULL) {
            return file;
        }
        thread::sleep(rt, Duration::from_millis(1));
    }
    DiskFile::open(rt, FULL).expect(rt, "it can be opened and locked")
}

/// Enters an event, and keeps the journal in that file. The answer is whether the server ends, and whether all entries may be told of.
fn fails_to_keep<L: Ledger, E: Write + Drop, R: Wait + Clock + Abort>(
    rt: &R,
    shared: &Shared<L, E>,
    file: DiskFile,
) -> (bool, bool) {
    let b = bsc(rt, 1);
    if let Ok(mut desk) = shared.office.open_desk(rt) {
        let refused = brings_up(rt, shared, &mut desk, b, 0);
        same(rt, refused, 0, "it is entered");
    }
    let writing = Writing::new(shared.alloc, 0);
    keep(rt, shared, Keeper { writing, file });
    let may_be_told = shared.wait_kept(rt, 0).is_some();
    (shared.is_closing(rt), may_be_told)
}

/// The same over an office, and what is said.
fn ends_by_the_file<L: Ledger, R: Wait + Clock + Abort>(
    rt: &R,
    alloc: Global,
    blank: Blank,
    file: DiskFile,
) -> (bool, bool, Vec<u8>)
    requires name { blank.name ≡ L.name }
    requires parts { blank.parts ≡ L.parts }
    requires desks { blank.parts ≡ 1025 }
{
    let office: Office<L> = Office::new(alloc, blank, NETWORK, LIMIT);
    let octets = Mutex::new(Vec::new(alloc));
    let said = Said {
        rt,
        octets: &octets,
    };
    let shared = shared_of(alloc, office, said);
    let (ends, may_be_told) = fails_to_keep(rt, &shared, file);
    drop(shared);
    (ends, may_be_told, octets.into_inner())
}

/// The same at an office of its own.
fn found_at_a_full_file<R: Wait + Clock + Abort>(
    rt: &R,
    alloc: Global,
    file: DiskFile,
) -> (bool, bool, Vec<u8>) {
    ends_by_the_file::<Brand, R>(rt, alloc, Blank::new(1025), file)
}

#[test]
fn a_file_that_fails_ends_the_links(rt: HostRuntime) {
    let file = full_file(&rt);
    let (ends, may_be_told, said) = found_at_a_full_file(&rt, rt.alloc(), file);
    yes(&rt, ends, "the server ends");
    yes(&rt, !may_be_told, "the last entry is never told of");
    same(&rt, said.as_slice(), FAILED, "what is said");
}
