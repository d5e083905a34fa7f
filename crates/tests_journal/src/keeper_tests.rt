//! What no clause says of the thread that keeps a journal: who waits goes on once the file is synced, each of several, folds stand at
//! their places, and a file that fails ends it.

use crate::checks::{same, yes};
use crate::given_journal::{Journal, Refused};
use journal_file::{MemoryFile, Writing};
use journal_keeper::{Followed, KeepFault, Keeper, Kept, keep_journal};
use std::alloc::Global;
use std::process::Abort;
use std::sync::Wait;
use std::thread;
use std::thread::Threads;
use std::time::{Clock, Duration};

type Answer = Result<u64, Refused>;

fn keeper(alloc: Global, room: usize, syncs: usize) -> Keeper<MemoryFile> {
    Keeper {
        writing: Writing::new(alloc, 0),
        file: MemoryFile::new(Vec::new(alloc), room, syncs),
    }
}

/// Keeps the journal, and gives what that ends with and what it was kept with.
fn keeps<R: Wait>(
    rt: &R,
    journal: &Journal,
    kept: &Kept<Answer>,
    mut keeper: Keeper<MemoryFile>,
) -> (Result<(), KeepFault>, Keeper<MemoryFile>) {
    let result = keep_journal(rt, journal, kept, &mut keeper);
    (result, keeper)
}

/// Enters an entry of this line, and waits until it is kept. The answer is whether it is.
fn enter<R: Wait>(rt: &R, journal: &Journal, kept: &Kept<Answer>, line: &[u8]) -> bool {
    match journal.enter(rt, line) {
        Some(place) => kept.wait_kept(rt, place).is_some(),
        None => false,
    }
}

/// Asks for a fold, and waits for its answer.
fn fold<R: Wait>(rt: &R, journal: &Journal, kept: &Kept<Answer>) -> Option<Answer> {
    let number = kept.ask_fold(rt);
    journal.interrupt(rt);
    kept.wait_fold(rt, number)
}

/// Has the thread end.
fn end<R: Wait>(rt: &R, journal: &Journal, kept: &Kept<Answer>) {
    kept.end(rt);
    journal.interrupt(rt);
}

/// Some entries with folds between, each waited for.
fn enters_and_folds<R: Wait>(
    rt: &R,
    journal: &Journal,
    kept: &Kept<Answer>,
) -> [Option<Answer>; 3] {
    let mut answers = [None; 3];
    let first = enter(rt, journal, kept, b"bsc add 1") && enter(rt, journal, kept, b"up 1");
    answers[0] = fold(rt, journal, kept);
    let second = enter(rt, journal, kept, b"down 1");
    answers[1] = fold(rt, journal, kept);
    if first && second {
        answers[2] = fold(rt, journal, kept);
    }
    end(rt, journal, kept);
    answers
}

#[test]
fn entries_and_folds_stand_in_their_order(rt: HostRuntime) {
    let alloc = rt.alloc();
    let (journal, kept) = (Journal::new(alloc, 1), Kept::new());
    let (shared, waiting) = (&journal, &kept);
    let host = &rt;
    let given = keeper(alloc, 1000, 1000);
    let ((result, keeper), answers) = thread::join(
        &rt,
        move || keeps(host, shared, waiting, given),
        move || enters_and_folds(host, shared, waiting),
    );
    same(&rt, result, Ok(()), "the thread ends");
    same(
        &rt,
        answers,
        [Some(Err(Refused)), Some(Ok(3)), Some(Ok(0))],
        "what the folds are answered",
    );
    let text = b"bsc add 1\nup 1\ndown 1\ncheckpoint\ncheckpoint\n".as_slice();
    same(&rt, keeper.file.octets(), text, "what stands in the file");
    same(&rt, keeper.writing.synced(), 3, "the synced place");
    drop(keeper);
}

/// Enters so many entries, and has the thread end without waiting for them.
fn enters_many<R: Wait>(rt: &R, journal: &Journal, kept: &Kept<Answer>, count: u64) {
    for _ in 0..count {
        let _ = journal.enter(rt, b"up 1");
    }
    end(rt, journal, kept);
}

#[test]
fn all_are_kept_before_the_end(rt: HostRuntime) {
    let alloc = rt.alloc();
    let (journal, kept) = (Journal::new(alloc, 0), Kept::new());
    let (shared, waiting) = (&journal, &kept);
    let host = &rt;
    let given = keeper(alloc, 100_000, 100_000);
    let ((result, keeper), ()) = thread::join(
        &rt,
        move || keeps(host, shared, waiting, given),
        move || enters_many(host, shared, waiting, 200),
    );
    same(&rt, result, Ok(()), "the thread ends");
    same(&rt, keeper.writing.synced(), 200, "the synced place");
    same(
        &rt,
        keeper.file.octets().len(),
        1000,
        "the octets of the file",
    );
    yes(&rt, kept.wait_kept(&rt, 200).is_some(), "they are kept");
    yes(
        &rt,
        kept.wait_kept(&rt, 201).is_none(),
        "one that never came isn't",
    );
    drop(keeper);
}

/// Enters entries until one isn't kept, or so many were, and has the thread end. The answer is how many were kept.
fn kept_before<R: Wait>(rt: &R, journal: &Journal, kept: &Kept<Answer>, most: u64) -> u64 {
    let mut count = 0u64;
    for _ in 0..most {
        if !enter(rt, journal, kept, b"up 1") {
            break;
        }
        count = count.saturating_add(1);
    }
    end(rt, journal, kept);
    count
}

/// With a file that takes so many octets and syncs, so many of ten entries are kept, each for itself.
fn fails_after<R: Wait + Threads + Abort + Sync>(
    rt: &R,
    alloc: Global,
    room: usize,
    syncs: usize,
    want: u64,
    octets: usize,
) {
    let (journal, kept) = (Journal::new(alloc, 0), Kept::new());
    let (shared, waiting) = (&journal, &kept);
    let given = keeper(alloc, room, syncs);
    let ((result, keeper), count) = thread::join(
        rt,
        move || keeps(rt, shared, waiting, given),
        move || kept_before(rt, shared, waiting, 10),
    );
    same(
        rt,
        result,
        Err(KeepFault::File),
        "the thread ends by the file",
    );
    same(rt, count, want, "how many entries are kept");
    yes(rt, kept.has_failed(rt), "those who wait are told");
    same(rt, keeper.file.durable(), octets, "what is synced");
    drop(keeper);
}

#[test]
fn nothing_is_kept_that_is_not_synced(rt: HostRuntime) {
    let alloc = rt.alloc();
    for (room, syncs, want, octets) in [
        (1000, 0, 0, 0),
        (1000, 3, 3, 15),
        (0, 9, 0, 0),
        (4, 9, 0, 0),
        (12, 9, 2, 10),
    ] {
        fails_after(&rt, alloc, room, syncs, want, octets);
    }
}

#[test]
fn a_fold_of_a_file_that_failed_is_not_answered(rt: HostRuntime) {
    let alloc = rt.alloc();
    let (journal, kept) = (Journal::new(alloc, 0), Kept::new());
    let (shared, waiting) = (&journal, &kept);
    let host = &rt;
    let given = keeper(alloc, 1000, 0);
    let ((result, keeper), answer) = thread::join(
        &rt,
        move || keeps(host, shared, waiting, given),
        move || fold(host, shared, waiting),
    );
    same(
        &rt,
        result,
        Err(KeepFault::File),
        "the thread ends by the file",
    );
    same(&rt, answer, None, "the fold isn't answered");
    drop(keeper);
}

/// Waits some time for somebody else to wait, and then for the first entry, behind which the second is entered.
fn waits_and_enters<R: Wait + Clock>(rt: &R, journal: &Journal, kept: &Kept<Answer>) -> bool {
    thread::sleep(rt, Duration::from_millis(100));
    let is_kept = kept.wait_kept(rt, 1).is_some();
    is_kept && journal.enter(rt, b"up 1").is_some()
}

/// Enters the first entry once both wait.
fn enters_later<R: Wait + Clock>(rt: &R, journal: &Journal) {
    thread::sleep(rt, Duration::from_millis(300));
    let _ = journal.enter(rt, b"bsc add 1");
}

/// One waits for the second entry, and another, who came later, for the first. The answer is whether both go on.
fn two_wait<R: Wait + Clock + Threads + Sync>(
    rt: &R,
    journal: &Journal,
    kept: &Kept<Answer>,
) -> (bool, bool) {
    let (second, (first, ())) = thread::join(
        rt,
        move || kept.wait_kept(rt, 2).is_some(),
        move || {
            thread::join(
                rt,
                move || waits_and_enters(rt, journal, kept),
                move || enters_later(rt, journal),
            )
        },
    );
    end(rt, journal, kept);
    (first, second)
}

#[test]
fn each_that_waits_goes_on(rt: HostRuntime) {
    let alloc = rt.alloc();
    let (journal, kept) = (Journal::new(alloc, 0), Kept::new());
    let (shared, waiting) = (&journal, &kept);
    let host = &rt;
    let given = keeper(alloc, 1000, 1000);
    let ((result, keeper), both) = thread::join(
        &rt,
        move || keeps(host, shared, waiting, given),
        move || two_wait(host, shared, waiting),
    );
    same(&rt, result, Ok(()), "the thread ends");
    same(&rt, both, (true, true), "both entries are kept");
    drop(keeper);
}

/// The thread is interrupted for nothing, and some time later an entry comes. The answer is whether that is kept.
fn interrupts_and_enters<R: Wait + Clock>(rt: &R, journal: &Journal, kept: &Kept<Answer>) -> bool {
    journal.interrupt(rt);
    thread::sleep(rt, Duration::from_millis(300));
    let is_kept = enter(rt, journal, kept, b"bsc add 1");
    end(rt, journal, kept);
    is_kept
}

/// A file that makes twenty syncs is enough for that: the thread waits between.
#[test]
fn a_thread_that_was_interrupted_waits_again(rt: HostRuntime) {
    let alloc = rt.alloc();
    let (journal, kept) = (Journal::new(alloc, 0), Kept::new());
    let (shared, waiting) = (&journal, &kept);
    let host = &rt;
    let given = keeper(alloc, 1000, 20);
    let ((result, keeper), is_kept) = thread::join(
        &rt,
        move || keeps(host, shared, waiting, given),
        move || interrupts_and_enters(host, shared, waiting),
    );
    same(&rt, result, Ok(()), "the thread ends");
    yes(&rt, is_kept, "the entry is kept");
    drop(keeper);
}
