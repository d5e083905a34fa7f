//! A journal that is read into an office and written from it again is the same, and a file that is cut at any octet begins again.

ghost use Rattle.std.specs.Prelude.{◌≡◌, ◌≤◌};

use crate::checks::{same, yes};
use centre_events::network::Network;
use framing::FromRead;
use journal_file::{Heading, LoadFault, Loaded, MemoryFile, Writing};
use journal_keeper::KeepFault;
use journal_office::{Entering, Start};
use office::desk::Desk;
use office::office::Office;
use std::alloc::Global;
use std::marker::Brand;
use std::process::Abort;
use std::sync::Wait;
use std::sync::ledger::{Blank, Ledger};

const NETWORK: Network = Network {
    plmn: [0x00, 0xf1, 0x10],
    broadcasts: 0,
};

const HEADING: Heading = Heading {
    plmn: [0x00, 0xf1, 0x10],
    broadcasts: 0,
};

/// The first line, and twenty entries: a warning of two cells goes on air in both, is asked for, fails in one, and the link is lost and
/// comes back.
const FILE: &[u8] = b"# cbc journal, network 00f110
bsc add 1
cell add 100 7 1
cell add 100 8 1
area add Coast
area put Coast 100
issue 4370 3 15 0 30 d4f29c0e Coast
up 1
send 1
rx 1 020000060e111203c000
rx 1 1300000c040005010064000716000d01
send 1
down 1
up 1
retry 1
bsc add 2
up 2
area add Hills
widen 1 Hills
narrow 1 Coast
stop 1
";

/// How many lines end in the octets.
fn lines_in(octets: &[u8]) -> u64 {
    let mut count = 0u64;
    for octet in octets {
        if *octet == b'\n' {
            count = count.saturating_add(1);
        }
    }
    count
}

/// What a start makes of a file.
#[derive(Drop)]
struct Found {
    result: Result<Loaded, LoadFault>,
    entries: u64,
    /// How many receipts the desk has of them.
    receipts: usize,
    /// What the loss of its links adds to the file.
    added: Vec<u8>,
}

/// Reads the octets into the office, which folds after every so many entries, and enters the loss of its links.
fn reads<L: Ledger, R: Wait + Abort>(
    start: &Start<'_, L, R>,
    desk: &mut Desk<L>,
    octets: &[u8],
) -> Result<(Result<Loaded, LoadFault>, (u64, usize), MemoryFile), KeepFault> {
    let mut entering = Entering::begin(&*start, desk).expect(start.rt, "a fresh office");
    let result = entering.enter_file(HEADING, &mut FromRead::new(octets));
    drop(entering);
    let entries = start.office.position(start.rt);
    let receipts = desk.receipts().len();
    let mut writing = Writing::new(start.alloc, entries);
    let mut file = MemoryFile::new(Vec::new(start.alloc), 1_000_000, 1_000);
    if result.is_ok() {
        let mut held = start.office.hold(start.rt);
        start.lose_links(&mut held, desk, &mut writing)?;
        drop(held);
    }
    match writing.keep(&mut file) {
        Ok(_) => Ok((result, (entries, receipts), file)),
        Err(_) => Err(KeepFault::File),
    }
}

/// An office whose journal holds so many entries, and is folded after every so many, begins with the octets.
fn starts<L: Ledger, R: Wait + Abort>(
    rt: &R,
    alloc: Global,
    blank: Blank,
    limit: u32,
    every: u64,
    octets: &[u8],
) -> Found
    requires name { blank.name ≡ L.name }
    requires parts { blank.parts ≡ L.parts }
    requires desks { blank.parts ≡ 1025 }
    requires limit { limit ≤ 4000000 }
{
    let office: Office<L> = Office::new(alloc, blank, NETWORK, limit);
    let mut desk = office.open_desk(rt).expect(rt, "a desk");
    let start = Start {
        rt,
        alloc,
        office: &office,
        every,
    };
    let (result, (entries, receipts), file) = reads(&start, &mut desk, octets).expect(
        rt,
        "its lines are put",
    );
    drop(start);
    drop(desk);
    drop(office);
    let added = Vec::from_slice(alloc, file.octets()).expect(rt, "memory");
    Found {
        result,
        entries,
        receipts,
        added,
    }
}

/// The start of an office of its own.
fn found_at_start<R: Wait + Abort>(
    rt: &R,
    alloc: Global,
    limit: u32,
    every: u64,
    octets: &[u8],
) -> Found
    requires limit { limit ≤ 4000000 }
{
    starts::<Brand, R>(rt, alloc, Blank::new(1025), limit, every, octets)
}

#[test]
fn a_start_enters_all_lines_and_loses_the_links(rt: HostRuntime) {
    let alloc = rt.alloc();
    for (limit, every, first) in [
        (1000, 900, b"down 1\n".as_slice()),
        (20, 18, b"down 1\n".as_slice()),
        (3, 2, b"checkpoint\ndown 1\n".as_slice()),
        (2, 1, b"checkpoint\ndown 1\n".as_slice()),
        (1, 1, b"checkpoint\ndown 1\n".as_slice()),
    ] {
        let found = found_at_start(&rt, alloc, limit, every, FILE);
        let whole = FILE.len() as u64;
        same(
            &rt,
            found.result,
            Ok(Loaded {
                lines: 21,
                whole,
                torn: 0,
            }),
            "all is read",
        );
        same(&rt, found.entries, 20, "all is entered");
        yes(
            &rt,
            found.receipts as u64 <= every,
            "the desk keeps no receipts of folded entries",
        );
        yes(
            &rt,
            found.added.starts_with(first),
            "the first link is lost, after a fold where the journal is full",
        );
        let lines = lines_in(found.added.as_slice());
        yes(&rt, lines >= 2 && lines <= 4, "and the second");
    }
}

#[test]
fn a_start_adds_only_the_loss_of_links(rt: HostRuntime) {
    let alloc = rt.alloc();
    let found = found_at_start(&rt, alloc, 1000, 900, FILE);
    same(
        &rt,
        found.added.as_slice(),
        b"down 1\ndown 2\n".as_slice(),
        "the links of both BSCs",
    );
    let found = found_at_start(&rt, alloc, 2, 1, FILE);
    let lines = b"checkpoint\ndown 1\ncheckpoint\ndown 2\n".as_slice();
    same(
        &rt,
        found.added.as_slice(),
        lines,
        "with a fold before each, where the journal holds two",
    );
}

#[test]
fn checkpoints_are_read(rt: HostRuntime) {
    let alloc = rt.alloc();
    let octets =
        b"# cbc journal, network 00f110\nbsc add 1\ncell add 100 7 1\ncheckpoint\nup 1\ncheckpoint\ndown 1\ncheckpoint\n".as_slice();
    let whole = octets.len() as u64;
    for (limit, every) in [(3, 2), (2, 1)] {
        let found = found_at_start(&rt, alloc, limit, every, octets);
        same(
            &rt,
            found.result,
            Ok(Loaded {
                lines: 8,
                whole,
                torn: 0,
            }),
            "all is read",
        );
        same(&rt, found.entries, 4, "a checkpoint is no entry");
        same(&rt, found.added.as_slice(), b"".as_slice(), "no link is up");
    }
}

#[test]
fn a_file_that_is_cut_at_any_octet_begins_again(rt: HostRuntime) {
    let alloc = rt.alloc();
    for cut in 0..=FILE.len() {
        let left = FILE.get(..cut).unwrap_or(FILE);
        let found = found_at_start(&rt, alloc, 1000, 900, left);
        let lines = lines_in(left);
        yes(&rt, found.result.is_ok(), "it is a journal");
        same(
            &rt,
            found.entries,
            lines.saturating_sub(1),
            "the lines that have their end are entered",
        );
    }
}

#[test]
fn comments_are_passed_over_at_a_start(rt: HostRuntime) {
    let alloc = rt.alloc();
    let octets = b"# cbc journal, network 00f110
# of another kind
bsc add 1
up 1
# link 1 192.0.2.7:40001
# link 1 nowhere
#
send 1
"
        .as_slice();
    let found = found_at_start(&rt, alloc, 1000, 900, octets);
    same(
        &rt,
        found.result,
        Err(LoadFault::BadLine(8)),
        "nothing is due, so the line that isn't accepted is the eighth",
    );
    let octets = octets
        .strip_suffix(b"send 1\n".as_slice())
        .unwrap_or(octets);
    let found = found_at_start(&rt, alloc, 1000, 900, octets);
    let whole = octets.len() as u64;
    same(
        &rt,
        found.result,
        Ok(Loaded {
            lines: 7,
            whole,
            torn: 0,
        }),
        "all is read",
    );
    same(&rt, found.entries, 2, "no comment is entered");
    same(
        &rt,
        found.added.as_slice(),
        b"down 1\n".as_slice(),
        "and the link is lost",
    );
}

#[test]
fn what_is_no_event_stops_the_start(rt: HostRuntime) {
    let alloc = rt.alloc();
    let rows: [&[u8]; 10] = [
        b"quit",
        b"send 2",
        b"board 1",
        b" # a comment that doesn't begin the line",
        b"",
        b"rx 1 02",
        b"rx 1 020000060e111203c000",
        b"send 1",
        b"bsc add 1",
        b"rebuild",
    ];
    for row in rows {
        let mut octets = Vec::from_slice(
            alloc,
            b"# cbc journal, network 00f110\nbsc add 1\n",
        ).expect(&rt, "memory");
        octets.extend_from_slice(row).expect(&rt, "memory");
        octets.extend_from_slice(b"\nup 1\n").expect(&rt, "memory");
        let found = found_at_start(&rt, alloc, 1000, 900, octets.as_slice());
        same(
            &rt,
            found.result,
            Err(LoadFault::BadLine(3)),
            "the third line",
        );
    }
}
