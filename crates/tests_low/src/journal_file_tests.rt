//! What no clause says of a journal's file: what is written and read at a crash after each octet, and files that fail.

ghost use Rattle.std.specs.Prelude.{◌≡◌, None};

use crate::values::{same, yes};
use framing::FromRead;
use framing::faulty::{FailsAtRead, InPieces};
use journal_file::{Heading, LoadFault, Loaded, MemoryFile, NotTaken, TakeLine, Writing, load};
use std::alloc::Global;
use std::process::Abort;

/// The network 001-01 (TS 24.008), and broadcasts until a message is killed.
pub(crate) const HEADING: Heading = Heading {
    plmn: [0x00, 0xf1, 0x10],
    broadcasts: 0,
};

/// The first line of its journal.
pub(crate) const HEADER: &[u8] = b"# cbc journal, network 00f110";

/// Takes each line but `no`, and joins those that it took, each with a line feed, and the comments that it saw.
#[derive(Drop)]
pub(crate) struct Lines {
    pub(crate) octets: Vec<u8>,
    pub(crate) seen: Vec<u8>,
    no: &'static [u8],
}

impl Lines {
    pub(crate) fn new(alloc: Global) -> Lines {
        Lines {
            octets: Vec::new(alloc),
            seen: Vec::new(alloc),
            no: b"no",
        }
    }
}

impl TakeLine for Lines {
    ghost taken = { λ _. None };

    fn take_line(&mut self, line: &[u8]) -> Result<(), NotTaken> {
        if line == self.no {
            return Err(NotTaken::BadLine);
        }
        let both = self.octets.extend_from_slice(line).is_ok() && self.octets.push(b'\n').is_ok();
        if both { Ok(()) } else { Err(NotTaken::Memory) }
    }

    fn take_comment(&mut self, line: &[u8]) {
        if self.seen.extend_from_slice(line).is_ok() {
            let _ = self.seen.push(b'\n');
        }
    }
}

/// What is found in these octets, which come so many at a time, and which lines are taken.
fn read(
    rt: &impl Abort,
    alloc: Global,
    heading: Heading,
    octets: &[u8],
    size: usize,
    taken: &[u8],
) -> Result<Loaded, LoadFault> {
    yes(rt, size > 0, "a piece has some octets");
    let mut lines = Lines::new(alloc);
    let mut source = InPieces::new(FromRead::new(octets), size.max(1));
    let found = load(alloc, heading, &mut source, &mut lines);
    same(
        rt,
        &lines.octets.as_slice(),
        &taken,
        "the lines that are taken",
    );
    found
}

/// The octets are read in pieces of one, seven and all octets, and the same is found.
pub(crate) fn finds(
    rt: &impl Abort,
    alloc: Global,
    heading: Heading,
    octets: &[u8],
    taken: &[u8],
    want: Result<Loaded, LoadFault>,
) {
    for size in [1, 7, 70_000] {
        same(
            rt,
            &read(rt, alloc, heading, octets, size, taken),
            &want,
            "what is found",
        );
    }
}

pub(crate) fn joined(rt: &impl Abort, alloc: Global, parts: &[&[u8]]) -> Vec<u8> {
    let mut octets = Vec::new(alloc);
    for part in parts {
        octets.extend_from_slice(part).expect(rt, "memory");
    }
    octets
}

#[test]
fn a_file_has_lines_and_what_is_torn(rt: HostRuntime) {
    let alloc = rt.alloc();
    let rows: [(&[u8], &[u8], Loaded); 7] = [
        (
            b"",
            b"",
            Loaded {
                lines: 0,
                whole: 0,
                torn: 0,
            },
        ),
        (
            b"# cbc jour",
            b"",
            Loaded {
                lines: 0,
                whole: 0,
                torn: 10,
            },
        ),
        (
            b"# cbc\0\0\0",
            b"",
            Loaded {
                lines: 0,
                whole: 0,
                torn: 8,
            },
        ),
        (
            b"\0\0\0\0",
            b"",
            Loaded {
                lines: 0,
                whole: 0,
                torn: 4,
            },
        ),
        (
            b"# cbc journal, network 00f110\n",
            b"",
            Loaded {
                lines: 1,
                whole: 30,
                torn: 0,
            },
        ),
        (
            b"# cbc journal, network 00f110\nbsc add 1\n\nup 1\n",
            b"bsc add 1\n\nup 1\n",
            Loaded {
                lines: 4,
                whole: 46,
                torn: 0,
            },
        ),
        (
            b"# cbc journal, network 00f110\nbsc add 1\nup\0\0",
            b"bsc add 1\n",
            Loaded {
                lines: 2,
                whole: 40,
                torn: 4,
            },
        ),
    ];
    for (octets, taken, want) in rows {
        finds(&rt, alloc, HEADING, octets, taken, Ok(want));
    }
}

#[test]
fn each_fault_is_named(rt: HostRuntime) {
    let alloc = rt.alloc();
    let rows: [(&[u8], &[u8], LoadFault); 7] = [
        (b"bsc add 1\n", b"", LoadFault::NotJournal),
        (b"hello", b"", LoadFault::NotJournal),
        (
            b"# cbc journal, network 00F110\n",
            b"",
            LoadFault::NotJournal,
        ),
        (
            b"# cbc journal, network 00f110 \n",
            b"",
            LoadFault::NotJournal,
        ),
        (
            b"# cbc journal, network 00f111\nbsc add 1\n",
            b"",
            LoadFault::OtherNetwork,
        ),
        (
            b"# cbc journal, network 00f110\nno\nup 1\n",
            b"",
            LoadFault::BadLine(2),
        ),
        (
            b"# cbc journal, network 00f110\nbsc add 1\nup 1\nno\n",
            b"bsc add 1\nup 1\n",
            LoadFault::BadLine(4),
        ),
    ];
    for (octets, taken, want) in rows {
        finds(&rt, alloc, HEADING, octets, taken, Err(want));
    }
}

#[test]
fn a_line_may_have_600_000_octets(rt: HostRuntime) {
    let alloc = rt.alloc();
    let most = vec![in alloc; b'x'; 600_000].expect(&rt, "memory");
    let lines = joined(&rt, alloc, &[most.as_slice(), b"\n"]);
    let octets = joined(&rt, alloc, &[HEADER, b"\n", lines.as_slice(), b"up 1"]);
    finds(
        &rt,
        alloc,
        HEADING,
        octets.as_slice(),
        lines.as_slice(),
        Ok(Loaded {
            lines: 2,
            whole: 600_031,
            torn: 4,
        }),
    );
    let octets = joined(&rt, alloc, &[HEADER, b"\nup 1\nx", lines.as_slice()]);
    finds(
        &rt,
        alloc,
        HEADING,
        octets.as_slice(),
        b"up 1\n",
        Err(LoadFault::LongLine(3)),
    );
    let octets = joined(&rt, alloc, &[HEADER, b"\nup 1\nx", most.as_slice()]);
    finds(
        &rt,
        alloc,
        HEADING,
        octets.as_slice(),
        b"up 1\n",
        Ok(Loaded {
            lines: 2,
            whole: 35,
            torn: 600_001,
        }),
    );
}

#[test]
fn a_read_that_fails_is_told(rt: HostRuntime) {
    let alloc = rt.alloc();
    let octets = joined(&rt, alloc, &[HEADER, b"\nup 1\ndown 1\n"]);
    for fatal in 1..=4 {
        let mut lines = Lines::new(alloc);
        let pieces = InPieces::new(FromRead::new(octets.as_slice()), 20);
        let mut source = FailsAtRead::new(pieces, fatal);
        let found = load(alloc, HEADING, &mut source, &mut lines);
        same(&rt, &found, &Err(LoadFault::ReadFault), "the read is told");
    }
}

/// What was put, in its order.
const ENTRIES: [&[u8]; 5] = [b"bsc add 1", b"cell add 1 7 8", b"up 1", b"", b"send 1"];

/// Where the link came from, as a comment.
const PEER: &[u8] = b"# link 1 192.0.2.7:40001";

/// Puts the entries, and a comment and a fold behind the third, keeps them two at a time, and says after which octets of the file how many
/// entries were kept. It ends where the file fails.
fn follow(rt: &impl Abort, alloc: Global, file: &mut MemoryFile) -> Writing {
    let mut writing = Writing::new(alloc, 7);
    for (index, line) in ENTRIES.iter().enumerate() {
        writing.put_entry(line).expect(rt, "the line is put");
        if index == 2 {
            writing.put_comment(PEER).expect(rt, "the comment is put");
            writing.put_fold().expect(rt, "the fold is put");
        }
        if index % 2 == 1 && writing.keep(file).is_err() {
            return writing;
        }
    }
    let _ = writing.keep(file);
    writing
}

/// The lines that the file has in the end, without the first and the comment.
const ALL: &[u8] = b"bsc add 1\ncell add 1 7 8\nup 1\ncheckpoint\n\nsend 1\n";

/// The same lines with the comment.
const WRITTEN: &[u8] =
    b"bsc add 1\ncell add 1 7 8\nup 1\n# link 1 192.0.2.7:40001\ncheckpoint\n\nsend 1\n";

/// How many octets the lines have of the entries up to a place, with the fold behind the third.
fn octets_to(place: u64) -> usize {
    match place {
        8 => 10,
        9 => 25,
        10 => 41,
        11 => 42,
        12 => 49,
        _ => 0,
    }
}

/// The file takes so many octets and syncs, and then fails. At a crash, whatever is lost of what isn't synced, the lines are a
/// prefix of all, and none is missing up to the synced place.
fn survives(rt: &impl Abort, alloc: Global, room: usize, syncs: usize) {
    let octets = joined(rt, alloc, &[HEADER, b"\n"]);
    let mut file = MemoryFile::new(octets, room, syncs);
    let writing = follow(rt, alloc, &mut file);
    for lost in 0..=WRITTEN.len() {
        let left = file.after_crash(alloc, lost).expect(rt, "memory");
        let mut lines = Lines::new(alloc);
        let mut source = FromRead::new(left.as_slice());
        let found = load(alloc, HEADING, &mut source, &mut lines);
        yes(rt, found.is_ok(), "the file is a journal");
        let comment = lines.seen.as_slice();
        yes(
            rt,
            comment.is_empty() || comment == b"# link 1 192.0.2.7:40001\n".as_slice(),
            "a comment is seen whole",
        );
        yes(
            rt,
            ALL.starts_with(lines.octets.as_slice()),
            "its lines are the first",
        );
        yes(
            rt,
            lines.octets.len() >= octets_to(writing.synced()),
            "none is missing that is synced",
        );
    }
}

#[test]
fn a_crash_at_each_octet_leaves_what_is_synced(rt: HostRuntime) {
    let alloc = rt.alloc();
    for room in 0..=WRITTEN.len() {
        survives(&rt, alloc, room, 3);
    }
    for syncs in 0..3 {
        survives(&rt, alloc, 100, syncs);
    }
}

#[test]
fn the_lines_stand_in_their_order(rt: HostRuntime) {
    let alloc = rt.alloc();
    let mut file = MemoryFile::new(Vec::new(alloc), 100, 3);
    let writing = follow(&rt, alloc, &mut file);
    same(&rt, &file.octets(), &WRITTEN, "the lines of the file");
    same(&rt, &writing.synced(), &12, "the synced place");
    same(&rt, &writing.taken(), &12, "the place of the last entry");
    same(&rt, &writing.has_failed(), &false, "nothing failed");
}

#[test]
fn a_file_that_failed_stays_failed(rt: HostRuntime) {
    let alloc = rt.alloc();
    let mut file = MemoryFile::new(Vec::new(alloc), 100, 0);
    let mut writing = Writing::new(alloc, 0);
    writing.put_entry(b"up 1").expect(&rt, "the line is put");
    yes(&rt, writing.keep(&mut file).is_err(), "the sync fails");
    let mut other = MemoryFile::new(Vec::new(alloc), 100, 9);
    yes(
        &rt,
        writing.keep(&mut other).is_err(),
        "and so does the next",
    );
    same(
        &rt,
        &other.octets(),
        &b"".as_slice(),
        "nothing is written any more",
    );
    same(&rt, &writing.synced(), &0, "no entry is kept");
}
