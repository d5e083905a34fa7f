//! Where links came from: written behind the line of a link that comes up, and found again at the end of a file.

ghost use Rattle.std.specs.Prelude.{◌≡◌};

use crate::checks::{same, yes};
use cell_register::BscId;
use centre_events::event::Event;
use centre_events::network::Network;
use coverage_plan::Edit;
use framing::FromRead;
use journal_file::{Heading, MemoryFile, Writing, load};
use journal_keeper::{Followed, KeepFault};
use journal_office::{
    LastPeers, LinkPeers, NoPeers, OfficeJournal, link_comment, read_link_comment,
};
use office::desk::Desk;
use office::office::Office;
use std::alloc::Global;
use std::marker::Brand;
use std::net::SocketAddr;
use std::process::Abort;
use std::sync::Wait;
use std::sync::ledger::{Blank, Ledger};

const NETWORK: Network = Network {
    plmn: [0x00, 0xf1, 0x10],
    broadcasts: 0,
};

const HEADING: Heading = Heading {
    plmn: [0x00, 0xf1, 0x10],
    broadcasts: 0,
};

fn bsc(rt: &impl Abort, number: u16) -> BscId {
    BscId::new(number).expect(rt, "the number of a BSC")
}

fn address(rt: &impl Abort, text: &str) -> SocketAddr {
    SocketAddr::parse_ascii(text.as_bytes()).expect(rt, "an address and a port")
}

/// A file whose two links came up, of which the first was lost and came back. Comments of another kind, or of no BSC's link, say
/// nothing.
const FILE: &[u8] = b"# cbc journal, network 00f110
# link 1 192.0.2.9:1
bsc add 1
bsc add 2
up 1
# link 1 192.0.2.7:40001
up 2
# link 3 192.0.2.7:40009
# link 2 [2001:db8::7]:40002
# linked 2 192.0.2.7:40010
down 1
checkpoint
up 1
# link 1 192.0.2.7
# link 1 192.0.2.7:40003
down 2
";

/// Where the links of BSC 1 and of BSC 2 came from, after so many lines of it.
const PEERS: [(&str, &str); 17] = [
    ("", ""),
    ("", ""),
    ("", ""),
    ("", ""),
    ("", ""),
    ("", ""),
    ("192.0.2.7:40001", ""),
    ("192.0.2.7:40001", ""),
    ("192.0.2.7:40001", ""),
    ("192.0.2.7:40001", "[2001:db8::7]:40002"),
    ("192.0.2.7:40001", "[2001:db8::7]:40002"),
    ("", "[2001:db8::7]:40002"),
    ("", "[2001:db8::7]:40002"),
    ("", "[2001:db8::7]:40002"),
    ("", "[2001:db8::7]:40002"),
    ("192.0.2.7:40003", "[2001:db8::7]:40002"),
    ("192.0.2.7:40003", ""),
];

/// How many lines end in the octets.
fn lines_in(octets: &[u8]) -> usize {
    octets.iter().filter(|octet| **octet == b'\n').count()
}

/// The address that is found is the one of the text, or none where the text is empty.
fn is_found(rt: &impl Abort, found: &LastPeers, number: u16, text: &str) {
    let want = if text.is_empty() {
        None
    } else {
        Some(address(rt, text))
    };
    yes(
        rt,
        found.peer(bsc(rt, number)) == want,
        "where the link came from",
    );
}

#[test]
fn a_file_that_is_cut_at_any_octet_says_where_links_came_from(rt: HostRuntime) {
    let alloc = rt.alloc();
    for cut in 0..=FILE.len() {
        let left = FILE.get(..cut).unwrap_or(FILE);
        let mut found = LastPeers::new(alloc);
        let mut source = FromRead::new(left);
        yes(
            &rt,
            load(alloc, HEADING, &mut source, &mut found).is_ok(),
            "it is a journal",
        );
        if let Some((one, two)) = PEERS.get(lines_in(left)) {
            is_found(&rt, &found, 1, one);
            is_found(&rt, &found, 2, two);
        }
        is_found(&rt, &found, 3, "");
    }
}

#[test]
fn what_is_written_of_a_link_is_read(rt: HostRuntime) {
    let alloc = rt.alloc();
    for (number, text, line) in [
        (1, "192.0.2.7:40001", "# link 1 192.0.2.7:40001"),
        (65535, "0.0.0.0:0", "# link 65535 0.0.0.0:0"),
        (256, "[::1]:65535", "# link 256 [::1]:65535"),
        (2, "[fe80::7%3]:1", "# link 2 [fe80::7%3]:1"),
    ] {
        let peer = address(&rt, text);
        let comment = link_comment(alloc, bsc(&rt, number), &peer).expect(&rt, "memory");
        yes(&rt, comment.as_str() == line, "the comment");
        let found = read_link_comment(alloc, line.as_bytes()).expect(&rt, "memory");
        yes(
            &rt,
            found == Some((bsc(&rt, number), peer)),
            "it is read again",
        );
    }
}

#[test]
fn a_comment_that_names_no_link_is_passed_over(rt: HostRuntime) {
    let alloc = rt.alloc();
    let rows: [&[u8]; 10] = [
        b"#",
        b"# link",
        b"# link 1",
        b"# link 0 192.0.2.7:40001",
        b"# link 65536 192.0.2.7:40001",
        b"# link 1 192.0.2.7",
        b"# link 1 192.0.2.7:65536",
        b"# link 1 192.0.2.7:40001 down",
        b"#link 1 192.0.2.7:40001",
        b"# Link 1 192.0.2.7:40001",
    ];
    for row in rows {
        let found = read_link_comment(alloc, row).expect(&rt, "memory");
        yes(&rt, found.is_none(), "it is of another kind");
    }
}

/// Links of odd generations came from there; where the others came from, nobody knows.
#[derive(Drop)]
struct Odd {
    peer: SocketAddr,
}

impl LinkPeers for Odd {
    fn peer_of<R: Wait>(&self, _rt: &R, _bsc: BscId, generation: u64) -> Option<SocketAddr> {
        if generation % 2 == 1 {
            Some(self.peer)
        } else {
            None
        }
    }
}

/// Submits these events.
fn submits<L: Ledger, R: Wait + Abort>(rt: &R, office: &Office<L>, desk: &mut Desk<L>, ups: u32) {
    let b = bsc(rt, 1);
    yes(
        rt,
        office
            .submit(rt, desk, Event::Edit(Edit::AddBsc(b)))
            .is_ok(),
        "the BSC is registered",
    );
    for _ in 0..ups {
        yes(
            rt,
            office.submit(rt, desk, Event::LinkUp(b)).is_ok(),
            "its link comes up",
        );
    }
}

/// What is written of a BSC whose link comes up twice, and then of a fold behind two more.
fn writes<L: Ledger, P: LinkPeers, R: Wait + Abort>(
    rt: &R,
    journal: &OfficeJournal<'_, L, P>,
    desk: &mut Desk<L>,
    file: &mut MemoryFile,
) -> Result<(), KeepFault> {
    let mut writing = Writing::new(journal.alloc, 0);
    submits(rt, journal.office, desk, 2);
    journal.put_entries(rt, &mut writing)?;
    let b = bsc(rt, 1);
    for _ in 0..2 {
        yes(
            rt,
            journal.office.submit(rt, desk, Event::LinkUp(b)).is_ok(),
            "its link comes up",
        );
    }
    let folded = journal.put_fold(rt, &mut writing)?;
    yes(rt, folded.is_ok(), "the journal is folded");
    same(rt, writing.taken(), 5, "a comment is no entry");
    match writing.keep(file) {
        Ok(_) => Ok(()),
        Err(_) => Err(KeepFault::File),
    }
}

/// The file of such an office with these peers.
fn written<L: Ledger, P: LinkPeers, R: Wait + Abort>(
    rt: &R,
    alloc: Global,
    blank: Blank,
    peers: &P,
) -> MemoryFile
    requires name { blank.name ≡ L.name }
    requires parts { blank.parts ≡ L.parts }
    requires desks { blank.parts ≡ 1025 }
{
    let office: Office<L> = Office::new(alloc, blank, NETWORK, 1000);
    let mut desk = office.open_desk(rt).expect(rt, "a desk");
    let mut file = MemoryFile::new(Vec::new(alloc), 1_000, 10);
    let journal = OfficeJournal {
        alloc,
        office: &office,
        peers,
    };
    writes(rt, &journal, &mut desk, &mut file).expect(rt, "all is written");
    drop(desk);
    drop(office);
    file
}

/// The file of an office of its own.
fn written_of_its_own<P: LinkPeers, R: Wait + Abort>(
    rt: &R,
    alloc: Global,
    peers: &P,
) -> MemoryFile {
    written::<Brand, P, R>(rt, alloc, Blank::new(1025), peers)
}

#[test]
fn where_a_link_came_from_stands_behind_its_line(rt: HostRuntime) {
    let alloc = rt.alloc();
    let peer = address(&rt, "192.0.2.7:40001");
    let file = written_of_its_own(&rt, alloc, &Odd { peer });
    same(
        &rt,
        file.octets(),
        b"bsc add 1
up 1
up 1
# link 1 192.0.2.7:40001
up 1
up 1
# link 1 192.0.2.7:40001
checkpoint
"
            .as_slice(),
        "links of entries 2 and 4 came from nowhere that is known",
    );
}

#[test]
fn without_peers_no_comment_is_written(rt: HostRuntime) {
    let alloc = rt.alloc();
    let file = written_of_its_own(&rt, alloc, &NoPeers);
    same(
        &rt,
        file.octets(),
        b"bsc add 1\nup 1\nup 1\nup 1\nup 1\ncheckpoint\n".as_slice(),
        "lines of entries and the fold",
    );
}
