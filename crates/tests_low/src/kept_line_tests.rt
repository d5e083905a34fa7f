//! What no clause says of the lines of a journal's file: which are put, and that comments are seen and count as lines.

ghost use Rattle.std.specs.Prelude.{◌≡◌};

use crate::journal_file_tests::{HEADER, HEADING, Lines, finds, joined};
use crate::values::same;
use framing::FromRead;
use framing::faulty::InPieces;
use journal_file::{LoadFault, Loaded, PutFault, Writing, load};

#[test]
fn a_comment_is_seen_and_no_line(rt: HostRuntime) {
    let alloc = rt.alloc();
    let octets = joined(
        &rt,
        alloc,
        &[HEADER, b"\n# link 1 x\nup 1\n#\n # x\n#\xff\n# to"],
    );
    for size in [1, 7, 70_000] {
        let mut lines = Lines::new(alloc);
        let mut source = InPieces::new(FromRead::new(octets.as_slice()), size);
        let found = load(alloc, HEADING, &mut source, &mut lines);
        let want = Ok(Loaded {
            lines: 6,
            whole: 56,
            torn: 4,
        });
        same(&rt, &found, &want, "all is read");
        same(
            &rt,
            &lines.octets.as_slice(),
            &b"up 1\n # x\n".as_slice(),
            "what is no comment is taken",
        );
        same(
            &rt,
            &lines.seen.as_slice(),
            &b"# link 1 x\n#\n#\xff\n".as_slice(),
            "and the comments are seen",
        );
    }
}

#[test]
fn a_comment_counts_as_a_line(rt: HostRuntime) {
    let alloc = rt.alloc();
    let octets = joined(&rt, alloc, &[HEADER, b"\n# a\nup 1\n#\nno\n"]);
    finds(
        &rt,
        alloc,
        HEADING,
        octets.as_slice(),
        b"up 1\n",
        Err(LoadFault::BadLine(5)),
    );
    let most = vec![in alloc; b'#'; 600_000].expect(&rt, "memory");
    let octets = joined(
        &rt,
        alloc,
        &[
            HEADER,
            b"\n",
            most.as_slice(),
            b"\n#",
            most.as_slice(),
            b"\n",
        ],
    );
    finds(
        &rt,
        alloc,
        HEADING,
        octets.as_slice(),
        b"",
        Err(LoadFault::LongLine(3)),
    );
}

#[test]
fn a_comment_that_is_none_is_refused(rt: HostRuntime) {
    let alloc = rt.alloc();
    let mut writing = Writing::new(alloc, u64::MAX);
    let long = vec![in alloc; b'#'; 600_001].expect(&rt, "memory");
    for line in [
        b"up 1".as_slice(),
        b"",
        b" # a",
        b"# a\nup 1",
        long.as_slice(),
    ] {
        same(
            &rt,
            &writing.put_comment(line),
            &Err(PutFault::BadLine),
            "a comment is one line that begins so",
        );
    }
    same(
        &rt,
        &writing.put_comment(b"# a"),
        &Ok(()),
        "a comment needs no place",
    );
    same(&rt, &writing.waiting(), &4, "it waits");
    let mut writing = Writing::new(alloc, 0);
    same(
        &rt,
        &writing.put_entry(b"# a"),
        &Err(PutFault::BadLine),
        "no entry is a comment",
    );
}

#[test]
fn a_line_that_would_be_two_is_refused(rt: HostRuntime) {
    let alloc = rt.alloc();
    let mut writing = Writing::new(alloc, u64::MAX - 1);
    same(
        &rt,
        &writing.put_entry(b"up 1\ndown 1"),
        &Err(PutFault::BadLine),
        "a line feed within",
    );
    let long = vec![in alloc; b'x'; 600_001].expect(&rt, "memory");
    same(
        &rt,
        &writing.put_entry(long.as_slice()),
        &Err(PutFault::BadLine),
        "a long line",
    );
    same(
        &rt,
        &writing.put_entry(b"up 1"),
        &Ok(()),
        "the last entry that has a place",
    );
    same(
        &rt,
        &writing.put_entry(b"up 1"),
        &Err(PutFault::Full),
        "no place is left",
    );
    same(&rt, &writing.waiting(), &5, "one line waits");
}
