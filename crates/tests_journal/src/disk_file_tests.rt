//! What no clause says of a file of the system: what stands in it, its lock, and what can't be opened.

ghost use Rattle.std.specs.Prelude.{◌≡◌, None};

use crate::checks::{same, yes};
use journal_file::{
    DiskFile, Heading, JournalFile, LoadFault, Loaded, NotTaken, OpenFault, TakeLine, Writing,
    append_all, header, load,
};
use std::alloc::Global;
use std::fs;
use std::process::Abort;
use std::rt::Files;

const HEADING: Heading = Heading {
    plmn: [0x00, 0xf1, 0x10],
    broadcasts: 0,
};

/// Counts the lines that it takes.
#[derive(Drop)]
struct Count(u64);

impl TakeLine for Count {
    ghost taken = { λ _. None };

    fn take_line(&mut self, _line: &[u8]) -> Result<(), NotTaken> {
        self.0 = self.0.saturating_add(1);
        Ok(())
    }

    fn take_comment(&mut self, _line: &[u8]) {}
}

/// What is found in the file, and how many of its lines are taken.
fn found(file: &DiskFile, alloc: Global) -> (Result<Loaded, LoadFault>, u64) {
    let mut count = Count(0);
    let mut source = file.source();
    let result = load(alloc, HEADING, &mut source, &mut count);
    (result, count.0)
}

/// Puts the lines behind what stands in the file, and syncs it.
fn put(rt: &impl Abort, alloc: Global, file: &mut DiskFile, lines: &[&[u8]]) {
    let mut writing = Writing::new(alloc, 0);
    for line in lines {
        writing.put_entry(line).expect(rt, "the line is put");
    }
    writing.keep(file).expect(rt, "the lines are kept");
}

#[test]
fn a_file_that_cannot_be_synced_says_so(rt: HostRuntime) {
    let mut file = DiskFile::open(&rt, "/dev/null").expect(&rt, "it can be opened and locked");
    yes(&rt, file.append(b"line\n").is_ok(), "it takes octets");
    yes(&rt, file.sync().is_err(), "it keeps none of them");
}

#[test]
fn a_file_keeps_its_lines_and_is_cut(rt: HostRuntime) {
    let alloc = rt.alloc();
    let path = "journal-of-lines";
    let _ = fs::remove_file(&rt, path);
    let mut file = DiskFile::open(&rt, path).expect(&rt, "a file that isn't there is made");
    let (result, taken) = found(&file, alloc);
    same(
        &rt,
        result,
        Ok(Loaded {
            lines: 0,
            whole: 0,
            torn: 0,
        }),
        "an empty file",
    );
    same(&rt, taken, 0, "it has no lines");
    let first = header(HEADING);
    let both = append_all(&mut file, first.as_slice()).is_ok()
        && append_all(&mut file, b"\n").is_ok();
    yes(&rt, both, "the first line");
    put(&rt, alloc, &mut file, &[b"bsc add 1", b"up 1"]);
    yes(&rt, file.append(b"down").is_ok(), "a torn line");
    drop(file);
    let mut file = DiskFile::open(&rt, path).expect(&rt, "it is opened again");
    let (result, taken) = found(&file, alloc);
    same(
        &rt,
        result,
        Ok(Loaded {
            lines: 3,
            whole: 45,
            torn: 4,
        }),
        "three lines and a torn one",
    );
    same(&rt, taken, 2, "two are taken");
    file.cut(45).expect(&rt, "it is cut");
    put(&rt, alloc, &mut file, &[b"down 1"]);
    drop(file);
    let text = fs::read_to_string(&rt, path).expect(&rt, "it is read");
    same(
        &rt,
        text.as_str(),
        "# cbc journal, network 00f110\nbsc add 1\nup 1\ndown 1\n",
        "what stands in it",
    );
    let _ = fs::remove_file(&rt, path);
}

#[test]
fn a_file_is_open_once(rt: HostRuntime) {
    let path = "journal-in-use";
    let file = DiskFile::open(&rt, path).expect(&rt, "it is opened");
    same(
        &rt,
        DiskFile::open(&rt, path).err(),
        Some(OpenFault::InUse),
        "it is in use",
    );
    drop(file);
    let file = DiskFile::open(&rt, path).expect(&rt, "it is opened again");
    drop(file);
    let _ = fs::remove_file(&rt, path);
}

#[test]
fn a_directory_is_refused(rt: HostRuntime) {
    same(
        &rt,
        DiskFile::open(&rt, ".").err(),
        Some(OpenFault::Refused),
        "a directory",
    );
    same(
        &rt,
        DiskFile::open(&rt, "not-there/journal").err(),
        Some(OpenFault::Refused),
        "no such directory",
    );
    same(
        &rt,
        DiskFile::open(&rt, "").err(),
        Some(OpenFault::Refused),
        "no name",
    );
}
