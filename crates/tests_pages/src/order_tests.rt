//! In which order the page shows warnings, and which causes it tells above them.

use crate::checks::{has, is_text, yes};
use crate::pictures::{bare_warning, picture_of_all};
use crate::values::{TAKEN, bsc, numbers};
use coverage_board::Numbers;
use status_figures::{BscFigures, Picture, WarningFigures};
use status_pages::page;
use std::alloc::Global;
use std::process::Abort;
use warning_book::Kind::{self, Cbs, Emergency};

/// The message identifier of the required monthly test (TS 23.041, 9.4.1.2.2).
const TEST: u16 = 4380;

/// A warning: its number, message identifier and kind, whether it is active, and how many cells it is awaited in, on air and failed, and how
/// many places it is left in.
type Line = (u32, u16, Kind, bool, [u64; 4]);

const LINES: [Line; 15] = [
    (1, 4371, Cbs, true, [0, 7, 0, 0]),
    (2, 4371, Cbs, true, [0, 7, 1, 0]),
    (3, 4371, Cbs, true, [0, 2, 5, 0]),
    (4, 4352, Emergency, true, [0, 7, 1, 0]),
    (5, 4352, Emergency, true, [0, 0, 0, 0]),
    (6, 4371, Cbs, true, [0, 0, 0, 0]),
    (7, TEST, Cbs, false, [0, 0, 0, 9]),
    (8, 4371, Cbs, true, [7, 0, 1, 0]),
    (9, 4371, Cbs, true, [0, 7, 1, 9]),
    (SILENT, 4371, Cbs, true, [0, 7, 0, 0]),
    (11, 4371, Cbs, false, [0, 0, 0, 1]),
    (12, 4352, Emergency, true, [0, 7, 0, 0]),
    (13, 4352, Emergency, false, [0, 0, 0, 0]),
    (14, 4371, Cbs, false, [0, 0, 0, 0]),
    (15, 4355, Emergency, false, [0, 0, 0, 0]),
];

/// The number of the warning that is silent.
const SILENT: u32 = 10;

/// The emergencies to look at, of which the one that reaches nobody is first; the text that reaches nobody; the silent one; the others to
/// look at, by what failed, is awaited and is left, the stopped test last; then those on air, and those that were stopped.
const ORDER: &str = "5 4 6 10 3 8 9 2 11 7 12 1 13 14 15 ";

fn warning(rt: &impl Abort, alloc: Global, line: Line) -> WarningFigures {
    let (number, id, kind, is_active, [awaited, on_air, failed, left]) = line;
    let numbers: Numbers = numbers(awaited, on_air, failed, left);
    let serial = if is_active { Some(0x4031) } else { None };
    let mut warning = bare_warning(rt, alloc, (number, id, kind), serial, numbers);
    if number == SILENT {
        warning.silent = 2;
    }
    warning
}

/// The centre of all these warnings, and of these BSCs.
fn picture(rt: &impl Abort, alloc: Global, bscs: &[BscFigures]) -> Picture {
    let mut warnings = Vec::new(alloc);
    for line in &LINES {
        warnings
            .push(warning(rt, alloc, *line))
            .expect(rt, "memory");
    }
    picture_of_all(rt, alloc, warnings, bscs)
}

/// What stands between each such front, of 20 at most, and the next quotation mark, with a blank behind each.
fn all_behind(rt: &impl Abort, alloc: Global, text: &str, front: &str) -> Vec<u8> {
    let mut found = Vec::new(alloc);
    let mut rest = text;
    for _turn in 0..20 {
        let Some((_, behind)) = rest.split_once(front) else {
            return found;
        };
        let (word, behind) = behind.split_once("\"").expect(rt, "the end");
        found
            .extend_from_slice(word.as_bytes())
            .expect(rt, "memory");
        found.push(b' ').expect(rt, "memory");
        rest = behind;
    }
    found
}

fn page_of(rt: &impl Abort, alloc: Global, bscs: &[BscFigures]) -> String {
    let picture = picture(rt, alloc, bscs);
    let found = page(alloc, &picture).expect(rt, "memory");
    String::from_utf8(found).expect(rt, "the page is a text")
}

#[test]
fn the_most_urgent_warning_is_first(rt: HostRuntime) {
    let alloc = rt.alloc();
    let text = page_of(&rt, alloc, &[bsc(&rt, 1, true, None, None, 0)]);
    let found = all_behind(&rt, alloc, text.as_str(), "<article id=\"w");
    is_text(&rt, found.as_slice(), ORDER, "the warnings");
    let found = all_behind(&rt, alloc, text.as_str(), "<li><a href=\"#w");
    is_text(
        &rt,
        found.as_slice(),
        "5 4 6 10 3 8 9 2 11 7 ",
        "the causes",
    );
    let first = b"<ul class=\"why\"><li><a href=\"#w5\">Warning 5</a> <b>REACHES NO CELL</b> </li>";
    yes(&rt, has(text.as_bytes(), first), "an emergency");
    let silent =
        b"<li><a href=\"#w10\">Warning 10</a> <span class=\"f\"><b>2</b> cells silent</span> </li>";
    yes(&rt, has(text.as_bytes(), silent), "a silent warning");
    let titles = b"<h2>Emergency warnings to look at <b>2</b></h2>";
    yes(&rt, has(text.as_bytes(), titles), "the title");
}

/// A BSC whose link is down, one with cells that are down, one that owes a reply for 31 seconds, and one that owes the answer to a RESET for
/// 30; what is out for less is no cause.
#[test]
fn each_bsc_to_look_at_is_told(rt: HostRuntime) {
    let alloc = rt.alloc();
    let up = |number: u16| bsc(&rt, number, true, None, None, 0);
    let mut bscs = [
        bsc(&rt, 1, false, None, None, 0),
        up(2),
        up(3),
        up(4),
        up(5),
    ];
    bscs[1].down = Some(8);
    bscs[2].since = Some(TAKEN - 31);
    bscs[3].reset = Some(TAKEN - 30);
    bscs[4].reset = Some(TAKEN - 29);
    let picture = picture_of_all(&rt, alloc, Vec::new(alloc), &bscs);
    let found = page(alloc, &picture).expect(&rt, "memory");
    let why =
        b"<p>Somebody has to look:</p><ul class=\"why\"><li><a href=\"#b1\">BSC 1</a> link down </li><li><a href=\"#b2\">BSC 2</a> link up <span class=\"f\"><b>8</b> cells down</span> </li><li><a href=\"#b3\">BSC 3</a> link up <span class=\"l\"><b>31</b> seconds without a reply</span> </li><li><a href=\"#b4\">BSC 4</a> link reset <span class=\"l\"><b>30</b> seconds without an answer to RESET</span> </li></ul>";
    yes(&rt, has(found.as_slice(), why), "the causes");
}
