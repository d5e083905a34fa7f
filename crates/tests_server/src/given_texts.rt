//! Texts that rows tell of: those that a run is given, and those that it has to write.

use std::alloc::Global;
use std::process::Abort;

/// A part of a text.
#[derive(Clone, Copy)]
pub(crate) enum Part {
    Text(&'static str),
    /// A text so often.
    Times(&'static str, u32),
    /// The numbers from one to another, each between two texts.
    Numbered(&'static str, u32, u32, &'static str),
}

fn add(rt: &impl Abort, text: &mut String, other: &str) {
    text.push_str(other).expect(rt, "memory");
}

fn add_numbered(rt: &impl Abort, alloc: Global, text: &mut String, before: &str, number: u32) {
    let number = format!(in alloc; "{number}").expect(rt, "memory");
    add(rt, text, before);
    add(rt, text, number.as_str());
}

fn add_part(rt: &impl Abort, alloc: Global, text: &mut String, part: &Part) {
    match part {
        Part::Text(other) => add(rt, text, other),
        Part::Times(other, times) => {
            for _ in 0..*times {
                add(rt, text, other);
            }
        }
        Part::Numbered(before, first, last, after) => {
            for number in *first..=*last {
                add_numbered(rt, alloc, text, before, number);
                add(rt, text, after);
            }
        }
    }
}

/// The parts, one after another.
pub(crate) fn text_of(rt: &impl Abort, alloc: Global, parts: &[Part]) -> String {
    let mut text = String::new(alloc);
    for part in parts {
        add_part(rt, alloc, &mut text, part);
    }
    text
}

/// What is wanted of a text.
#[derive(Clone, Copy)]
pub(crate) enum Wanted {
    Is(&'static str),
    /// How it begins and ends.
    Bounds(&'static str, &'static str),
    /// Any of so many octets at least, and at most.
    Length(usize, usize),
    /// One that has the first text, and not the second.
    HasNot(&'static str, &'static str),
}

/// Whether the part stands in the text.
fn has(text: &[u8], part: &[u8]) -> bool {
    for index in 0..text.len() {
        if text[index..].starts_with(part) {
            return true;
        }
    }
    false
}

/// How the time at the beginning of a line is written: a digit for each 0.
const TIME: &[u8] = b"0000-00-00T00:00:00Z ";

/// Whether the line begins with a time.
pub(crate) fn has_time(line: &[u8]) -> bool {
    let mut octets = line.iter();
    for form in TIME {
        match octets.next() {
            Some(octet) if *form == b'0' && octet.is_ascii_digit() => {}
            Some(octet) if octet == form => {}
            _ => return false,
        }
    }
    true
}

/// The line without the time at its beginning.
fn without_time(line: &[u8]) -> &[u8] {
    if has_time(line) {
        line.get(TIME.len()..).unwrap_or(line)
    } else {
        line
    }
}

/// Adds the line without its time, and without an address in parentheses behind the number of a BSC. What is listened on isn't
/// added.
fn add_plain(rt: &impl Abort, plain: &mut Vec<u8>, line: &[u8]) {
    let line = without_time(line);
    if line.starts_with(b"cbc: listening: ") {
        return;
    }
    let is_bsc = line.starts_with(b"cbc: BSC ");
    let mut is_address = false;
    for octet in line {
        match *octet {
            b'(' if is_bsc => {
                is_address = true;
                drop(plain.pop());
            }
            b')' if is_address => is_address = false,
            other if !is_address => plain.push(other).expect(rt, "memory"),
            _ => {}
        }
    }
    plain.push(b'\n').expect(rt, "memory");
}

/// The lines that a server said, without their times, without what it listens on, and without the addresses of BSCs.
pub(crate) fn plain(rt: &impl Abort, alloc: Global, said: &[u8]) -> Vec<u8> {
    let mut plain = Vec::new(alloc);
    for line in said.split(|octet| *octet == b'\n') {
        if !line.is_empty() {
            add_plain(rt, &mut plain, line);
        }
    }
    plain
}

impl Wanted {
    pub(crate) fn is(&self, text: &[u8]) -> bool {
        match self {
            Wanted::Is(wanted) => text == wanted.as_bytes(),
            Wanted::Bounds(begin, end) => {
                text.starts_with(begin.as_bytes()) && text.ends_with(end.as_bytes())
            }
            Wanted::Length(least, most) => *least <= text.len() && text.len() <= *most,
            Wanted::HasNot(part, other) => {
                has(text, part.as_bytes()) && !has(text, other.as_bytes())
            }
        }
    }
}

/// Whether the line is as wanted. A wanted line that ends in `...` is how the line has to begin.
fn is_as_wanted(line: &[u8], wanted: &[u8]) -> bool {
    match wanted.strip_suffix(b"...".as_slice()) {
        Some(begin) => line.starts_with(begin),
        None => line == wanted,
    }
}

/// Whether each line of the text is as wanted.
pub(crate) fn are_as_wanted(text: &[u8], wanted: &[u8]) -> bool {
    let mut lines = text.split(|octet| *octet == b'\n');
    for wanted in wanted.split(|octet| *octet == b'\n') {
        match lines.next() {
            Some(line) if is_as_wanted(line, wanted) => {}
            _ => return false,
        }
    }
    lines.next().is_none()
}
