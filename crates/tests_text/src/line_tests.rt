//! Lines of events: each is written as an operator writes it.

use crate::checks::yes;
use crate::events_of_lines::event_of;
use centre_events::answer::Answer;
use centre_events::entry::Entry;
use centre_events::event::Event;
use common::Octets;
use journal_text::{checkpoint_line, line_of};
use std::alloc::Global;
use std::process::Abort;

/// The line that is written of the event.
fn line_for(rt: &impl Abort, alloc: Global, event: Event) -> Option<Octets> {
    let entry = Entry {
        desk: 2,
        event,
        answer: Answer::Done,
    };
    line_of(alloc, &entry).expect(rt, "memory")
}

/// Whether the line is that one.
fn is_same(written: &Option<Octets>, wanted: Option<&[u8]>) -> bool {
    match (written, wanted) {
        (Some(text), Some(wanted)) => text.as_slice() == wanted,
        (None, None) => true,
        _ => false,
    }
}

/// Whether the event of this line is written as that one.
fn is_written(rt: &impl Abort, alloc: Global, line: &[u8], wanted: Option<&[u8]>) -> bool {
    match event_of(rt, alloc, line, 6) {
        Some(event) => is_same(&line_for(rt, alloc, event), wanted),
        None => false,
    }
}

/// Lines as they are written.
const LINES: &[&str] = &[
    "bsc add 1",
    "bsc remove 65535",
    "cell add 100 7 1",
    "cell move 0 65535 12",
    "cell remove 100 7",
    "area add Coast",
    "area drop -",
    "area put Coast 100",
    "area put Coast 100 7",
    "area cut A-1 0",
    "area cut A-1 65535 0",
    "issue 4370 3 15 0 30 d4f29c0e Coast",
    "issue 4370 0 255 2 1024 00/ff/d4f29c0e Coast,-,A",
    "update 1 15 1 30 d4/29",
    "widen 1 Coast",
    "narrow 4294967295 Coast",
    "stop 1",
    "forget 10",
    "retry 1",
    "up 1",
    "down 1",
    "send 1",
    "ask 1 3",
    "ask 1 3 100 7",
];

#[test]
fn lines_are_written_again(rt: HostRuntime) {
    for line in LINES {
        let wanted = line.as_bytes();
        yes(&rt, is_written(&rt, rt.alloc(), wanted, Some(wanted)), line);
    }
}
