//! What no clause says of the lines on standard error: none is said before it may be told, and how many are left out is said.

use crate::checks::yes;
use crate::given_said::Said;
use server_errors::{AtOnce, Clearance, Errors, say_of_centre};
use std::alloc::Global;
use std::io::Write;
use std::sync::{Mutex, Wait};
use std::time::Clock;

/// How many lines wait at most.
const MOST_LINES: u32 = 10_000;

/// No line may ever be told.
struct Never;

impl Clearance for Never {
    fn may_tell<R: Wait>(&self, _rt: &R) -> bool {
        false
    }
}

/// Has so many lines said, and no more after them.
fn says_lines<E: Write + Drop, R: Wait + Clock>(
    rt: &R,
    alloc: Global,
    errors: &Errors<E>,
    lines: u32,
) {
    for _ in 0..lines {
        say_of_centre(rt, alloc, errors, "an event was entered");
    }
    errors.close(rt);
}

/// What is said of so many lines where they may be told by then.
fn said_of<C: Clearance, R: Wait + Clock>(
    rt: &R,
    alloc: Global,
    clearance: &C,
    lines: u32,
) -> Vec<u8> {
    let octets = Mutex::new(Vec::new(alloc));
    let said = Said {
        rt,
        octets: &octets,
    };
    let errors = Errors::new(alloc, said);
    says_lines(rt, alloc, &errors, lines);
    errors.say_lines(rt, alloc, clearance);
    drop(errors);
    octets.into_inner()
}

#[test]
fn no_line_is_said_before_it_may_be_told(rt: HostRuntime) {
    let said = said_of(&rt, rt.alloc(), &Never, 3);
    yes(&rt, said.is_empty(), "nothing is said");
}

#[test]
fn lines_that_are_left_out_are_counted(rt: HostRuntime) {
    for (more, last) in [
        (0, b"cbc: an event was entered\n".as_slice()),
        (1, b"cbc: 1 lines were left out\n".as_slice()),
        (2, b"cbc: 2 lines were left out\n".as_slice()),
    ] {
        let lines = MOST_LINES.saturating_add(more);
        let said = said_of(&rt, rt.alloc(), &AtOnce, lines);
        yes(
            &rt,
            said.ends_with(last),
            "how many were left out stands behind the others",
        );
    }
}
