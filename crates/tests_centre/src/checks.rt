//! What a test demands, with words for where it was.

use std::process::Abort;

pub(crate) fn yes(rt: &impl Abort, is_so: bool, at: &str) {
    assert!(rt; is_so, "{at}");
}

pub(crate) fn same<T: PartialEq + Copy>(rt: &impl Abort, found: T, want: T, at: &str) {
    yes(rt, found == want, at);
}
