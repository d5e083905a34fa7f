//! What a test demands. The place is named where a demand isn't met.

use std::process::Abort;

/// It holds.
pub(crate) fn yes(rt: &impl Abort, holds: bool, at: &str) {
    assert!(rt; holds, "{at}");
}

/// What was found is what is wanted.
pub(crate) fn same<T: PartialEq + Drop>(rt: &impl Abort, found: T, want: T, at: &str) {
    yes(rt, found == want, at);
}
