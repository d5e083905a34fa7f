//! What a test demands. The place is named where a demand isn't met.

use std::process::Abort;

/// It holds.
pub(crate) fn yes(rt: &impl Abort, holds: bool, at: &str) {
    assert!(rt; holds, "{at}");
}

/// The text is the one that is wanted.
pub(crate) fn is_text(rt: &impl Abort, found: &[u8], want: &str, at: &str) {
    yes(rt, found == want.as_bytes(), at);
}

/// Whether the text has that part.
pub(crate) fn has(text: &[u8], part: &[u8]) -> bool {
    text.windows(part.len().max(1)).any(|piece| piece == part)
}
