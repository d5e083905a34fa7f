//! Files that a test writes while a server runs.

use std::fs;

/// What writes a text to a file, in any thread. `Files` can't stand for it: what its files and folders do is known of one thread
/// alone.
pub(crate) trait TextFiles {
    /// Has the file have that text. The answer is whether it has.
    fn put(&self, path: &str, text: &str) -> bool;
}

impl TextFiles for HostRuntime {
    fn put(&self, path: &str, text: &str) -> bool {
        fs::write(self, path, text).is_ok()
    }
}
