//! Entries of the journal, as they are handed out.

use centre_events::entry::Entry;

/// Copies of entries that stand one behind another, the oldest first.
pub struct Entries {
    /// How many entries, which come before these and were asked for too, can't be handed out any more: they are folded.
    pub missed: u64,
    pub entries: Vec<Entry>,
}

/// Written out, so that no crate above proves anew how its parts are dropped.
impl Drop for Entries {
    fn drop(self) {
        let Entries {
            missed: _missed,
            entries: _entries,
        } = self;
    }
}
