//! What a checkpoint folds.

use crate::entries::Entries;

/// How many entries were folded, and copies of those of them that were not handed out before.
pub struct Folded {
    pub count: u64,
    pub rest: Entries,
}

/// Written out, so that no crate above proves anew how its parts are dropped.
impl Drop for Folded {
    fn drop(self) {
        let Folded {
            count: _count,
            rest: _rest,
        } = self;
    }
}
