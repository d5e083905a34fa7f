//! A picture of a centre.

use crate::bsc_list::BscList;
use crate::tallies::Tallies;
use crate::warning_list::WarningList;
use centre_past::lists::CentreStatus;

/// How a centre stood at one moment.
pub struct Picture {
    /// When it was taken, in seconds after 1970-01-01T00:00:00Z.
    pub taken: u64,
    /// When the program began, in seconds after 1970-01-01T00:00:00Z.
    pub begun: u64,
    pub status: CentreStatus,
    /// The registered BSCs; none where the centre is stale.
    pub bscs: BscList,
    /// The warnings in the book; none where the centre is stale.
    pub warnings: WarningList,
    /// The last entry that stands in the kept file; `None` where there is no such file.
    pub kept: Option<u64>,
    /// How many receipts are kept for the desks.
    pub receipts: u64,
    /// How many events and questions were refused, by the name of the refusal.
    pub refusals: Tallies,
    /// How many events were entered, by their kind.
    pub entries: Tallies,
    /// How much memory the program takes, in octets; `None` where it isn't known.
    pub memory: Option<u64>,
}

/// Written out, so that no crate above proves anew how its parts are dropped.
impl Drop for Picture {
    fn drop(self) {
        let Picture {
            taken: _taken,
            begun: _begun,
            status: _status,
            bscs: _bscs,
            warnings: _warnings,
            kept: _kept,
            receipts: _receipts,
            refusals: _refusals,
            entries: _entries,
            memory: _memory,
        } = self;
    }
}
