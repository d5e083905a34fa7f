//! What an edit gives.

use serials::Serial;
use warning_book::WarningId;

/// What an edit gives that was made.
#[derive(Clone, Copy, Debug, PartialEq, Eq)]
pub enum Made {
    /// Nothing but what it changes.
    Done,
    /// A warning of this number, whose first version has this serial number.
    Issued(WarningId, Serial),
    /// A version with this serial number.
    Updated(Serial),
}
