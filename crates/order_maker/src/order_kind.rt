//! What an order does.

use serials::Serial;

/// What an order does with the message of its serial number (TS 48.049, 8.1.3.1 and 8.1.3.4).
#[derive(Clone, Copy, Debug, PartialEq, Eq)]
pub enum OrderKind {
    /// WRITE-REPLACE without an Old Serial Number.
    Write,
    /// WRITE-REPLACE that takes another message off the air.
    Replace {
        /// The Old Serial Number: the message that is taken off.
        old: Serial,
    },
    Kill,
}
