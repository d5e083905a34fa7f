//! An emergency message that a BSC may broadcast.

/// An emergency message that a BSC may broadcast.
#[derive(Clone, Copy, Debug, PartialEq, Eq)]
pub struct EmergencyKey {
    /// The message identifier (TS 23.041, 9.4.1.2.2).
    pub message_id: u16,
    /// The serial number (TS 23.041, 9.4.1.2.1).
    pub serial: u16,
}
