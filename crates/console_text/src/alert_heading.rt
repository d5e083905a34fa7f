//! What stands in front of the security information of an emergency warning that is issued.

use crate::emergency_heading::EmergencyHeading;
use serials::Scope;

/// The numbers of an emergency warning that is issued.
#[derive(Clone, Copy, Debug)]
pub struct AlertHeading {
    /// The message identifier (TS 23.041, 9.4.1.2.2).
    pub message_id: u16,
    pub scope: Scope,
    pub content: EmergencyHeading,
}
