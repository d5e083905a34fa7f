//! What stands in front of the pages of a warning that is issued.

use crate::content_heading::ContentHeading;
use serials::Scope;

/// The numbers of a warning that is issued.
#[derive(Clone, Copy, Debug)]
pub struct Heading {
    /// The message identifier (TS 23.041, 9.4.1.2.2).
    pub message_id: u16,
    pub scope: Scope,
    pub content: ContentHeading,
}
