//! What stands in front of the text of a warning that is issued.

use crate::said_identifier::SaidIdentifier;
use crate::text_heading::TextHeading;
use serials::Scope;

/// The numbers of a warning whose pages are made from a text.
#[derive(Clone, Copy)]
pub struct SaidHeading {
    pub identifier: SaidIdentifier,
    pub scope: Scope,
    pub content: TextHeading,
}
