//! Lines that have a text.

use crate::said_heading::SaidHeading;
use crate::text_heading::TextHeading;
use common::{Names, Octets};
use warning_book::WarningId;

/// A line that has a text. The text is as it was typed, with its escapes.
#[derive(Drop)]
pub enum TextLine {
    /// `say M SCOPE CAT PERIOD AREAS TEXT`
    Say {
        heading: SaidHeading,
        areas: Names,
        text: Octets,
    },
    /// `resay W CAT PERIOD TEXT`
    Resay {
        warning: WarningId,
        heading: TextHeading,
        text: Octets,
    },
}
