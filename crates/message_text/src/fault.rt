//! Why a text has no pages.

use std::alloc::AllocError;
use thiserror::Error;

/// Why a text has no pages, in the order in which the causes are looked at.
#[derive(Clone, Copy, Debug, PartialEq, Eq, Error)]
pub enum TextFault {
    #[error("the octets are no text in UTF-8")]
    NotUtf8,
    #[error("the text is empty")]
    Empty,
    /// A letter below U+0020 or from U+007F to U+009F other than a line feed.
    #[error("the text has a control letter")]
    ControlLetter,
    /// A letter above U+FFFF, which no coding of a cell broadcast message has.
    #[error("the text has a letter above U+FFFF")]
    OutsideUcs2,
    #[error("the text needs more than fifteen pages")]
    TooLong,
    #[error("out of memory")]
    Memory,
}

impl From<AllocError> for TextFault {
    ghost use Rattle.std.specs.Prelude.{◌≡◌};
    ghost use Rattle.message_text.specs.declared.fault.TextFault.TheVariants.{Memory};

    ghost from_gives = { λ _ e. e ≡ Memory };

    fn from(_error: AllocError) -> TextFault {
        TextFault::Memory
    }
}
