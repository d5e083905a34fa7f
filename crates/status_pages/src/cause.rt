//! What a number in a line of the causes counts.

ghost use Rattle.std.specs.Prelude.{◌≡◌};
ghost use Rattle.status_pages.specs.Causes.{cause_class, cause_word};

/// What a number in a line of the causes counts.
#[derive(Clone, Copy, Debug, PartialEq, Eq)]
pub(crate) enum Cause {
    SilentCells,
    FailedCells,
    AwaitedCells,
    LeftPlaces,
    DownCells,
    /// Seconds without a reply to an order.
    NoReply,
    /// Seconds without an answer to a RESET.
    NoAnswer,
}

impl Cause {
    pub(crate) fn word(self) -> &'static str
        ensures { result.now ≡ cause_word self }
    {
        match self {
            Cause::SilentCells => "cells silent",
            Cause::FailedCells => "cells failed",
            Cause::AwaitedCells => "cells awaited",
            Cause::LeftPlaces => "places left",
            Cause::DownCells => "cells down",
            Cause::NoReply => "seconds without a reply",
            Cause::NoAnswer => "seconds without an answer to RESET",
        }
    }

    pub(crate) fn class(self) -> &'static str
        ensures { result.now ≡ cause_class self }
    {
        match self {
            Cause::SilentCells | Cause::FailedCells | Cause::DownCells => "f",
            Cause::AwaitedCells => "a",
            Cause::LeftPlaces | Cause::NoReply | Cause::NoAnswer => "l",
        }
    }
}
