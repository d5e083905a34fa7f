//! Command lines that run no script.

use std::alloc::AllocError;

/// Why a command line runs no script.
#[derive(Drop)]
pub enum NoRun {
    /// Help was asked for, or the version, and this is it.
    Help(String),
    /// The command line was refused, with this text.
    Refused(String),
    /// The server is asked for.
    Serve,
    /// The network code isn't six hexadecimal digits.
    BadPlmn,
    /// The number of broadcasts isn't one from 0 to 65,535.
    BadBroadcasts,
    /// The number of entries isn't one from 1 to 4,000,000.
    BadJournal,
    Memory,
}

impl From<AllocError> for NoRun {
    ghost use Rattle.std.specs.Prelude.{◌≡◌};
    ghost use Rattle.console_text.specs.declared.no_run.NoRun.TheVariants.{Memory};

    ghost from_gives = { λ _ e. e ≡ Memory };

    fn from(_: AllocError) -> NoRun {
        NoRun::Memory
    }
}
