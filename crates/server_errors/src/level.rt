//! How urgent a line is.

ghost use Rattle.std.specs.Prelude.{◌≡◌};
ghost use Rattle.server_errors.specs.ErrorLines.{level_number};

/// How urgent a line of standard error is, as a system log numbers it (RFC 5424, 6.2.1).
#[derive(Clone, Copy, Debug, PartialEq, Eq)]
pub enum Level {
    /// People may not be warned, or nothing goes on: somebody has to act.
    Error,
    /// Somebody has to look.
    Warning,
    /// What is to be known later.
    Notice,
    /// As it goes.
    Info,
}

impl Level {
    /// Its number in a system log.
    pub fn number(self) -> u8
        ensures { result ≡ level_number self }
    {
        match self {
            Level::Error => 3,
            Level::Warning => 4,
            Level::Notice => 5,
            Level::Info => 6,
        }
    }
}
