//! For how long a console may be silent within a line.

ghost use Rattle.std.specs.Prelude.{◌≡◌, None, Some, if◌then◌else◌, is_some};
ghost use Rattle.server_consoles.specs.HalfLines.{is_over};

/// For how long a console may be silent within a line, in milliseconds.
pub const MOST_SILENCE: u64 = 60_000;

/// Since when nothing came of a line that has begun. Times are in milliseconds of a clock that goes on.
#[derive(Clone, Copy, Debug, PartialEq, Eq)]
pub struct HalfLine {
    /// For how long that may be.
    most: u64,
    /// When the last octets of the line came; `None` where none has begun.
    since: Option<u64>,
}

impl HalfLine {
    /// No line has begun.
    pub fn new(most: u64) -> HalfLine
        ensures { result ≡ record { most = most; since = None } }
    {
        HalfLine { most, since: None }
    }

    /// Octets came, the last of which may be the end of a line.
    pub fn heard(&mut self, now: u64, ends_line: bool)
        ensures { self.new ≡ record self.old { since = if ends_line then None else Some now } }
    {
        self.since = if ends_line { None } else { Some(now) };
    }

    /// Whether a line has begun, and no end of it came.
    pub fn has_begun(&self) -> bool
        ensures { result ≡ is_some self.now.since }
    {
        self.since.is_some()
    }

    /// Whether a line has begun of which nothing came for too long.
    pub fn is_over(&self, now: u64) -> bool
        ensures { result ≡ is_over self.now.most now self.now.since }
    {
        match self.since {
            None => false,
            Some(since) => now.saturating_sub(since) >= self.most,
        }
    }
}
