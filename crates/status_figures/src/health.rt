//! Whether a centre is whole.

ghost use Rattle.std.specs.Prelude.{◌≡◌};

/// What keeps a centre from taking events.
#[derive(Clone, Copy, Debug, PartialEq, Eq)]
pub enum Health {
    /// Nothing does.
    Whole,
    /// It is stale, and has to be rebuilt.
    Stale,
    /// Its journal is full, and has to be folded.
    JournalFull,
    StaleAndFull,
}

impl Health {
    ghost use Rattle.status_figures.specs.Health.{has_numbers, is_whole};

    /// Whether nothing is wrong.
    pub fn is_whole(self) -> bool
        ensures { result ≡ is_whole self }
    {
        match self {
            Health::Whole => true,
            Health::Stale | Health::JournalFull | Health::StaleAndFull => false,
        }
    }

    /// Whether the centre has numbers: it has none while it is stale.
    pub fn has_numbers(self) -> bool
        ensures { result ≡ has_numbers self }
    {
        match self {
            Health::Whole | Health::JournalFull => true,
            Health::Stale | Health::StaleAndFull => false,
        }
    }
}
