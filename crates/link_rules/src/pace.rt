//! How fast a bucket is refilled.

ghost use Rattle.std.specs.Prelude.{◌≡◌, ◌≤◌};
ghost use Rattle.link_rules.specs.Paces.{count_of, time_of};

/// How fast a bucket is refilled.
#[derive(Clone, Copy, Debug)]
pub enum Pace {
    TwentyASecond,
    OneASecond,
    TwentyThousandASecond,
}

impl Pace {
    /// After how many milliseconds there are more.
    pub(crate) fn time(self) -> u64
        ensures time { result ≡ time_of self }
        ensures some { 1 ≤ result }
    {
        match self {
            Pace::TwentyASecond => 50,
            Pace::OneASecond => 1_000,
            Pace::TwentyThousandASecond => 1,
        }
    }

    /// How many more there are then.
    pub(crate) fn count(self) -> u64
        ensures count { result ≡ count_of self }
        ensures few { result ≤ 20 }
    {
        match self {
            Pace::TwentyASecond | Pace::OneASecond => 1,
            Pace::TwentyThousandASecond => 20,
        }
    }
}
