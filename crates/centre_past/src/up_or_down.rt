//! Whether a link is up, and what is in flight over it.

ghost use Rattle.std.specs.Prelude.{◌≡◌, IfOk};
ghost use Rattle.std.specs.Option.{option_copied};
ghost use Rattle.centre_past.specs.Links.{flight_over, is_up_now};

use centre_events::in_flight::InFlight;
use std::alloc::{AllocError, Global};

/// A link is down, or it is up, and something may be in flight over it.
#[derive(Drop)]
pub enum UpOrDown {
    Down,
    Up { flight: Option<InFlight> },
}

impl UpOrDown {
    /// Whether it is up.
    pub fn is_up(&self) -> bool
        ensures { result ≡ is_up_now self.now }
    {
        match self {
            UpOrDown::Down => false,
            UpOrDown::Up { flight: _ } => true,
        }
    }

    /// What is in flight over it.
    pub fn flight(&self) -> Option<&InFlight>
        ensures { option_copied result ≡ flight_over self.now }
    {
        match self {
            UpOrDown::Down => None,
            UpOrDown::Up { flight } => flight.as_ref(),
        }
    }

    /// The same in memory of its own.
    pub fn copied(&self, alloc: Global) -> Result<UpOrDown, AllocError>
        ensures { IfOk result (λ copy. copy ≡ self.now) }
    {
        match self {
            UpOrDown::Down => Ok(UpOrDown::Down),
            UpOrDown::Up { flight: None } => Ok(UpOrDown::Up { flight: None }),
            UpOrDown::Up {
                flight: Some(flight),
            } => Ok(UpOrDown::Up {
                flight: Some(flight.copied(alloc)?),
            }),
        }
    }
}
