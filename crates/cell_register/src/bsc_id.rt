//! The number of a base station controller.

ghost use Rattle.std.specs.Prelude.{◌≡◌, ◌<◌, ◌≤◌, ◌↔◌, IsSome, IfSome, IfNone};

use common::Ordered;
use std::marker::Model;

/// The number by which the operator knows a base station controller: 1 to 65,535.
#[derive(Clone, Copy, Debug, PartialEq, Eq)]
pub struct BscId {
    number: u16,
}

impl Model for BscId {
    ghost use Rattle.std.specs.Prelude.{ℕ, ◌<◌};

    ghost Value = { ℕ };

    ghost view = { λ b. b.number };

    ghost invariant = { λ b. 0 < b.number };

    ghost inverse = { λ n. record { number = n } };
}

impl BscId {
    /// `None` for 0 alone.
    pub fn new(number: u16) -> Option<BscId>
        ensures some { IsSome result ↔ (0 < number) }
        ensures value { IfSome result (λ b. b ≡ number) }
    {
        if number == 0 {
            None
        } else {
            Some(BscId { number })
        }
    }

    /// The number as an operator sees it, 1 to 65,535.
    pub fn number(self) -> u16
        ensures value { result ≡ self }
        ensures some { 0 < result }
    {
        self.number
    }
}

impl Ordered for BscId {
    ghost use Rattle.std.specs.Prelude.{ltb};

    ghost before = { ltb };

    fn is_before(&self, other: &BscId) -> bool {
        self.number() < other.number()
    }
}
