//! The geographical scope of a message.

ghost use Rattle.std.specs.Prelude.{◌≡◌, ℕ, IfSome, IsSome, ◌↔◌, ◌<◌};

/// Where a message is valid, and whether it is shown at once (TS 23.041, 9.4.1.2.1).
#[derive(Clone, Copy, Debug, PartialEq, Eq)]
pub enum Scope {
    /// 0: one cell, shown at once.
    CellImmediate,
    /// 1: the whole network.
    Plmn,
    /// 2: a location area.
    LocationArea,
    /// 3: one cell.
    Cell,
}

impl Scope {
    ghost use Rattle.serials.specs.Serials.{scope_number};

    /// The two bits that say the scope.
    pub fn number(self) -> u16
        ensures { result ≡ scope_number self }
    {
        match self {
            Scope::CellImmediate => 0,
            Scope::Plmn => 1,
            Scope::LocationArea => 2,
            Scope::Cell => 3,
        }
    }

    /// The scope of a number from 0 to 3; `None` for any other.
    pub fn from_number(number: u16) -> Option<Scope>
        ensures known { IsSome result ↔ (number < 4) }
        ensures number { IfSome result (λ s. scope_number s ≡ number) }
    {
        match number {
            0 => Some(Scope::CellImmediate),
            1 => Some(Scope::Plmn),
            2 => Some(Scope::LocationArea),
            3 => Some(Scope::Cell),
            _ => None,
        }
    }
}
