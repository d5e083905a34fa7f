//! A serial number: scope, message code and update number in 16 bits.

ghost use Rattle.std.specs.Prelude.{◌≡◌, ◌+◌, ◌%◌, ℕ, ◌<◌, ◌↔◌, IsSome, IfSome};
ghost use Rattle.serials.specs.Serials.{scope_number, serial_of, scope_part, code_of, update_of, next_of};

use crate::scope::Scope;
use std::marker::Model;

/// The serial number of a message: `scope * 16384 + code * 16 + update` (TS 23.041, 9.4.1.2.1).
#[derive(Clone, Copy, Debug, Default, PartialEq, Eq)]
pub struct Serial {
    value: u16,
}

impl Model for Serial {
    ghost use Rattle.std.specs.Prelude.{ℕ};

    ghost Value = { ℕ };

    ghost view = { λ s. s.value };

    ghost inverse = { λ n. record { value = n } };
}

impl Serial {
    /// The serial number of these parts; `None` where the code is above 1,023 or the update number above 15.
    pub fn new(scope: Scope, code: u16, update: u16) -> Option<Serial>
        ensures fits { IsSome result ↔ ((code < 1024) × (update < 16)) }
        ensures value { IfSome result (λ s. s ≡ serial_of (scope_number scope) code update) }
    {
        if code < 1024 && update < 16 {
            Some(Serial {
                value: scope.number() * 16384 + code * 16 + update,
            })
        } else {
            None
        }
    }

    /// The geographical scope, the two highest bits.
    pub fn scope(self) -> Scope
        ensures { scope_number result ≡ scope_part self }
    {
        match self.value / 16384 {
            0 => Scope::CellImmediate,
            1 => Scope::Plmn,
            2 => Scope::LocationArea,
            _ => Scope::Cell,
        }
    }

    /// The message code, 0 to 1,023.
    pub fn code(self) -> u16
        ensures { result ≡ code_of self }
    {
        self.value / 16 % 1024
    }

    /// The update number, 0 to 15.
    pub fn update(self) -> u16
        ensures { result ≡ update_of self }
    {
        self.value % 16
    }

    /// The number as it stands in a message.
    pub fn to_u16(self) -> u16
        ensures { result ≡ self }
    {
        self.value
    }

    /// The serial number that stands in a message: each number of 16 bits is one.
    pub fn from_u16(value: u16) -> Serial
        ensures { result ≡ value }
    {
        Serial { value }
    }

    /// The serial number of the next update: its scope and code stay, and update number 0 follows 15.
    pub fn next(self) -> Serial
        ensures value { result ≡ next_of self }
        ensures scope { scope_part result ≡ scope_part self }
        ensures code { code_of result ≡ code_of self }
        ensures update { update_of result ≡ (update_of self + 1) % 16 }
    {
        Serial {
            value: self.value / 16 * 16 + (self.value % 16 + 1) % 16,
        }
    }
}
