//! Which of a warning's areas cover a cell, as binary digits.

ghost use Rattle.std.specs.Prelude.{◌≡◌, ◌<◌, ◌+◌, ◌*◌, nat_eq};
ghost use Rattle.common.specs.Sums.{one};

/// A binary digit for each of up to sixteen areas of a warning, that of the first area lowest: 1 where the area covers the
/// cell.
#[derive(Clone, Copy, Debug, PartialEq, Eq)]
pub struct AreaBits {
    pub bits: u16,
}

impl AreaBits {
    /// None of the areas.
    pub fn none() -> AreaBits
        ensures { result.bits ≡ 0 }
    {
        AreaBits { bits: 0 }
    }

    /// Whether it is none of the areas.
    pub fn is_none(self) -> bool
        ensures { result ≡ nat_eq self.bits 0 }
    {
        self.bits == 0
    }

    /// With the digit of one area more, which stands before the others.
    #[inline(always)]
    pub fn behind(self, covers: bool) -> AreaBits
        requires { self.bits < 32768 }
        ensures { result.bits ≡ one covers + 2 * self.bits }
    {
        let bits = self.bits * 2;
        AreaBits {
            bits: if covers { bits + 1 } else { bits },
        }
    }
}
