//! The time of day.

ghost use Rattle.std.specs.Prelude.{◌≡◌, ◌++◌, ◌<◌, OnOk};
ghost use Rattle.status_pages.specs.Times.{time_of_day, two_digits};

use std::alloc::AllocError;

/// The digits of a number.
fn two_digits(number: u64) -> [u8; 2]
    requires { number < 100 }
    ensures { result ≡ two_digits number }
{
    [48 + (number / 10) as u8, 48 + (number % 10) as u8]
}

fn push_two(out: &mut Vec<u8>, number: u64) -> Result<(), AllocError>
    requires { number < 100 }
    ensures { OnOk result (out.new.items ≡ out.old.items ++ two_digits number) }
{
    let digits = two_digits(number);
    out.extend_from_slice(&digits)
}

/// Appends the time of day, in UTC, of a second after 1970-01-01T00:00:00Z.
#[tactic(auto, unfolding(crate::specs::Times::time_of_day))]
pub(crate) fn push_time(out: &mut Vec<u8>, second: u64) -> Result<(), AllocError>
    ensures { OnOk result (out.new.items ≡ out.old.items ++ time_of_day second) }
{
    push_two(out, second / 3600 % 24)?;
    out.extend_from_slice(b":")?;
    push_two(out, second / 60 % 60)?;
    out.extend_from_slice(b":")?;
    push_two(out, second % 60)
}
