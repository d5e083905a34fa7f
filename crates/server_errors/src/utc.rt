//! The time, as text.

ghost use Rattle.std.specs.Prelude.{◌≡◌, ◌↔◌, ◌<◌, IsSome, IfSome};
ghost use Rattle.server_errors.specs.UtcTexts.{end_of_times, IsUtcText};

use arrayvec::ArrayString;
use jiff_core::Timestamp;
use jiff_fmt::temporal::DateTimePrinter;
use std::time::{Clock, SystemTime};

/// The time at which that second after 1970-01-01T00:00:00Z begins, in UTC, as RFC 3339 writes it: `2026-11-27T19:53:45Z`. `None`
/// from 9999-12-30T22:00:01Z on, which is past what every time zone can show.
pub fn utc_text(second: u64) -> Option<ArrayString<33>>
    ensures some { IsSome result ↔ (second < end_of_times) }
    ensures text { IfSome result (λ text. IsUtcText second text.bytes) }
{
    let nanosecond = i128::from(second) * 1_000_000_000;
    match Timestamp::from_nanosecond(nanosecond) {
        Ok(timestamp) => Some(DateTimePrinter::new().timestamp_text(timestamp)),
        Err(_) => None,
    }
}

/// The time that the clock shows. `None` where it can't be read.
pub(crate) fn time_of<C: Clock>(clock: &C) -> Option<ArrayString<33>> {
    let now = SystemTime::now(clock).ok()?;
    let since = now.duration_since(SystemTime::UNIX_EPOCH).ok()?;
    utc_text(since.as_secs())
}
