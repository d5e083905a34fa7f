//! Since when an emergency message is over by its period.

ghost use Rattle.std.specs.Prelude.{◌≡◌};
ghost use Rattle.broadcast_watch.specs.Periods.{over_after, over_since, seconds_of};

/// For how many seconds a message of that Warning Period is broadcast (3GPP TS 48.049, 8.2.25): 1 to 10 are seconds, 11 to 20 are 12 to
/// 30 in steps of two, 21 to 38 are 35 to 120 in steps of five. `None` where that is without end (0), or no such code.
fn seconds_of(code: u8) -> Option<u64>
    ensures { result ≡ seconds_of code }
{
    let code = u64::from(code);
    if code == 0 || 38 < code {
        None
    } else if code <= 10 {
        Some(code)
    } else if code <= 20 {
        Some(10 + 2 * (code - 10))
    } else {
        Some(30 + 5 * (code - 20))
    }
}

/// When so many seconds after that are over, where they are at `now`.
fn over_after(from: u64, seconds: u64, now: u64) -> Option<u64>
    ensures { result ≡ over_after from seconds now }
{
    if seconds <= now && from <= now - seconds {
        Some(from + seconds)
    } else {
        None
    }
}

/// Since when a message is over that came on air last at `from` and has that Warning Period. All times are in seconds.
pub fn over_since(code: u8, from: u64, now: u64) -> Option<u64>
    ensures { result ≡ over_since code from now }
{
    match seconds_of(code) {
        None => None,
        Some(seconds) => over_after(from, seconds, now),
    }
}
