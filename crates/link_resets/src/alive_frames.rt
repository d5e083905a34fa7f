//! The frames by which the two ends of a link say that they are alive (3GPP TS 48.049, 8.1.3).

ghost use Rattle.std.specs.Prelude.{◌≡◌};
ghost use Rattle.framing.specs.AliveFrames.{alive_complete};
ghost use Rattle.link_resets.specs.Alive.{alive_frame, period_code};

/// The frame of a KEEP ALIVE COMPLETE.
pub fn alive_complete() -> [u8; 4]
    ensures { result ≡ alive_complete }
{
    [0x17, 0x00, 0x00, 0x00]
}

/// The Keep Alive Repetition Period of so many seconds, in the code of a Warning Period (3GPP TS 48.049, 8.2.25), or of the next
/// longer time that has a code; at most two minutes.
fn period_code(seconds: u32) -> u8
    ensures { result ≡ period_code seconds }
{
    if seconds <= 10 {
        seconds as u8
    } else if seconds <= 30 {
        (10 + (seconds - 9) / 2) as u8
    } else if seconds <= 120 {
        (20 + (seconds - 26) / 5) as u8
    } else {
        38
    }
}

/// The frame of a KEEP ALIVE, which says that there is one after so many seconds without a word.
pub fn alive_frame(seconds: u32) -> [u8; 6]
    ensures { result ≡ alive_frame seconds }
{
    [0x16, 0x00, 0x00, 0x02, 0x18, period_code(seconds)]
}
