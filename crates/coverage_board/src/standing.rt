//! In which way a line is counted.

ghost use Rattle.std.specs.Prelude.{◌≡◌, ◌&&◌, not};
ghost use Rattle.mirror.specs.Seen.{is_absent, is_the, seen};
ghost use Rattle.coverage_board.specs.Standings.{standing, standing_of, is_way};

use crate::way::Way;
use mirror::{Presence, Sight};
use serials::Serial;

/// How the line stands whose wanted version has this serial number.
fn standing_of(sight: &Sight<'_>, wanted: Serial) -> Way
    ensures { result ≡ standing_of (seen sight.now) wanted }
{
    let state = sight.line.state(wanted);
    if sight.down {
        Way::Failed
    } else if state.presence == Presence::OnAir {
        Way::OnAir
    } else if state.hold.is_some() {
        Way::Failed
    } else {
        Way::Awaited
    }
}

/// How the line of the wanted version stands, if one is wanted.
pub(crate) fn standing(sight: &Sight<'_>) -> Option<Way>
    ensures { result ≡ standing (seen sight.now) sight.now.wanted }
{
    match sight.wanted {
        Some(serial) => Some(standing_of(sight, serial)),
        None => None,
    }
}

/// Whether a line that stands so, if it stands in a way, stands in that one.
pub(crate) fn is_way(way: Way, standing: Option<Way>) -> bool
    ensures { result ≡ is_way way standing }
{
    match standing {
        Some(other) => way == other,
        None => false,
    }
}

/// Whether a version in that presence is on air, or may be, and not wanted.
pub(crate) fn is_unwanted(wanted: Option<Serial>, serial: Serial, presence: Presence) -> bool
    ensures { result ≡ (not (is_the wanted serial) && not (is_absent presence)) }
{
    presence != Presence::Absent && wanted != Some(serial)
}
