//! What an accepted event makes of what is kept, once an edit has been made: lines, and links with what is in flight.

ghost use Rattle.std.specs.Prelude.{◌≡◌, ◌≤◌, ◌+◌, OnOk};
ghost use Rattle.centre_lines.specs.Following.{Finishes, most_accesses};
ghost use Rattle.centre_past.specs.IsKept.{IsKept};
ghost use Rattle.centre_events.specs.Past.{After};

use crate::before_entry::BeforeEntry;
use centre_events::answer::Answer;
use centre_events::event::Event;
use centre_events::stepping::Happening;
use centre_lines::following::bear;
use centre_past::kept::Kept;
use centre_past::links::{self, flight_of};
use std::alloc::{AllocError, Global};

/// Follows an accepted event from how it stood before it. At an `Err` memory ran out, and what is kept is of no use any more.
pub(crate) fn finish<'x>(
    alloc: Global,
    kept: &mut Kept,
    event: &'x Event,
    answer: &'x Answer,
    before: BeforeEntry,
) -> Result<(), AllocError>
    requires { Finishes kept.old event.now answer.now before.place before.up before.reached.spots.items before.reached.lines }
    ensures kept { OnOk result ((x : Finishes kept.old event.now answer.now before.place before.up before.reached.spots.items before.reached.lines) → IsKept (After (record { desk = x.desk; event = event.now; answer = answer.now }) x.past) kept.new) }
    ensures meter { kept.new.tables.lines.meter ≤ kept.old.tables.lines.meter + most_accesses event.now answer.now kept.old.plan.book before.reached.spots.items before.reached.lines }
    ensures least { kept.old.tables.lines.meter ≤ kept.new.tables.lines.meter }
{
    let BeforeEntry { place, up, reached } = before;
    let h = Happening {
        event,
        answer,
        up,
        flight: flight_of(&kept.links, event),
    };
    bear(alloc, &h, &kept.plan, &mut kept.tables, reached)?;
    links::follow(alloc, &mut kept.links, event, answer, place)?;
    Ok(())
}
