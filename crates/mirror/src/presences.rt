//! Whether a version of a warning may be on air.

ghost use Rattle.std.specs.Prelude.{◌≡◌, ◌≤◌, ◌+◌, true, false, length};
ghost use Rattle.std.specs.List.{list_any};
ghost use Rattle.mirror.specs.Lines.{lines_at};
ghost use Rattle.mirror.specs.Present.{is_present_in};
ghost use Rattle.mirror.specs.Table.{counted, counted_all};

use crate::line::Line;
use crate::lines::Lines;
use crate::presence::Presence;
use crate::warning_slot::WarningSlot;
use serials::Serial;
use std::collections::btree_set::Range;

/// Whether the version is on air, or may be.
fn is_present_in(line: &Line, serial: Serial) -> bool
    ensures { result ≡ is_present_in serial line.now }
{
    line.state(serial).presence != Presence::Absent
}

/// Whether the version is on air by a line of one of the slots, or may be. Each line that is read is counted.
pub(crate) fn is_present_among(
    slots: Range<'_, WarningSlot>,
    lines: &Lines,
    serial: Serial,
    meter: &mut u64,
) -> bool
    ensures which { result ≡ list_any (λ e. is_present_in serial e.1) (lines_at slots.entry lines.now) }
    ensures meter { meter.new ≤ meter.old + length slots.entry }
    ensures least { meter.old ≤ meter.new }
    ensures all { result ≡ false → meter.new ≡ counted_all (length slots.entry) meter.old }
    ensures some { result ≡ true → counted meter.old ≤ meter.new }
{
    // A lemma: the meter fits 64 bits.
    let _before = *meter;
    for slot in slots {
        *meter = meter.saturating_add(1);
        if is_present_in(&lines.line_of(slot), serial) {
            return true;
        }
    }
    false
}
