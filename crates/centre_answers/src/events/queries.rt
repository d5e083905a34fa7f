//! Queries of how often warnings were broadcast.

ghost use Rattle.std.specs.Prelude.{◌≡◌, ◌≤◌, ◌+◌, Some, length};
ghost use Rattle.cell_register.specs.Register.{State};
ghost use Rattle.kept_tables.specs.Consistent.{Consistent};
ghost use Rattle.warning_book.specs.Book.{current_of, warning_of};
ghost use Rattle.centre_events.specs.Asking.{version_query, warning_query};
ghost use Rattle.centre_past.specs.Facts.{facts};
ghost use Rattle.centre_past.specs.Idle.{AreKnownOf, OnlyReads};
ghost use Rattle.centre_past.specs.IsKept.{IsKept, OnlyReadsIn};
ghost use Rattle.centre_events.specs.Kept.{Gives};
ghost use Rattle.centre_past.specs.Legal.{Legal};
ghost use Rattle.centre_events.specs.Past.{Past};
ghost use Rattle.centre_past.specs.Reach.{known_at};
ghost use Rattle.centre_events.specs.Verdict.{ask};
ghost use Rattle.centre_events.specs.Warnings.{book_of};
ghost use Rattle.centre_events.specs.declared.settings.Settings.{Settings};

use crate::events::Verdict;
use crate::events::links::check_link;
use cell_register::BscId;
use centre_events::answer::Answer;
use centre_events::order_message::query_of;
use centre_events::refusal::Refusal;
use centre_past::kept::Kept;
use centre_past::links::flight_in;
use centre_past::telling::tell_lines;
use common::Cell;
use kept_tables::KeptTables;
use serials::Serial;
use std::alloc::Global;
use warning_book::{Kind, Warning, WarningId};

/// The greatest number of cells that one query names.
const MOST_CELLS: usize = 1000;

/// The query of a version of a warning: in the first cells at the BSC, after that one if one is given, in which it is on
/// air. Each line of the warning there that is read is counted.
fn version_query(
    alloc: Global,
    tables: &mut KeptTables,
    b: BscId,
    w: &Warning,
    serial: Serial,
    after: Option<Cell>,
) -> Verdict
    ensures verdict { (settings : Settings) (past : Past) → Legal settings past → Consistent tables.old (facts past) → warning_of (book_of past) w.now.number ≡ Some w.now → current_of w.now ≡ Some serial → Gives (version_query past b w.now.message_id (Some serial) after) result }
    ensures reads { OnlyReads tables.old tables.new }
    ensures meter { (settings : Settings) (past : Past) (r : State) → Legal settings past → AreKnownOf past tables.old.lines r → tables.new.lines.meter ≤ tables.old.lines.meter + length (known_at past b) }
{
    tell_lines(tables.lines());
    tables.lines().tell_line_count();
    let cells = tables.cells_on_air(b, w.number(), serial, after, MOST_CELLS)?;
    if cells.as_slice().is_empty() {
        return Err(Refusal::NothingToAsk);
    }
    let message = query_of(alloc, w.message_id(), serial, cells.as_slice())?;
    Ok(Answer::Asked {
        message_id: w.message_id(),
        serial,
        cells,
        message,
    })
}

/// The query of a warning's current version.
fn current_query(
    alloc: Global,
    tables: &mut KeptTables,
    b: BscId,
    w: &Warning,
    after: Option<Cell>,
) -> Verdict
    ensures verdict { (settings : Settings) (past : Past) → Legal settings past → Consistent tables.old (facts past) → warning_of (book_of past) w.now.number ≡ Some w.now → Gives (version_query past b w.now.message_id (current_of w.now) after) result }
    ensures reads { OnlyReads tables.old tables.new }
    ensures meter { (settings : Settings) (past : Past) (r : State) → Legal settings past → AreKnownOf past tables.old.lines r → tables.new.lines.meter ≤ tables.old.lines.meter + length (known_at past b) }
{
    match w.serial() {
        Some(serial) => version_query(alloc, tables, b, w, serial, after),
        None => Err(Refusal::NothingToAsk),
    }
}

/// The query of a warning: an emergency warning is asked in no cell.
fn warning_query(
    alloc: Global,
    tables: &mut KeptTables,
    b: BscId,
    w: &Warning,
    after: Option<Cell>,
) -> Verdict
    ensures verdict { (settings : Settings) (past : Past) → Legal settings past → Consistent tables.old (facts past) → warning_of (book_of past) w.now.number ≡ Some w.now → Gives (warning_query past b (Some w.now) after) result }
    ensures reads { OnlyReads tables.old tables.new }
    ensures meter { (settings : Settings) (past : Past) (r : State) → Legal settings past → AreKnownOf past tables.old.lines r → tables.new.lines.meter ≤ tables.old.lines.meter + length (known_at past b) }
{
    match w.kind() {
        Kind::Cbs => current_query(alloc, tables, b, w, after),
        Kind::Emergency => Err(Refusal::NothingToAsk),
    }
}

/// Ask: a query of the warning's current version, over the link of that generation. Only the lines of the warning at the
/// BSC are read, and no memory is taken before a cell is found.
pub(crate) fn ask(
    alloc: Global,
    kept: &mut Kept,
    b: BscId,
    generation: u64,
    number: WarningId,
    after: Option<Cell>,
) -> Verdict
    ensures verdict { (settings : Settings) (past : Past) → Legal settings past → IsKept past kept.old → Gives (ask past b generation number after) result }
    ensures reads { OnlyReadsIn kept.old kept.new }
    ensures meter { (settings : Settings) (past : Past) → Legal settings past → AreKnownOf past kept.old.tables.lines kept.old.plan.register → kept.new.tables.lines.meter ≤ kept.old.tables.lines.meter + length (known_at past b) }
{
    if !kept.plan.register().has_bsc(b) {
        return Err(Refusal::NoSuchBsc);
    }
    let Some(warning) = kept.plan.book().find(number) else {
        return Err(Refusal::NoSuchWarning);
    };
    check_link(&kept.links, kept.plan.register(), b, generation)?;
    if flight_in(&kept.links, b).is_some() {
        return Err(Refusal::InFlight);
    }
    warning_query(alloc, &mut kept.tables, b, warning, after)
}
