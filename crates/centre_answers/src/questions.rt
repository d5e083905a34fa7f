//! What is asked of a centre, from what it keeps.

ghost use Rattle.std.specs.Prelude.{◌≡◌, ◌&&◌, not, ◌++◌, Some, Ok, Err, true, IfOk, OnOk, OnErr, if◌then◌else◌};
ghost use Rattle.std.specs.List.{flat_map};
ghost use Rattle.coverage_board.specs.Board.{area_of};
ghost use Rattle.kept_tables.specs.Consistent.{Consistent};
ghost use Rattle.kept_tables.specs.Tables.{Tables};
ghost use Rattle.mirror.specs.Line.{state_of};
ghost use Rattle.warning_book.specs.Book.{names, warning_of};
ghost use Rattle.centre_answers.specs.Asked.{Tells};
ghost use Rattle.centre_past.specs.Facts.{facts};
ghost use Rattle.centre_past.specs.Idle.{AsBefore, AreKnownOf};
ghost use Rattle.centre_past.specs.IsKept.{IsKept};
ghost use Rattle.centre_past.specs.Legal.{Legal};
ghost use Rattle.centre_past.specs.LinkStates.{has_pending, link_state};
ghost use Rattle.centre_events.specs.Kept.{AreAreasOf};
ghost use Rattle.centre_events.specs.Links.{is_bsc, is_up};
ghost use Rattle.centre_past.specs.Numbers.{board, area_board};
ghost use Rattle.centre_events.specs.Past.{Past};
ghost use Rattle.centre_events.specs.Pending.{pending};
ghost use Rattle.centre_past.specs.Table.{key_if, keys_in, keys_of, keys_over, table};
ghost use Rattle.centre_events.specs.Warnings.{book_of, warnings_of};
ghost use Rattle.centre_events.specs.declared.settings.Settings.{Settings};

use crate::merging::in_order_by_halves;
use areas::Areas;
use cell_register::{BscId, Register};
use centre_events::refusal::Refusal;
use centre_past::kept::Kept;
use centre_past::keys::key_of;
use centre_past::link_state::LinkState;
use centre_past::links::{generation, is_up};
use centre_past::reported::{ReportedKey, ReportedKeys};
use common::{Cell, Name};
use coverage_board::Numbers;
use kept_tables::KeptTables;
use mirror::{Line, Presence};
use order_maker::Orders;
use serials::Serial;
use std::alloc::{AllocError, Global};
use warning_book::{Book, Version, Warning, WarningId};

/// The pending orders of the BSC, in the order in which they are sent. It takes no memory where there are none.
pub fn pending(alloc: Global, tables: &KeptTables, b: BscId) -> Result<Orders, AllocError>
    ensures orders { (settings : Settings) (past : Past) → Legal settings past → Consistent tables.now (facts past) → IfOk result (λ orders. orders ≡ pending past b) }
    ensures memory { (settings : Settings) (past : Past) → Legal settings past → Consistent tables.now (facts past) → OnErr result (has_pending past b ≡ true) }
{
    if !tables.has(b) {
        return Ok(Orders::from_vec(Vec::new(alloc)));
    }
    tables.groups(b)
}

/// What is told of the link of the BSC.
pub fn link_state(kept: &Kept, b: BscId) -> LinkState
    ensures { (settings : Settings) (past : Past) → Legal settings past → IsKept past kept.now → result ≡ link_state past b }
{
    let links = &kept.links;
    LinkState {
        last: generation(links, b),
        is_up: is_up(links, b),
        has_pending: kept.tables.has(b),
    }
}

/// Whether the link of the BSC is up, and no order is pending for it. This takes less than the state of the link.
pub fn is_quiet(kept: &Kept, b: BscId) -> bool
    ensures quiet { (settings : Settings) (past : Past) → Legal settings past → IsKept past kept.now → result ≡ (is_up past b && not (has_pending past b)) }
    ensures there { (settings : Settings) (past : Past) → Legal settings past → IsKept past kept.now → result ≡ true → is_bsc past b ≡ true }
{
    is_up(&kept.links, b) && !kept.tables.has(b)
}

/// The numbers of the warning, if the book has it.
#[tactic(auto, using(crate::proofs::BoardLemmas::board_if))]
pub fn board(tables: &KeptTables, book: &Book, w: WarningId) -> Option<Numbers>
    ensures { (settings : Settings) (past : Past) → Legal settings past → book.now ≡ book_of past → Consistent tables.now (facts past) → result ≡ board past w }
{
    match book.find(w) {
        Some(_) => Some(tables.total(w)),
        None => None,
    }
}

/// Whether the area is one of the warning's.
fn names(w: &Warning, a: &Name) -> bool
    ensures { result ≡ names a.now w.now }
{
    w.areas().iter().any(|other| *other == *a)
}

/// The numbers that are kept of a warning and one of its areas: `AreaNotThere` where it doesn't name the area.
fn named_area(tables: &KeptTables, w: &Warning, a: &Name) -> Result<Numbers, Refusal>
    ensures { result ≡ (if names a.now w.now then Ok (area_of tables.now.board w.now.number a.now) else Err Refusal.AreaNotThere) }
{
    if !names(w, a) {
        return Err(Refusal::AreaNotThere);
    }
    Ok(tables.area(w.number(), a))
}

/// The numbers of the warning and the area: `NoSuchArea`, then `NoSuchWarning`, then `AreaNotThere`.
pub fn area_board(
    areas: &Areas,
    book: &Book,
    tables: &KeptTables,
    w: WarningId,
    a: &Name,
) -> Result<Numbers, Refusal>
    ensures { (settings : Settings) (past : Past) → Legal settings past → AreAreasOf past areas.now → book.now ≡ book_of past → Consistent tables.now (facts past) → result ≡ area_board past w a.now }
{
    if !areas.has_area(a) {
        return Err(Refusal::NoSuchArea);
    }
    match book.find(w) {
        Some(warning) => named_area(tables, warning, a),
        None => Err(Refusal::NoSuchWarning),
    }
}

/// Adds the key, unless it is absent.
fn push_key(out: &mut Vec<ReportedKey>, key: ReportedKey) -> Result<(), AllocError>
    ensures { OnOk result (out.new.items ≡ out.old.items ++ key_if key.cell key.message_id key.serial key.presence) }
{
    if key.presence != Presence::Absent {
        out.push(key)?;
    }
    Ok(())
}

/// Adds what the line says of the version of that serial number.
fn add_key(
    out: &mut Vec<ReportedKey>,
    c: Cell,
    message_id: u16,
    serial: Serial,
    line: &Line,
) -> Result<(), AllocError>
    ensures { OnOk result (out.new.items ≡ out.old.items ++ key_if c message_id serial (state_of line.now serial).presence) }
{
    let presence = line.state(serial).presence;
    push_key(
        out,
        ReportedKey {
            cell: c,
            message_id,
            serial,
            presence,
        },
    )
}

/// Adds what the line says of the versions.
fn add_keys(
    out: &mut Vec<ReportedKey>,
    c: Cell,
    message_id: u16,
    versions: &[Version],
    line: &Line,
) -> Result<(), AllocError>
    ensures { OnOk result (out.new.items ≡ out.old.items ++ flat_map (λ v. key_if c message_id v.serial (state_of line.now v.serial).presence) versions.now) }
{
    for version in versions {
        add_key(out, c, message_id, version.serial, line)?;
    }
    Ok(())
}

/// Adds what is reported of the warning in the cell.
fn add_keys_in(
    out: &mut Vec<ReportedKey>,
    tables: &mut KeptTables,
    b: BscId,
    w: &Warning,
    c: Cell,
) -> Result<(), AllocError>
    ensures keys { (past : Past) (t : Tables) → Tells past t → AsBefore t tables.old → warning_of (book_of past) w.now.number ≡ Some w.now → OnOk result (out.new.items ≡ out.old.items ++ keys_in past b w.now c) }
    ensures kept { (t : Tables) → AsBefore t tables.old → AsBefore t tables.new }
{
    let line = tables.read_line(key_of(b, c, w.number()));
    add_keys(out, c, w.message_id(), w.versions(), &line)
}

/// Adds what is reported of the warning in the cells.
fn add_keys_of(
    out: &mut Vec<ReportedKey>,
    tables: &mut KeptTables,
    b: BscId,
    w: &Warning,
    cells: &[Cell],
) -> Result<(), AllocError>
    ensures keys { (past : Past) (t : Tables) → Tells past t → AsBefore t tables.old → warning_of (book_of past) w.now.number ≡ Some w.now → OnOk result (out.new.items ≡ out.old.items ++ keys_of past b cells.now w.now) }
    ensures kept { (t : Tables) → AsBefore t tables.old → AsBefore t tables.new }
{
    for cell in cells {
        add_keys_in(out, tables, b, w, *cell)?;
    }
    Ok(())
}

/// What is reported of the warnings in the cells.
fn keys_among(
    alloc: Global,
    tables: &mut KeptTables,
    b: BscId,
    warnings: &[Warning],
    cells: &[Cell],
) -> Result<Vec<ReportedKey>, AllocError>
    ensures keys { (past : Past) (t : Tables) → Tells past t → AsBefore t tables.old → warnings.now ≡ warnings_of past → IfOk result (λ v. v.items ≡ keys_over past b cells.now) }
    ensures kept { (t : Tables) → AsBefore t tables.old → AsBefore t tables.new }
{
    let mut out = Vec::new(alloc);
    for warning in warnings {
        add_keys_of(&mut out, tables, b, warning, cells)?;
    }
    Ok(out)
}

/// What the BSC has reported: its keys that are on air, or may be. The line of each warning is read in each cell that is
/// known there; nothing else is changed, also at an `Err`.
pub fn table(
    alloc: Global,
    register: &Register,
    book: &Book,
    tables: &mut KeptTables,
    b: BscId,
) -> Result<ReportedKeys, AllocError>
    ensures keys { (settings : Settings) (past : Past) → Legal settings past → book.now ≡ book_of past → Consistent tables.old (facts past) → AreKnownOf past tables.old.lines register.now → IfOk result (λ keys. keys ≡ table past b) }
    ensures kept { (t : Tables) → AsBefore t tables.old → AsBefore t tables.new }
{
    let cells = tables.known_cells(register, b)?;
    let keys = keys_among(alloc, tables, b, book.as_slice(), cells.as_slice())?;
    let in_order = in_order_by_halves(alloc, keys.as_slice())?;
    Ok(ReportedKeys::from_vec(in_order))
}
