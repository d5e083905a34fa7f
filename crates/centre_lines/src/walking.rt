//! The lines on which an event bears that is no edit, changed one after another, each as it is read.

ghost use Rattle.std.specs.Prelude.{◌≡◌, ◌≤◌, ◌+◌, ◌*◌, ◌∷◌, [], ℕ, List, true, false, nat_eq, ltb, length, map, IfOk, OnOk};
ghost use Rattle.std.specs.List.{list_any};
ghost use Rattle.kept_tables.specs.Consistent.{Consistent};
ghost use Rattle.kept_tables.specs.Tables.{Tables};
ghost use Rattle.kept_tables.specs.View.{key_at};
ghost use Rattle.common.specs.Order.{is_ascending};
ghost use Rattle.mirror.specs.Blank.{is_blank, line_eq};
ghost use Rattle.mirror.specs.Table.{down_at, line_at};
ghost use Rattle.warning_book.specs.Book.{numbers};
ghost use Rattle.warning_book.specs.declared.kind.Kind.{Kind};
ghost use Rattle.centre_events.specs.Down.{down_mark};
ghost use Rattle.centre_lines.specs.Following.{LinesAreOf, bearing, happens, keeps_down, keys_of, leaves_blank, may_change, step_to};
ghost use Rattle.centre_lines.specs.Walking.{Walks, walked};
ghost use Rattle.centre_past.specs.Idle.{AsBefore};

use crate::facts::{facts_from, kind_in};
use crate::following::line_now;
use crate::found_plan::FoundPlan;
use crate::line_in_cell::LineInCell;
use crate::reading::near;
use centre_events::answer::Answer;
use centre_events::effects::down_mark;
use centre_events::event::Event;
use centre_events::stepping::Happening;
use centre_past::keys::key_at;
use kept_tables::{KeptTables, LineFacts, Spot, Step};
use mirror::{Line, LineKey};
use std::alloc::AllocError;
use warning_book::{Kind, WarningId};

/// Whether what happens leaves the cell down for warnings of the kind, or up, as it was.
fn keeps_down(h: &Happening<'_, '_>, kind: Kind, spot: &Spot, was: bool) -> bool
    ensures { result ≡ keeps_down (down_mark kind spot.now.bsc spot.now.cell h.now.event.now h.now.answer.now) was }
{
    match down_mark(kind, spot.bsc, spot.cell, h.event, h.answer) {
        Some(down) => down == was,
        None => true,
    }
}

/// Whether what happens leaves the cell down, or up, as it was, for warnings of the kind.
fn keeps_down_at(h: &Happening<'_, '_>, kind: Kind, spot: &Spot, tables: &KeptTables) -> bool
    ensures { result ≡ keeps_down (down_mark kind spot.now.bsc spot.now.cell h.now.event.now h.now.answer.now) (down_at tables.now.lines kind spot.now.bsc spot.now.cell) }
{
    keeps_down(h, kind, spot, tables.is_down(kind, spot.bsc, spot.cell))
}

/// Whether what happens leaves the cell down, or up, as it was, for warnings of each kind.
fn keeps_downs(h: &Happening<'_, '_>, spot: &Spot, tables: &KeptTables) -> bool
    ensures { result ≡ true → (kind : Kind) → keeps_down (down_mark kind spot.now.bsc spot.now.cell h.now.event.now h.now.answer.now) (down_at tables.now.lines kind spot.now.bsc spot.now.cell) ≡ true }
{
    keeps_down_at(h, Kind::Cbs, spot, tables) && keeps_down_at(h, Kind::Emergency, spot, tables)
}

/// Whether what happens is an indication or a Retry, which leaves a blank line blank.
fn leaves_blank(h: &Happening<'_, '_>) -> bool
    ensures { result ≡ leaves_blank h.now.event.now h.now.answer.now }
{
    match (h.event, h.answer) {
        (Event::Retry(_), _) => true,
        (Event::Report(_, _, _), Answer::Listed(_)) => true,
        _ => false,
    }
}

/// Whether a line becomes what it was. Where no version of it was given another state, it does.
fn is_left(line: &Line, then: &Line, stepped: bool) -> bool
    requires { stepped ≡ false → then.now ≡ line.now }
    ensures { result ≡ line_eq then.now line.now }
{
    if stepped {
        return *then == *line;
    }
    true
}

/// The step from how a line of a warning of the kind stood to the line after what happens.
fn step_to<'b>(
    h: &Happening<'_, '_>,
    kind: Kind,
    key: LineKey,
    before: LineFacts<'b>,
    line: Line,
) -> Step<'b>
    ensures { result ≡ step_to (happens h.now) kind key before.entry line }
{
    let down = down_mark(kind, key.bsc, key.cell, h.event, h.answer).unwrap_or(before.down);
    Step {
        key,
        before,
        line,
        down,
    }
}

/// Reads a line, and changes it by what happens, if that does not leave it as it is.
#[inline(always)]
fn walk_line(
    h: &Happening<'_, '_>,
    plan: &mut FoundPlan<'_>,
    tables: &mut KeptTables,
    spot: &Spot,
    n: WarningId,
) -> Result<(), AllocError>
    requires walks { Walks plan.old (happens h.now) tables.old (key_at spot.now n ∷ []) }
    ensures walked { OnOk result ((x : Walks plan.old (happens h.now) tables.old (key_at spot.now n ∷ [])) → Consistent tables.new (walked x (key_at spot.now n ∷ []))) }
    ensures downs { tables.new.lines.downs ≡ tables.old.lines.downs }
    ensures meter { tables.new.lines.meter ≤ tables.old.lines.meter + 2 }
    ensures least { tables.old.lines.meter ≤ tables.new.lines.meter }
    ensures same { plan.new ≡ plan.old }
{
    let line = tables.read_line(key_at(spot, n));
    let book = plan.book();
    let warning = book.find(n);
    let kind = kind_in(warning);
    let down = tables.is_down(kind, spot.bsc, spot.cell);
    let mut then = line;
    let stepped = line_now(h, book.as_slice(), spot, warning, &mut then);
    let is_left = is_left(&line, &then, stepped);
    if is_left && keeps_down(h, kind, spot, down) {
        return Ok(());
    }
    let there = LineInCell {
        spot: *spot,
        line,
        down,
    };
    let before = facts_from(plan, &there, n, warning)?;
    tables.take_step(&step_to(h, kind, key_at(spot, n), before, then))
}

/// Reads the lines of the warnings at the spot, and changes those that what happens does not leave as they are.
fn walk_spot(
    h: &Happening<'_, '_>,
    plan: &mut FoundPlan<'_>,
    tables: &mut KeptTables,
    spot: &Spot,
    warnings: &[WarningId],
) -> Result<(), AllocError>
    requires walks { Walks plan.old (happens h.now) tables.old (map (key_at spot.now) warnings.now) }
    ensures walked { OnOk result ((x : Walks plan.old (happens h.now) tables.old (map (key_at spot.now) warnings.now)) → Consistent tables.new (walked x (map (key_at spot.now) warnings.now))) }
    ensures downs { tables.new.lines.downs ≡ tables.old.lines.downs }
    ensures meter { tables.new.lines.meter ≤ tables.old.lines.meter + 2 * length warnings.now }
    ensures least { tables.old.lines.meter ≤ tables.new.lines.meter }
    ensures same { plan.new ≡ plan.old }
{
    for warning in warnings {
        walk_line(h, plan, tables, spot, *warning)?;
    }
    Ok(())
}

/// Reads the lines of those of the warnings that are near the cell at the BSC, and changes those that what happens does not
/// leave as they are. What leaves a blank line blank leaves the lines of the others as they are: they are idle.
fn walk_near(
    h: &Happening<'_, '_>,
    plan: &mut FoundPlan<'_>,
    tables: &mut KeptTables,
    spot: &Spot,
    warnings: &[WarningId],
) -> Result<(), AllocError>
    requires blank { leaves_blank h.now.event.now h.now.answer.now ≡ true }
    requires walks { Walks plan.old (happens h.now) tables.old (map (key_at spot.now) warnings.now) }
    ensures walked { OnOk result ((x : Walks plan.old (happens h.now) tables.old (map (key_at spot.now) warnings.now)) → Consistent tables.new (walked x (map (key_at spot.now) warnings.now))) }
    ensures downs { tables.new.lines.downs ≡ tables.old.lines.downs }
    ensures meter { LinesAreOf warnings.now tables.old → tables.new.lines.meter ≤ tables.old.lines.meter + 3 * length warnings.now }
    ensures least { tables.old.lines.meter ≤ tables.new.lines.meter }
    ensures same { plan.new ≡ plan.old }
{
    let near = near(plan, tables, spot, warnings)?;
    walk_spot(h, plan, tables, spot, near.as_slice())
}

/// The warnings whose lines at the spot may be changed by an indication, which leaves blank lines blank, or by a Retry, which
/// leaves lines that aren't held. They are in ascending order, and their lines are counted.
#[tactic(auto, using(centre_past::proofs::ReadLemmas::as_read))]
fn indicated(
    h: &Happening<'_, '_>,
    tables: &mut KeptTables,
    spot: &Spot,
) -> Result<Vec<WarningId>, AllocError>
    ensures which { IfOk result (λ ws. (n : ℕ) → list_any (nat_eq n) ws.items ≡ may_change h.now.event.now (line_at tables.old.lines spot.now.bsc spot.now.cell n)) }
    ensures order { IfOk result (λ ws. is_ascending ltb ws.items ≡ true) }
    ensures few { IfOk result (λ ws. (ns : List ℕ) → ((n : ℕ) → is_blank (line_at tables.old.lines spot.now.bsc spot.now.cell n) ≡ false → list_any (nat_eq n) ns ≡ true) → length ws.items ≤ length ns) }
    ensures kept { (t : Tables) → AsBefore t tables.old → AsBefore t tables.new }
    ensures meter { (ns : List ℕ) → ((n : ℕ) → is_blank (line_at tables.old.lines spot.now.bsc spot.now.cell n) ≡ false → list_any (nat_eq n) ns ≡ true) → tables.new.lines.meter ≤ tables.old.lines.meter + length ns }
{
    match h.event {
        Event::Retry(_) => tables.held_at(spot.bsc, spot.cell),
        _ => tables.warnings_at(spot.bsc, spot.cell),
    }
}

/// Reads the lines at the spot that an indication or a Retry may change, and changes those that it does not leave as they
/// are. Where it brings the cell down, or up, the lines of all warnings that are near the cell are read.
fn walk_indicated_spot(
    h: &Happening<'_, '_>,
    plan: &mut FoundPlan<'_>,
    tables: &mut KeptTables,
    spot: &Spot,
    all: &[WarningId],
) -> Result<(), AllocError>
    requires blank { leaves_blank h.now.event.now h.now.answer.now ≡ true }
    requires all { all.now ≡ numbers plan.old.book.warnings }
    requires walks { Walks plan.old (happens h.now) tables.old (map (key_at spot.now) all.now) }
    ensures walked { OnOk result ((x : Walks plan.old (happens h.now) tables.old (map (key_at spot.now) all.now)) → Consistent tables.new (walked x (map (key_at spot.now) all.now))) }
    ensures downs { tables.new.lines.downs ≡ tables.old.lines.downs }
    ensures meter { tables.new.lines.meter ≤ tables.old.lines.meter + 3 * length all.now }
    ensures least { tables.old.lines.meter ≤ tables.new.lines.meter }
    ensures same { plan.new ≡ plan.old }
{
    plan.book().tell_soundness();
    if !keeps_downs(h, spot, tables) {
        return walk_near(h, plan, tables, spot, all);
    }
    let indicated = indicated(h, tables, spot)?;
    walk_spot(h, plan, tables, spot, indicated.as_slice())
}

/// Reads the lines at each of the spots that an indication or a Retry may change, and changes those that it does not leave as
/// they are.
fn walk_indicated(
    h: &Happening<'_, '_>,
    plan: &mut FoundPlan<'_>,
    tables: &mut KeptTables,
    spots: &[Spot],
) -> Result<(), AllocError>
    requires blank { leaves_blank h.now.event.now h.now.answer.now ≡ true }
    requires walks { Walks plan.old (happens h.now) tables.old (keys_of spots.now (numbers plan.old.book.warnings)) }
    ensures walked { OnOk result ((x : Walks plan.old (happens h.now) tables.old (keys_of spots.now (numbers plan.old.book.warnings))) → Consistent tables.new (walked x (keys_of spots.now (numbers plan.old.book.warnings)))) }
    ensures downs { tables.new.lines.downs ≡ tables.old.lines.downs }
    ensures meter { tables.new.lines.meter ≤ tables.old.lines.meter + 3 * (length spots.now * length (numbers plan.old.book.warnings)) }
    ensures least { tables.old.lines.meter ≤ tables.new.lines.meter }
{
    let all = plan.book().warnings()?;
    for spot in spots {
        walk_indicated_spot(h, plan, tables, spot, all.as_slice())?;
    }
    Ok(())
}

/// Reads the lines of each of the warnings at each of the spots, and changes those that what happens does not leave as they
/// are.
fn walk_named(
    h: &Happening<'_, '_>,
    plan: &mut FoundPlan<'_>,
    tables: &mut KeptTables,
    spots: &[Spot],
    warnings: &[WarningId],
) -> Result<(), AllocError>
    requires walks { Walks plan.old (happens h.now) tables.old (keys_of spots.now warnings.now) }
    ensures walked { OnOk result ((x : Walks plan.old (happens h.now) tables.old (keys_of spots.now warnings.now)) → Consistent tables.new (walked x (keys_of spots.now warnings.now))) }
    ensures downs { tables.new.lines.downs ≡ tables.old.lines.downs }
    ensures meter { tables.new.lines.meter ≤ tables.old.lines.meter + 2 * (length spots.now * length warnings.now) }
    ensures least { tables.old.lines.meter ≤ tables.new.lines.meter }
{
    for spot in spots {
        walk_spot(h, plan, tables, spot, warnings)?;
    }
    Ok(())
}

/// Reads the lines at the spots on which what happens bears, and changes those that it does not leave as they are. The
/// warnings are those that were found; an indication and a Retry bear on all.
pub(crate) fn walk(
    h: &Happening<'_, '_>,
    plan: &mut FoundPlan<'_>,
    tables: &mut KeptTables,
    spots: &[Spot],
    warnings: &[WarningId],
) -> Result<(), AllocError>
    requires walks { Walks plan.old (happens h.now) tables.old (keys_of spots.now (bearing h.now.event.now h.now.answer.now plan.old.book warnings.now)) }
    ensures walked { OnOk result ((x : Walks plan.old (happens h.now) tables.old (keys_of spots.now (bearing h.now.event.now h.now.answer.now plan.old.book warnings.now))) → Consistent tables.new (walked x (keys_of spots.now (bearing h.now.event.now h.now.answer.now plan.old.book warnings.now)))) }
    ensures downs { tables.new.lines.downs ≡ tables.old.lines.downs }
    ensures meter { tables.new.lines.meter ≤ tables.old.lines.meter + 3 * (length spots.now * length (bearing h.now.event.now h.now.answer.now plan.old.book warnings.now)) }
    ensures least { tables.old.lines.meter ≤ tables.new.lines.meter }
{
    if leaves_blank(h) {
        return walk_indicated(h, plan, tables, spots);
    }
    walk_named(h, plan, tables, spots, warnings)
}
