//! The lines on which an edit bears, read before it.

ghost use Rattle.std.specs.Prelude.{◌≡◌, ℕ, ◌<◌, ◌≤◌, ◌+◌, ◌-◌, ◌*◌, ◌||◌, ◌++◌, ◌∷◌, [], None, true, length, ltb, nat_eq, IfOk, IfSome, OnOk};
ghost use Rattle.std.specs.List.{filter, flat_map, list_any, slice_index_or};
ghost use Rattle.std.specs.Option.{option_copied};
ghost use Rattle.common.specs.Order.{is_ascending};
ghost use Rattle.kept_tables.specs.Tables.{Tables};
ghost use Rattle.kept_tables.specs.View.{key_at};
ghost use Rattle.centre_past.specs.Idle.{AsBefore};
ghost use Rattle.centre_lines.specs.Following.{LinesAreOf, before_unless, before_at, lines_before, is_idle, is_near, leaves_cover, passed_over, is_issue};
ghost use Rattle.centre_past.specs.Reaching.{is_forget};
ghost use Rattle.coverage_plan.specs.declared.edit.Edit as edit_spec;
ghost use Rattle.warning_book.specs.Book.{warning_of};

use crate::facts::{facts_before, kind_in};
use crate::facts_before::FactsBefore;
use crate::found_plan::FoundPlan;
use crate::line_before::LineBefore;
use crate::line_in_cell::LineInCell;
use crate::naming::{has_covering, named_at};
use centre_past::keys::key_at;
use common::Cell;
use coverage_plan::Edit;
use kept_tables::{KeptTables, Spot};
use mirror::{Line, LineKey};
use std::alloc::{AllocError, Global};
use warning_book::{Kind, Warning, WarningId};

/// Room for as many lines as most cells have.
const FEW: usize = 32;

/// A line as it stood.
fn before_of(spot: &Spot, n: WarningId, before: FactsBefore) -> LineBefore
    ensures { result ≡ record { key = key_at spot.now n; before = before } }
{
    LineBefore {
        key: key_at(spot, n),
        before,
    }
}

/// Whether nothing is kept of the line of a warning, which has that number, and none of its areas covers the cell.
fn is_idle(
    plan: &mut FoundPlan<'_>,
    c: Cell,
    n: WarningId,
    warning: Option<&Warning>,
    line: &Line,
) -> Result<bool, AllocError>
    requires { option_copied warning ≡ warning_of plan.old.book n }
    ensures idle { IfOk result (λ found. found ≡ is_idle plan.old.areas (option_copied warning.entry) c line.now) }
    ensures same { plan.new ≡ plan.old }
{
    let Some(w) = warning else {
        return Ok(true);
    };
    if !line.is_blank() {
        return Ok(false);
    }
    let is_covered = has_covering(plan, n, w, c)?;
    Ok(!is_covered)
}

/// Whether the warning stands at that place.
#[inline(always)]
fn stands_at(n: WarningId, warnings: &[WarningId], place: usize) -> bool
    ensures { result ≡ true → list_any (nat_eq n) warnings.now ≡ true }
{
    match warnings.get(place) {
        Some(other) => *other == n,
        None => false,
    }
}

/// Whether the one at that place is greater, or none is there and that place is the end.
#[inline(always)]
fn ends_before(n: WarningId, warnings: &[WarningId], place: usize) -> bool
    ensures bound { result ≡ true → place ≤ length warnings.now }
    ensures greater { result ≡ true → place < length warnings.now → (d : ℕ) → ltb n (slice_index_or warnings.now place d) ≡ true }
{
    match warnings.get(place) {
        Some(other) => n.number() < other.number(),
        None => place == warnings.len(),
    }
}

/// Whether the one before that place is less, or none is before it.
#[inline(always)]
fn begins_behind(n: WarningId, warnings: &[WarningId], place: usize) -> bool
    ensures { result ≡ true → 1 ≤ place → place - 1 < length warnings.now → (d : ℕ) → ltb (slice_index_or warnings.now (place - 1) d) n ≡ true }
{
    if place == 0 {
        return true;
    }
    match warnings.get(place - 1) {
        Some(other) => other.number() < n.number(),
        None => false,
    }
}

/// Whether the warning is one of those, which stand in ascending order. It mostly stands at that place, which is moved behind
/// it then, or would stand just before it.
#[inline(always)]
fn is_listed(n: WarningId, warnings: &[WarningId], near: &mut usize) -> bool
    requires { is_ascending ltb warnings.now ≡ true }
    ensures { result ≡ list_any (nat_eq n) warnings.now }
{
    if stands_at(n, warnings, *near) {
        *near = near.wrapping_add(1);
        return true;
    }
    if ends_before(n, warnings, *near) && begins_behind(n, warnings, *near) {
        return false;
    }
    let place = warnings.partition_point(|other| other.number() < n.number());
    *near = place;
    place < warnings.len() && n == warnings[place]
}

/// Whether the edit leaves what each area covers, and which areas a warning has.
fn leaves_cover(edit: &Edit) -> bool
    ensures { result ≡ leaves_cover edit.now }
{
    matches!(
        edit,
        Edit::RemoveBsc(_) | Edit::AddCell(_, _) | Edit::MoveCell(_, _) | Edit::RemoveCell(_)
    )
}

/// Whether the edit forgets a warning.
fn is_forget(edit: &Edit) -> bool
    ensures { result ≡ is_forget edit.now }
{
    matches!(edit, Edit::Forget(_))
}

/// Whether the edit leaves the line of a warning, which has that number, without a part. A warning that is forgotten isn't
/// active, so that a blank line of it has none, whatever its areas cover.
fn is_passed_over(
    edit: &Edit,
    plan: &mut FoundPlan<'_>,
    c: Cell,
    n: WarningId,
    warning: Option<&Warning>,
    line: &Line,
) -> Result<bool, AllocError>
    requires { option_copied warning ≡ warning_of plan.old.book n }
    ensures passed { IfOk result (λ over. over ≡ passed_over edit.now plan.old.areas (option_copied warning.entry) c line.now) }
    ensures same { plan.new ≡ plan.old }
{
    if is_forget(edit) {
        return Ok(line.is_blank());
    }
    if !leaves_cover(edit) {
        return Ok(false);
    }
    let idle = is_idle(plan, c, n, warning, line)?;
    Ok(idle)
}

/// Reads a line, and keeps how it stands, unless it is passed over.
#[tactic(auto, using(crate::proofs::FollowLemmas::facts_as, centre_past::proofs::ReadLemmas::as_read))]
#[inline(always)]
fn read_before(
    out: &mut Vec<LineBefore>,
    plan: &mut FoundPlan<'_>,
    tables: &mut KeptTables,
    spot: &Spot,
    n: WarningId,
    edit: &Edit,
) -> Result<(), AllocError>
    ensures earlier { (t : Tables) → AsBefore t tables.old → OnOk result (out.new.items ≡ out.old.items ++ before_unless edit.now plan.old t (key_at spot.now n)) }
    ensures kept { (t : Tables) → AsBefore t tables.old → AsBefore t tables.new }
    ensures meter { tables.new.lines.meter ≤ tables.old.lines.meter + 1 }
    ensures same { plan.new ≡ plan.old }
{
    let line = tables.read_line(key_at(spot, n));
    let warning = plan.book().find(n);
    if is_passed_over(edit, plan, spot.cell, n, warning, &line)? {
        return Ok(());
    }
    let down = tables.is_down(kind_in(warning), spot.bsc, spot.cell);
    let there = LineInCell {
        spot: *spot,
        line,
        down,
    };
    let before = facts_before(plan, &there, n, warning)?;
    out.push(before_of(spot, n, before))?;
    Ok(())
}

/// Reads the lines of the warnings at the spot.
fn read_at(
    out: &mut Vec<LineBefore>,
    plan: &mut FoundPlan<'_>,
    tables: &mut KeptTables,
    spot: &Spot,
    warnings: &[WarningId],
    edit: &Edit,
) -> Result<(), AllocError>
    ensures earlier { (t : Tables) → AsBefore t tables.old → OnOk result (out.new.items ≡ out.old.items ++ before_at edit.now plan.old t warnings.now spot.now) }
    ensures kept { (t : Tables) → AsBefore t tables.old → AsBefore t tables.new }
    ensures meter { tables.new.lines.meter ≤ tables.old.lines.meter + length warnings.now }
    ensures same { plan.new ≡ plan.old }
{
    for warning in warnings {
        read_before(out, plan, tables, spot, *warning, edit)?;
    }
    Ok(())
}

/// Those of the warnings that stand in one of two lists.
fn listed_in(
    alloc: Global,
    kept: &[WarningId],
    named: &[WarningId],
    warnings: &[WarningId],
) -> Result<Vec<WarningId>, AllocError>
    requires kept { is_ascending ltb kept.now ≡ true }
    requires named { is_ascending ltb named.now ≡ true }
    ensures { IfOk result (λ v. v.items ≡ filter (λ n. list_any (nat_eq n) kept.now || list_any (nat_eq n) named.now) warnings.now) }
{
    let mut near = Vec::with_capacity(alloc, warnings.len())?;
    let mut at_kept = 0;
    let mut at_named = 0;
    for warning in warnings {
        let is_kept = is_listed(*warning, kept, &mut at_kept);
        let is_named = is_listed(*warning, named, &mut at_named);
        if is_kept || is_named {
            near.push(*warning)?;
        }
    }
    Ok(near)
}

/// Those of the warnings of which something is kept at the spot, or of which an area covers its cell. The lines of which
/// something is kept are counted.
#[tactic(auto, using(centre_past::proofs::ReadLemmas::as_read))]
pub(crate) fn near(
    plan: &mut FoundPlan<'_>,
    tables: &mut KeptTables,
    spot: &Spot,
    warnings: &[WarningId],
) -> Result<Vec<WarningId>, AllocError>
    ensures warnings { IfOk result (λ v. v.items ≡ filter (is_near plan.old.areas plan.old.book tables.new.lines spot.now.bsc spot.now.cell) warnings.now) }
    ensures kept { (t : Tables) → AsBefore t tables.old → AsBefore t tables.new }
    ensures meter { LinesAreOf warnings.now tables.old → tables.new.lines.meter ≤ tables.old.lines.meter + length warnings.now }
    ensures same { plan.new ≡ plan.old }
{
    let kept = tables.warnings_at(spot.bsc, spot.cell)?;
    let named = named_at(plan, spot.cell)?;
    let near = listed_in(plan.alloc(), kept.as_slice(), named.as_slice(), warnings)?;
    Ok(near)
}

/// Reads the lines of those of the warnings that are near the cell at the BSC, and keeps how those stand that are not passed
/// over. The lines of the others are idle.
fn read_near(
    out: &mut Vec<LineBefore>,
    plan: &mut FoundPlan<'_>,
    tables: &mut KeptTables,
    spot: &Spot,
    warnings: &[WarningId],
    edit: &Edit,
) -> Result<(), AllocError>
    requires cover { leaves_cover edit.now ≡ true }
    ensures earlier { (t : Tables) → AsBefore t tables.old → OnOk result (out.new.items ≡ out.old.items ++ before_at edit.now plan.old t warnings.now spot.now) }
    ensures kept { (t : Tables) → AsBefore t tables.old → AsBefore t tables.new }
    ensures meter { LinesAreOf warnings.now tables.old → tables.new.lines.meter ≤ tables.old.lines.meter + 2 * length warnings.now }
    ensures same { plan.new ≡ plan.old }
{
    let near = near(plan, tables, spot, warnings)?;
    read_at(out, plan, tables, spot, near.as_slice(), edit)?;
    Ok(())
}

/// Reads the lines at the spot, and keeps how those stand that are not passed over.
fn read_there(
    out: &mut Vec<LineBefore>,
    plan: &mut FoundPlan<'_>,
    tables: &mut KeptTables,
    spot: &Spot,
    warnings: &[WarningId],
    edit: &Edit,
) -> Result<(), AllocError>
    ensures earlier { (t : Tables) → AsBefore t tables.old → OnOk result (out.new.items ≡ out.old.items ++ before_at edit.now plan.old t warnings.now spot.now) }
    ensures kept { (t : Tables) → AsBefore t tables.old → AsBefore t tables.new }
    ensures meter { (leaves_cover edit.now ≡ true → LinesAreOf warnings.now tables.old) → tables.new.lines.meter ≤ tables.old.lines.meter + 2 * length warnings.now }
    ensures same { plan.new ≡ plan.old }
{
    if leaves_cover(edit) {
        return read_near(out, plan, tables, spot, warnings, edit);
    }
    read_at(out, plan, tables, spot, warnings, edit)
}

/// The warning of an Issue, which isn't in the book before it, if these are that one.
fn new_warning(plan: &FoundPlan<'_>, warnings: &[WarningId], edit: &Edit) -> Option<WarningId>
    ensures only { IfSome result (λ n. warnings.now ≡ n ∷ []) }
    ensures new { IfSome result (λ n. warning_of plan.now.book n ≡ None) }
    ensures issue { IfSome result (λ n. is_issue edit.now ≡ true) }
{
    match (edit, warnings) {
        (Edit::Issue(_, _), [n]) if plan.book().find(*n).is_none() => Some(*n),
        _ => None,
    }
}

/// How the lines at the spots stand of a warning that isn't in the book. None of them has to be read.
fn read_new(
    plan: &mut FoundPlan<'_>,
    tables: &KeptTables,
    spots: &[Spot],
    n: WarningId,
) -> Result<Vec<LineBefore>, AllocError>
    requires new { warning_of plan.old.book n ≡ None }
    ensures earlier { (e : edit_spec.Edit) → is_issue e ≡ true → (t : Tables) → AsBefore t tables.now → IfOk result (λ v. v.items ≡ lines_before e plan.old t spots.now (n ∷ [])) }
    ensures same { plan.new ≡ plan.old }
{
    let mut out = Vec::with_capacity(plan.alloc(), spots.len())?;
    for spot in spots {
        let down = tables.is_down(Kind::Cbs, spot.bsc, spot.cell);
        let here = plan.is_here(spot);
        out.push(before_of(spot, n, FactsBefore::none(down, here)))?;
    }
    Ok(out)
}

/// Reads the lines of each of the warnings at each of the spots, and keeps how those stand that are not passed over.
pub(crate) fn read_all(
    plan: &mut FoundPlan<'_>,
    tables: &mut KeptTables,
    spots: &[Spot],
    warnings: &[WarningId],
    edit: &Edit,
) -> Result<Vec<LineBefore>, AllocError>
    ensures earlier { (t : Tables) → AsBefore t tables.old → IfOk result (λ v. v.items ≡ lines_before edit.now plan.old t spots.now warnings.now) }
    ensures kept { (t : Tables) → AsBefore t tables.old → AsBefore t tables.new }
    ensures meter { (leaves_cover edit.now ≡ true → LinesAreOf warnings.now tables.old) → tables.new.lines.meter ≤ tables.old.lines.meter + 2 * (length spots.now * length warnings.now) }
{
    if let Some(n) = new_warning(plan, warnings, edit) {
        return read_new(plan, tables, spots, n);
    }
    let mut out = Vec::with_capacity(plan.alloc(), spots.len().max(FEW))?;
    for spot in spots {
        read_there(&mut out, plan, tables, spot, warnings, edit)?;
    }
    Ok(out)
}

/// Reads these lines, and keeps how those stand that are not passed over.
pub(crate) fn read_keys(
    plan: &mut FoundPlan<'_>,
    tables: &mut KeptTables,
    keys: &[LineKey],
    edit: &Edit,
) -> Result<Vec<LineBefore>, AllocError>
    ensures earlier { (t : Tables) → AsBefore t tables.old → IfOk result (λ v. v.items ≡ flat_map (before_unless edit.now plan.old t) keys.now) }
    ensures kept { (t : Tables) → AsBefore t tables.old → AsBefore t tables.new }
    ensures meter { tables.new.lines.meter ≤ tables.old.lines.meter + length keys.now }
{
    let mut out = Vec::with_capacity(plan.alloc(), keys.len())?;
    for key in keys {
        let LineKey { bsc, cell, warning } = *key;
        let spot = Spot { bsc, cell };
        read_before(&mut out, plan, tables, &spot, warning, edit)?;
    }
    Ok(out)
}
