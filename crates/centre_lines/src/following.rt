//! How what is kept follows an event: the lines that it changes are changed after it.

ghost use Rattle.std.specs.Prelude.{◌≡◌, ℕ, ◌≤◌, ◌+◌, ◌*◌, ◌++◌, ◌∷◌, ◌&&◌, [], true, false, not, nat_eq, length, map, IfOk, OnOk};
ghost use Rattle.common.specs.declared.cell.Cell.{Cell};
ghost use Rattle.kept_tables.specs.Changes.{Begins, IsNext, mixed};
ghost use Rattle.kept_tables.specs.Consistent.{Consistent};
ghost use Rattle.mirror.specs.Table.{down_at};
ghost use Rattle.centre_events.specs.Down.{is_down};
ghost use Rattle.centre_past.specs.Facts.{facts};
ghost use Rattle.centre_events.specs.Past.{After};
ghost use Rattle.std.specs.Option.{option_copied};
ghost use Rattle.centre_lines.specs.Following.{AreCovered, Made, MadeEdit, MadeOther, bearing, entry_of, happens, line_now, facts_then, change_of, covered_change, leaves_areas_then, leaves_lines, most_accesses};
ghost use Rattle.centre_past.specs.State.{AreCovering};
ghost use Rattle.warning_book.specs.Book.{warning_of};
ghost use Rattle.warning_book.specs.declared.kind.Kind.{Kind};

use crate::downs::mark_downs;
use crate::facts::{covered_facts, facts_from, kind_in};
use crate::found_plan::FoundPlan;
use crate::line_before::LineBefore;
use crate::line_in_cell::LineInCell;
use crate::lines_before::LinesBefore;
use crate::reached::Reached;
use crate::walking::walk;
use centre_events::event::Event;
use centre_events::stepping::{Happening, step_line};
use coverage_plan::{Edit, Plan};
use kept_tables::{KeptTables, LineFacts, Spot, Stays};
use mirror::{Line, LineKey};
use std::alloc::{AllocError, Global};
use warning_book::{Warning, WarningId};

/// Whether what happens is an edit that leaves every line as it is: each but the end of a BSC, an Update and a Forget.
fn leaves_lines(h: &Happening<'_, '_>) -> bool
    ensures { result ≡ leaves_lines h.now.event.now }
{
    match h.event {
        Event::Edit(Edit::RemoveBsc(_) | Edit::Update(_, _) | Edit::Forget(_)) => false,
        Event::Edit(_) => true,
        _ => false,
    }
}

/// Makes of the line what it is after what happens, of a warning if the book has it. At `false` it stayed as it was.
#[tactic(auto, using(crate::proofs::BlankLineLemmas::edit_leaves))]
#[inline(always)]
pub(crate) fn line_now(
    h: &Happening<'_, '_>,
    warnings: &[Warning],
    spot: &Spot,
    warning: Option<&Warning>,
    line: &mut Line,
) -> bool
    ensures line { line.new ≡ line_now (happens h.now) warnings.now spot.now.bsc spot.now.cell (option_copied warning.entry) line.old }
    ensures stays { result ≡ false → line.new ≡ line.old }
{
    match warning {
        Some(w) if !leaves_lines(h) => step_line(h, w, spot.bsc, spot.cell, warnings, line),
        _ => false,
    }
}

/// What is read of a line after what happens.
fn facts_then<'b>(
    h: &Happening<'_, '_>,
    plan: &mut FoundPlan<'b>,
    tables: &KeptTables,
    earlier: &LineBefore,
) -> Result<LineFacts<'b>, AllocError>
    ensures facts { IfOk result (λ f. f ≡ facts_then (happens h.now) plan.old tables.now earlier.now.key earlier.now.before.line) }
    ensures same { plan.new ≡ plan.old }
{
    let LineKey { bsc, cell, warning } = earlier.key;
    let spot = Spot { bsc, cell };
    let n = warning;
    let book = plan.book();
    let warning = book.find(n);
    let mut line = earlier.before.line();
    line_now(h, book.as_slice(), &spot, warning, &mut line);
    let down = tables.is_down(kind_in(warning), bsc, cell);
    let there = LineInCell { spot, line, down };
    facts_from(plan, &there, n, warning)
}

/// What is read of a line after an edit that leaves the areas that cover its cell.
fn covered_then<'b>(
    h: &Happening<'_, '_>,
    plan: &mut FoundPlan<'b>,
    tables: &KeptTables,
    earlier: &'b LineBefore,
) -> LineFacts<'b>
    ensures facts { result ≡ (covered_change (happens h.now) plan.old tables.now earlier.now).after }
    ensures same { plan.new ≡ plan.old }
{
    let LineKey { bsc, cell, warning } = earlier.key;
    let spot = Spot { bsc, cell };
    let book = plan.book();
    let warning = book.find(warning);
    let mut line = earlier.before.line();
    line_now(h, book.as_slice(), &spot, warning, &mut line);
    let down = tables.is_down(kind_in(warning), bsc, cell);
    let there = LineInCell { spot, line, down };
    match warning {
        Some(w) => covered_facts(plan, &there, w, earlier.before.areas()),
        None => LineFacts::none(down, plan.is_here(&spot)),
    }
}

/// Whether what happens is an edit that leaves which areas cover each cell, and which areas each warning has.
fn leaves_areas(h: &Happening<'_, '_>) -> bool
    ensures { result ≡ leaves_areas_then h.now.event.now }
{
    match h.event {
        Event::Edit(edit) => matches!(
            edit,
            Edit::RemoveBsc(_)
                | Edit::AddCell(_, _)
                | Edit::MoveCell(_, _)
                | Edit::RemoveCell(_)
                | Edit::Update(_, _)
                | Edit::Stop(_)
        ),
        _ => false,
    }
}

/// What is read of a line after an edit, from how it stood.
fn then_of<'b>(
    h: &Happening<'_, '_>,
    plan: &mut FoundPlan<'b>,
    tables: &KeptTables,
    earlier: &'b LineBefore,
) -> Result<LineFacts<'b>, AllocError>
    requires covered { leaves_areas_then h.now.event.now ≡ true → AreCovering plan.old.areas earlier.now.key.cell earlier.now.before.areas (warning_of plan.old.book earlier.now.key.warning) }
    ensures facts { IfOk result (λ f. f ≡ facts_then (happens h.now) plan.old tables.now earlier.now.key earlier.now.before.line) }
    ensures same { plan.new ≡ plan.old }
{
    if leaves_areas(h) {
        return Ok(covered_then(h, plan, tables, earlier));
    }
    facts_then(h, plan, tables, earlier)
}

/// Whether the line itself is known to stay: what happens leaves every line as it is, and the warning is in the book, since
/// the line has versions.
fn line_stays(h: &Happening<'_, '_>, after: &LineFacts<'_>) -> bool
    ensures { result ≡ (leaves_lines h.now.event.now && not (nat_eq (length after.now.versions) 0)) }
{
    leaves_lines(h) && !after.versions.as_slice().is_empty()
}

/// Whether the areas that cover the cell are known to stay: what happens leaves them, and the warning is in the book, since
/// the line has versions.
fn areas_stay(h: &Happening<'_, '_>, after: &LineFacts<'_>) -> bool
    ensures { result ≡ (leaves_areas_then h.now.event.now && not (nat_eq (length after.now.versions) 0)) }
{
    leaves_areas(h) && !after.versions.as_slice().is_empty()
}

/// Changes a line by an edit, from how it stood. It is the next of the lines that the edit changes.
fn change_line<'b>(
    h: &Happening<'_, '_>,
    plan: &mut FoundPlan<'b>,
    tables: &mut KeptTables,
    earlier: &'b LineBefore,
) -> Result<(), AllocError>
    requires covered { leaves_areas_then h.now.event.now ≡ true → AreCovering plan.old.areas earlier.now.key.cell earlier.now.before.areas (warning_of plan.old.book earlier.now.key.warning) }
    requires next { IsNext tables.old (change_of (happens h.now) plan.old tables.old earlier.now) }
    ensures made { OnOk result ((n : IsNext tables.old (change_of (happens h.now) plan.old tables.old earlier.now)) → Consistent tables.new (mixed n.begins.from n.begins.to (n.done ++ change_of (happens h.now) plan.old tables.old earlier.now ∷ []))) }
    ensures downs { tables.new.lines.downs ≡ tables.old.lines.downs }
    ensures meter { tables.new.lines.meter ≤ tables.old.lines.meter + 1 }
    ensures least { tables.old.lines.meter ≤ tables.new.lines.meter }
    ensures same { plan.new ≡ plan.old }
{
    let after = then_of(h, plan, tables, earlier)?;
    let stays = Stays {
        line: line_stays(h, &after),
        areas: areas_stay(h, &after),
    };
    let before = earlier.before.facts();
    tables.make(&earlier.key, &before, &after, stays)
}

/// Changes the lines by an edit, from how they stood.
fn change_lines<'b>(
    h: &Happening<'_, '_>,
    plan: &mut FoundPlan<'b>,
    tables: &mut KeptTables,
    earlier: &'b [LineBefore],
) -> Result<(), AllocError>
    requires covered { leaves_areas_then h.now.event.now ≡ true → AreCovered plan.old.areas plan.old.book earlier.now }
    requires begins { Begins tables.old (map (change_of (happens h.now) plan.old tables.old) earlier.now) }
    ensures made { OnOk result ((b : Begins tables.old (map (change_of (happens h.now) plan.old tables.old) earlier.now)) → Consistent tables.new (mixed b.from b.to (map (change_of (happens h.now) plan.old tables.old) earlier.now))) }
    ensures downs { tables.new.lines.downs ≡ tables.old.lines.downs }
    ensures meter { tables.new.lines.meter ≤ tables.old.lines.meter + length earlier.now }
    ensures least { tables.old.lines.meter ≤ tables.new.lines.meter }
{
    for line in earlier {
        change_line(h, plan, tables, line)?;
    }
    Ok(())
}

/// Changes the lines by an edit that has been made, from how they stood, once the cells are brought down or up that it brings
/// so.
fn follow_edit<'b>(
    alloc: Global,
    h: &Happening<'_, '_>,
    plan: &'b Plan,
    tables: &mut KeptTables,
    spots: &[Spot],
    earlier: &'b [LineBefore],
) -> Result<(), AllocError>
    requires made { MadeEdit plan.now tables.old (happens h.now) spots.now earlier.now }
    ensures tables { OnOk result ((x : MadeEdit plan.now tables.old (happens h.now) spots.now earlier.now) → Consistent tables.new (facts (After (entry_of x.desk (happens h.now)) x.past))) }
    ensures downs { OnOk result ((x : MadeEdit plan.now tables.old (happens h.now) spots.now earlier.now) → (k : Kind) (b : ℕ) (c : Cell) → down_at tables.new.lines k b c ≡ is_down (After (entry_of x.desk (happens h.now)) x.past) k b c) }
    ensures meter { tables.new.lines.meter ≤ tables.old.lines.meter + length earlier.now }
    ensures least { tables.old.lines.meter ≤ tables.new.lines.meter }
{
    mark_downs(tables, spots, h.event, h.answer)?;
    let mut found = FoundPlan::new(alloc, plan);
    change_lines(h, &mut found, tables, earlier)
}

/// Changes the lines by another event, each as it is read, and then brings the cells down or up that the event brings so.
fn follow_other(
    alloc: Global,
    h: &Happening<'_, '_>,
    plan: &Plan,
    tables: &mut KeptTables,
    spots: &[Spot],
    warnings: &[WarningId],
) -> Result<(), AllocError>
    requires made { MadeOther plan.now tables.old (happens h.now) spots.now warnings.now }
    ensures tables { OnOk result ((x : MadeOther plan.now tables.old (happens h.now) spots.now warnings.now) → Consistent tables.new (facts (After (entry_of x.desk (happens h.now)) x.past))) }
    ensures downs { OnOk result ((x : MadeOther plan.now tables.old (happens h.now) spots.now warnings.now) → (k : Kind) (b : ℕ) (c : Cell) → down_at tables.new.lines k b c ≡ is_down (After (entry_of x.desk (happens h.now)) x.past) k b c) }
    ensures meter { tables.new.lines.meter ≤ tables.old.lines.meter + 3 * (length spots.now * length (bearing h.now.event.now h.now.answer.now plan.now.book warnings.now)) }
    ensures least { tables.old.lines.meter ≤ tables.new.lines.meter }
{
    let mut found = FoundPlan::new(alloc, plan);
    walk(h, &mut found, tables, spots, warnings)?;
    mark_downs(tables, spots, h.event, h.answer)
}

/// Changes the lines on which an event bears that has been made: by an edit from how they stood before it, by any other event
/// as they are read. At an `Err` memory ran out, and the tables are of no use any more.
pub fn bear(
    alloc: Global,
    h: &Happening<'_, '_>,
    plan: &Plan,
    tables: &mut KeptTables,
    reached: Reached,
) -> Result<(), AllocError>
    requires made { Made plan.now tables.old (happens h.now) reached.spots.items reached.lines }
    ensures tables { OnOk result ((x : Made plan.now tables.old (happens h.now) reached.spots.items reached.lines) → Consistent tables.new (facts (After (entry_of x.desk (happens h.now)) x.past))) }
    ensures downs { OnOk result ((x : Made plan.now tables.old (happens h.now) reached.spots.items reached.lines) → (k : Kind) (b : ℕ) (c : Cell) → down_at tables.new.lines k b c ≡ is_down (After (entry_of x.desk (happens h.now)) x.past) k b c) }
    ensures meter { tables.new.lines.meter ≤ tables.old.lines.meter + most_accesses h.now.event.now h.now.answer.now plan.now.book reached.spots.items reached.lines }
    ensures least { tables.old.lines.meter ≤ tables.new.lines.meter }
{
    let Reached { spots, lines } = reached;
    match lines {
        LinesBefore::Read(earlier) => {
            follow_edit(alloc, h, plan, tables, spots.as_slice(), earlier.as_slice())
        }
        LinesBefore::Unread(named) => {
            follow_other(alloc, h, plan, tables, spots.as_slice(), named.as_slice())
        }
    }
}
