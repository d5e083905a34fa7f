//! Which cells an event brings down or up.

ghost use Rattle.std.specs.Prelude.{◌≡◌, ℕ, ◌∷◌, [], None, false, if◌then◌else◌, OnOk};
ghost use Rattle.centre_events.specs.Down.{down_mark};
ghost use Rattle.common.specs.declared.cell.Cell.{Cell};
ghost use Rattle.kept_tables.specs.Tables.{Tables};
ghost use Rattle.mirror.specs.Table.{down_at};
ghost use Rattle.warning_book.specs.Content.{is_same_kind};
ghost use Rattle.warning_book.specs.declared.kind.Kind.{Kind};
ghost use Rattle.centre_lines.specs.Following.{SameLines, down_after};

use cell_register::BscId;
use centre_events::answer::Answer;
use centre_events::effects::down_mark;
use centre_events::event::Event;
use common::Cell;
use coverage_plan::Edit;
use kept_tables::{KeptTables, Spot};
use std::alloc::AllocError;
use warning_book::Kind;

/// Sets whether the cell is down at the BSC for warnings of the kind after the event with that answer.
#[tactic(auto, using(crate::proofs::FollowLemmas::lines_set, crate::proofs::FollowLemmas::lines_itself))]
fn mark_down_for(
    tables: &mut KeptTables,
    kind: Kind,
    b: BscId,
    c: Cell,
    event: &Event,
    answer: &Answer,
) -> Result<(), AllocError>
    ensures downs { OnOk result ((k : Kind) (d : ℕ) (e : Cell) → down_at tables.new.lines k d e ≡ (if is_same_kind kind k then down_after event.now answer.now (record { bsc = b; cell = c } ∷ []) k d e (down_at tables.old.lines k d e) else down_at tables.old.lines k d e)) }
    ensures lines { SameLines tables.old tables.new }
{
    match down_mark(kind, b, c, event, answer) {
        Some(down) => tables.set_down(kind, b, c, down),
        None => Ok(()),
    }
}

/// Sets whether the cell is down at the BSC for warnings of each kind after the event with that answer.
#[tactic(auto, using(crate::proofs::FollowLemmas::lines_trans))]
fn mark_down(
    tables: &mut KeptTables,
    b: BscId,
    c: Cell,
    event: &Event,
    answer: &Answer,
) -> Result<(), AllocError>
    ensures downs { OnOk result ((k : Kind) (d : ℕ) (e : Cell) → down_at tables.new.lines k d e ≡ down_after event.now answer.now (record { bsc = b; cell = c } ∷ []) k d e (down_at tables.old.lines k d e)) }
    ensures lines { SameLines tables.old tables.new }
{
    mark_down_for(tables, Kind::Cbs, b, c, event, answer)?;
    mark_down_for(tables, Kind::Emergency, b, c, event, answer)
}

/// Whether the event with that answer may bring a cell down, or up.
fn may_mark(event: &Event, answer: &Answer) -> bool
    ensures { result ≡ false → (k : Kind) (d : ℕ) (e : Cell) → down_mark k d e event.now answer.now ≡ None }
{
    match (event, answer) {
        (Event::Report(_, _, _), Answer::Listed(_)) => true,
        (Event::Edit(Edit::RemoveBsc(_)), _) => true,
        _ => false,
    }
}

/// Sets which of the cells are down for warnings of each kind after the event with that answer.
#[tactic(auto, using(crate::proofs::FollowLemmas::lines_trans, crate::proofs::FollowLemmas::lines_itself))]
pub(crate) fn mark_downs(
    tables: &mut KeptTables,
    spots: &[Spot],
    event: &Event,
    answer: &Answer,
) -> Result<(), AllocError>
    ensures downs { OnOk result ((k : Kind) (d : ℕ) (e : Cell) → down_at tables.new.lines k d e ≡ down_after event.now answer.now spots.now k d e (down_at tables.old.lines k d e)) }
    ensures lines { SameLines tables.old tables.new }
{
    if !may_mark(event, answer) {
        return Ok(());
    }
    for spot in spots {
        mark_down(tables, spot.bsc, spot.cell, event, answer)?;
    }
    Ok(())
}
