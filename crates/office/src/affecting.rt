//! For which BSCs an event may make something to do.

ghost use Rattle.std.specs.Prelude.{◌≡◌, ℕ, false};
ghost use Rattle.centre_past.specs.Legal.{past};
ghost use Rattle.office.specs.Affecting.{affects, changes_link, edit_affects, includes, is_link};

use crate::affected::Affected;
use centre_core::centre::Centre;
use centre_events::event::Event;
use coverage_plan::Edit;

/// Those that the edit affects. The edit was not yet accepted.
fn affected_by_edit(centre: &Centre, edit: &Edit) -> Affected
    ensures bscs { centre.now.known.stale ≡ false → (b : ℕ) → includes result b ≡ edit_affects (past centre.now.known) edit.now b }
    ensures link { is_link result ≡ false }
{
    match edit {
        Edit::AddBsc(_) | Edit::RemoveBsc(_) | Edit::Forget(_) => Affected::None,
        Edit::AddArea(_) | Edit::DropArea(_) => Affected::None,
        Edit::AddCell(_, b) => Affected::These(Some(*b), None),
        Edit::MoveCell(cell, b) => {
            Affected::These(Some(*b), centre.place_of(*cell).unwrap_or(None))
        }
        Edit::RemoveCell(cell) => { Affected::These(centre.place_of(*cell).unwrap_or(None), None) }
        _ => Affected::All,
    }
}

/// Those that the event affects. The event was not yet accepted.
pub(crate) fn affected_by(centre: &Centre, event: &Event) -> Affected
    ensures bscs { centre.now.known.stale ≡ false → (b : ℕ) → includes result b ≡ affects (past centre.now.known) event.now b }
    ensures link { is_link result ≡ changes_link event.now }
{
    match event {
        Event::Edit(edit) => affected_by_edit(centre, edit),
        Event::Retry(b) | Event::Report(b, _, _) => Affected::These(Some(*b), None),
        Event::LinkUp(b) | Event::LinkDown(b, _) => Affected::Link(*b),
        Event::Send(_, _) | Event::Ask(_, _, _, _) => Affected::None,
    }
}
