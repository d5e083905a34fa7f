//! What an event calls for besides its answer.

ghost use Rattle.std.specs.Prelude.{◌≡◌};
ghost use Rattle.server_operator.specs.Sequels.{edit_sequel, sequel_of};

use cell_register::BscId;
use centre_events::event::Event;
use coverage_plan::Edit;
use warning_book::WarningId;

/// What an event that was accepted calls for besides its answer.
#[derive(Clone, Copy)]
pub(crate) enum Sequel {
    Nothing,
    /// The BSC was registered.
    Added(BscId),
    /// The warning was updated or stopped.
    Changed(WarningId),
}

/// What an edit calls for that was accepted.
fn edit_sequel(edit: &Edit) -> Sequel
    ensures { result ≡ edit_sequel edit.now }
{
    match edit {
        Edit::AddBsc(b) => Sequel::Added(*b),
        Edit::Update(warning, _) => Sequel::Changed(*warning),
        Edit::Stop(warning) => Sequel::Changed(*warning),
        _ => Sequel::Nothing,
    }
}

/// What an event calls for that was accepted.
pub(crate) fn sequel_of(event: &Event) -> Sequel
    ensures { result ≡ sequel_of event.now }
{
    match event {
        Event::Edit(edit) => edit_sequel(edit),
        _ => Sequel::Nothing,
    }
}
