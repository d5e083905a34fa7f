//! The kinds of events.

ghost use Rattle.std.specs.Prelude.{◌≡◌, ◌<◌};
ghost use Rattle.office.specs.Kinds.{kind_name, kind_number, kind_of, kind_of_edit};

use centre_events::event::Event;
use coverage_plan::Edit;

/// What kind of event an entry has.
#[derive(Clone, Copy, Debug, PartialEq, Eq)]
pub enum EventKind {
    AddBsc,
    RemoveBsc,
    AddCell,
    MoveCell,
    RemoveCell,
    AddArea,
    DropArea,
    Put,
    Cut,
    Issue,
    Update,
    Widen,
    Narrow,
    Stop,
    Forget,
    Retry,
    LinkUp,
    LinkDown,
    Send,
    Ask,
    Report,
}

fn kind_of_edit(edit: &Edit) -> EventKind
    ensures { result ≡ kind_of_edit edit.now }
{
    match edit {
        Edit::AddBsc(_) => EventKind::AddBsc,
        Edit::RemoveBsc(_) => EventKind::RemoveBsc,
        Edit::AddCell(_, _) => EventKind::AddCell,
        Edit::MoveCell(_, _) => EventKind::MoveCell,
        Edit::RemoveCell(_) => EventKind::RemoveCell,
        Edit::AddArea(_) => EventKind::AddArea,
        Edit::DropArea(_) => EventKind::DropArea,
        Edit::Put(_, _) => EventKind::Put,
        Edit::Cut(_, _) => EventKind::Cut,
        Edit::Issue(_, _) => EventKind::Issue,
        Edit::Update(_, _) => EventKind::Update,
        Edit::Widen(_, _) => EventKind::Widen,
        Edit::Narrow(_, _) => EventKind::Narrow,
        Edit::Stop(_) => EventKind::Stop,
        Edit::Forget(_) => EventKind::Forget,
    }
}

impl EventKind {
    /// Every kind, in the order of the numbers.
    pub const ALL: [EventKind; 21] = [
        EventKind::AddBsc,
        EventKind::RemoveBsc,
        EventKind::AddCell,
        EventKind::MoveCell,
        EventKind::RemoveCell,
        EventKind::AddArea,
        EventKind::DropArea,
        EventKind::Put,
        EventKind::Cut,
        EventKind::Issue,
        EventKind::Update,
        EventKind::Widen,
        EventKind::Narrow,
        EventKind::Stop,
        EventKind::Forget,
        EventKind::Retry,
        EventKind::LinkUp,
        EventKind::LinkDown,
        EventKind::Send,
        EventKind::Ask,
        EventKind::Report,
    ];

    /// The kind of the event.
    pub fn of(event: &Event) -> EventKind
        ensures { result ≡ kind_of event.now }
    {
        match event {
            Event::Edit(edit) => kind_of_edit(edit),
            Event::Retry(_) => EventKind::Retry,
            Event::LinkUp(_) => EventKind::LinkUp,
            Event::LinkDown(_, _) => EventKind::LinkDown,
            Event::Send(_, _) => EventKind::Send,
            Event::Ask(_, _, _, _) => EventKind::Ask,
            Event::Report(_, _, _) => EventKind::Report,
        }
    }

    /// A number for each kind.
    pub(crate) fn number(self) -> usize
        ensures value { result ≡ kind_number self }
        ensures few { result < 21 }
    {
        match self {
            EventKind::AddBsc => 0,
            EventKind::RemoveBsc => 1,
            EventKind::AddCell => 2,
            EventKind::MoveCell => 3,
            EventKind::RemoveCell => 4,
            EventKind::AddArea => 5,
            EventKind::DropArea => 6,
            EventKind::Put => 7,
            EventKind::Cut => 8,
            EventKind::Issue => 9,
            EventKind::Update => 10,
            EventKind::Widen => 11,
            EventKind::Narrow => 12,
            EventKind::Stop => 13,
            EventKind::Forget => 14,
            EventKind::Retry => 15,
            EventKind::LinkUp => 16,
            EventKind::LinkDown => 17,
            EventKind::Send => 18,
            EventKind::Ask => 19,
            EventKind::Report => 20,
        }
    }

    /// What it is called where events are counted.
    pub fn name(self) -> &'static str
        ensures { result.now ≡ kind_name self }
    {
        match self {
            EventKind::AddBsc => "add_bsc",
            EventKind::RemoveBsc => "remove_bsc",
            EventKind::AddCell => "add_cell",
            EventKind::MoveCell => "move_cell",
            EventKind::RemoveCell => "remove_cell",
            EventKind::AddArea => "add_area",
            EventKind::DropArea => "drop_area",
            EventKind::Put => "put",
            EventKind::Cut => "cut",
            EventKind::Issue => "issue",
            EventKind::Update => "update",
            EventKind::Widen => "widen",
            EventKind::Narrow => "narrow",
            EventKind::Stop => "stop",
            EventKind::Forget => "forget",
            EventKind::Retry => "retry",
            EventKind::LinkUp => "link_up",
            EventKind::LinkDown => "link_down",
            EventKind::Send => "send",
            EventKind::Ask => "ask",
            EventKind::Report => "report",
        }
    }
}
