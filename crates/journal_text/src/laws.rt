//! Which events have a line. The functions do nothing, and their contracts are lemmas.

ghost use Rattle.std.specs.Prelude.{◌≡◌, true, IfSome};
ghost use Rattle.journal_text.specs.Laws.{AskedHasLine, ReadHasFrame, RestartHasFrame, is_of_link};
ghost use Rattle.journal_text.specs.Sayable.{HasLine, IsBsc, IsCell, IsWarning};

use cell_register::BscId;
use centre_events::event::Event;
use common::Cell;
use warning_book::WarningId;

/// Lemma: a message that is read of the octets of a frame's body, and that a BSC sends, is carried by a frame: its lists
/// have room, it has no spare bits, and what is written of it is read as it. So a report of it has a line.
pub fn read_has_frame()
    ensures { ReadHasFrame }
{}

/// Lemma: so is the RESTART of all cells, which the server enters for a BSC that forgot what it broadcast.
#[tactic(auto, using(crate::proofs::MessageLemmas::restart_has_frame))]
pub fn restart_has_frame()
    ensures { RestartHasFrame }
{}

/// Lemma: what a line of the console asks for has a line, where its names are names of areas, 1 to 16 of a warning, and its
/// pages can be broadcast. The line that is written may be another than the one that asked.
pub fn asked_has_line()
    ensures { AskedHasLine }
{}

fn is_bsc(bsc: BscId)
    ensures { IsBsc bsc }
{
    let _number = bsc.number();
}

fn is_warning(warning: WarningId)
    ensures { IsWarning warning }
{
    let _number = warning.number();
}

fn is_cell(cell: Cell)
    ensures { IsCell cell }
{
    let _lac = cell.lac;
    let _ci = cell.ci;
}

fn is_cell_or_none(after: Option<Cell>)
    ensures { IfSome after IsCell }
{
    match after {
        Some(cell) => is_cell(cell),
        None => {}
    }
}

/// Lemma: every event of a link that is no report has a line, whatever its BSC, its warning and its cell are.
pub fn link_event_has_line(event: &Event)
    ensures { is_of_link event.now ≡ true → HasLine event.now }
{
    match event {
        Event::Edit(_) => {}
        Event::Retry(bsc) => is_bsc(*bsc),
        Event::LinkUp(bsc) => is_bsc(*bsc),
        Event::LinkDown(bsc, _) => is_bsc(*bsc),
        Event::Send(bsc, _) => is_bsc(*bsc),
        Event::Ask(bsc, _, warning, after) => {
            is_bsc(*bsc);
            is_warning(*warning);
            is_cell_or_none(*after);
        }
        Event::Report(_, _, _) => {}
    }
}
