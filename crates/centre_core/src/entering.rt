//! How an accepted event is entered: what is kept follows it, and its entry becomes the last of the journal.

ghost use Rattle.std.specs.Prelude.{◌≡◌, ◌<◌, ◌≤◌, ◌+◌, ◌-◌, ◌^◌, ◌++◌, ◌∷◌, [], length, true, IfOk, IsOk, OnOk, OnErr};
ghost use Rattle.centre_lines.specs.Following.{Finishes, most_accesses};
ghost use Rattle.centre_past.specs.IsKept.{IsKept};
ghost use Rattle.centre_events.specs.Kept.{Gives, is_plain};
ghost use Rattle.coverage_plan.specs.Edited.{edited};
ghost use Rattle.centre_events.specs.Past.{Past, After};
ghost use Rattle.centre_events.specs.Verdict.{edit_answered};

use crate::before_entry::BeforeEntry;
use crate::finishing::finish;
use crate::journal::Journal;
use centre_answers::events::{Verdict, make_edit};
use centre_events::answer::Answer;
use centre_events::entry::Entry;
use centre_events::event::Event;
use centre_past::kept::Kept;
use coverage_plan::Edit;
use std::alloc::{AllocError, Global};

/// Makes an edit that is accepted. Where memory runs out nothing changes.
pub(crate) fn make(kept: &mut Kept, edit: &Edit) -> Verdict
    ensures verdict { (past : Past) → IsKept past kept.old → IsOk (edit_answered past edit.now) → Gives (edit_answered past edit.now) result }
    ensures made { OnOk result (kept.new ≡ record kept.old { plan = edited edit.now kept.old.plan }) }
    ensures unchanged { OnErr result (kept.new ≡ kept.old) }
    ensures plain { IfOk result (λ a. is_plain a ≡ true) }
{
    make_edit(&mut kept.plan, edit)
}

/// Makes an edit that is accepted, whose answer is known.
pub(crate) fn make_again(kept: &mut Kept, edit: &Edit) -> Result<(), AllocError>
    ensures made { OnOk result (kept.new ≡ record kept.old { plan = edited edit.now kept.old.plan }) }
{
    match make(kept, edit) {
        Ok(answer) => {
            drop(answer);
            Ok(())
        }
        Err(_) => Err(AllocError),
    }
}

/// The entry of an event and of a copy of what it was answered, and that answer. It takes no memory where the answer has no
/// order, message or list.
pub(crate) fn with_entry(
    alloc: Global,
    desk: u32,
    event: Event,
    answer: Answer,
) -> Result<(Entry, Answer), AllocError>
    ensures entry { IfOk result (λ both. both.0 ≡ record { desk = desk; event = event; answer = answer }) }
    ensures answer { IfOk result (λ both. both.1 ≡ answer) }
    ensures plain { is_plain answer ≡ true → IsOk result }
{
    match Entry::of(alloc, desk, event, &answer) {
        Ok(entry) => Ok((entry, answer)),
        Err(error) => {
            drop(answer);
            Err(error)
        }
    }
}

/// Follows an accepted event from how it stood before it, and enters it in the journal, which has room for it. An edit has
/// been made. At an `Err` memory ran out, and what is kept is of no use any more.
pub(crate) fn enter(
    alloc: Global,
    journal: &mut Journal,
    kept: &mut Kept,
    before: BeforeEntry,
    entry: Entry,
) -> Result<(), AllocError>
    requires room { 1 ≤ journal.old.room }
    requires number { length journal.old.folded + length journal.old.entries < 2 ^ 64 - 1 }
    requires finishes { Finishes kept.old entry.event entry.answer before.place before.up before.reached.spots.items before.reached.lines }
    ensures folded { journal.new.folded ≡ journal.old.folded }
    ensures entry { OnOk result (journal.new.entries ≡ journal.old.entries ++ entry ∷ []) }
    ensures entries_stay { OnErr result (journal.new.entries ≡ journal.old.entries) }
    ensures unread { journal.new.reads ≡ journal.old.reads }
    ensures kept { OnOk result ((x : Finishes kept.old entry.event entry.answer before.place before.up before.reached.spots.items before.reached.lines) → IsKept (After (record { desk = x.desk; event = entry.event; answer = entry.answer }) x.past) kept.new) }
    ensures meter { kept.new.tables.lines.meter ≤ kept.old.tables.lines.meter + most_accesses entry.event entry.answer kept.old.plan.book before.reached.spots.items before.reached.lines }
    ensures least { kept.old.tables.lines.meter ≤ kept.new.tables.lines.meter }
{
    let done = finish(alloc, kept, &entry.event, &entry.answer, before);
    match done {
        Ok(()) => journal.push(entry),
        Err(_) => drop(entry),
    }
    done
}
