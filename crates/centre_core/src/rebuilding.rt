//! How what is kept beside the journal is made anew from its entries.

ghost use Rattle.std.specs.Prelude.{◌≡◌, ◌<◌, ◌≤◌, ◌-◌, ◌+◌, ◌*◌, ◌++◌, length, take, false, IfOk, OnOk, OnErr};
ghost use Rattle.mirror.specs.Table.{counted};
ghost use Rattle.centre_lines.specs.Following.{Follows, IsLegal};
ghost use Rattle.centre_past.specs.IsKept.{IsKept};
ghost use Rattle.centre_core.specs.Centre.{all_reach, past_over};
ghost use Rattle.centre_core.specs.Journal.{counted_by};
ghost use Rattle.centre_events.specs.Kept.{is_edit};
ghost use Rattle.centre_events.specs.Past.{After, Past, past_of};
ghost use Rattle.centre_past.specs.Reach.{reach_of, size};
ghost use Rattle.centre_events.specs.declared.event.Event.TheVariants as event;

use crate::base::Base;
use crate::before_entry::BeforeEntry;
use crate::entering::make_again;
use crate::finishing::finish;
use crate::journal::Journal;
use centre_events::entry::Entry;
use centre_events::event::Event;
use centre_lines::reached::{reached_by_edit, reached_by_other};
use centre_past::kept::Kept;
use centre_past::links::up_before;
use centre_past::telling::tell_reads;
use coverage_plan::Edit;
use std::alloc::{AllocError, Global};

/// Follows an entry of an edit.
fn follow_edit(
    alloc: Global,
    kept: &mut Kept,
    entry: &Entry,
    edit: &Edit,
    place: u64,
) -> Result<(), AllocError>
    requires edit { entry.now.event ≡ event.Edit edit.now }
    requires follows { Follows kept.old entry.now place }
    ensures kept { OnOk result ((x : Follows kept.old entry.now place) → IsKept (After entry.now x.past) kept.new) }
    ensures meter { OnOk result ((x : Follows kept.old entry.now place) → kept.new.tables.lines.meter ≤ kept.old.tables.lines.meter + 4 * size (reach_of x.past entry.now.event entry.now.answer)) }
{
    tell_reads();
    let reached = reached_by_edit(alloc, kept, edit)?;
    make_again(kept, edit)?;
    let before = BeforeEntry {
        place,
        up: false,
        reached,
    };
    finish(alloc, kept, &entry.event, &entry.answer, before)
}

/// Follows an entry of an event that is no edit.
fn follow_other(alloc: Global, kept: &mut Kept, entry: &Entry, place: u64) -> Result<(), AllocError>
    requires other { is_edit entry.now.event ≡ false }
    requires follows { Follows kept.old entry.now place }
    ensures kept { OnOk result ((x : Follows kept.old entry.now place) → IsKept (After entry.now x.past) kept.new) }
    ensures meter { OnOk result ((x : Follows kept.old entry.now place) → kept.new.tables.lines.meter ≤ kept.old.tables.lines.meter + 4 * size (reach_of x.past entry.now.event entry.now.answer)) }
{
    tell_reads();
    let up = up_before(&kept.links, &entry.event);
    let reached = reached_by_other(alloc, kept, &entry.event, &entry.answer)?;
    let before = BeforeEntry { place, up, reached };
    finish(alloc, kept, &entry.event, &entry.answer, before)
}

/// Follows an entry of the journal, which has that number, from what the entries before it come to.
fn follow(alloc: Global, kept: &mut Kept, entry: &Entry, place: u64) -> Result<(), AllocError>
    requires { Follows kept.old entry.now place }
    ensures kept { OnOk result ((x : Follows kept.old entry.now place) → IsKept (After entry.now x.past) kept.new) }
    ensures meter { OnOk result ((x : Follows kept.old entry.now place) → kept.new.tables.lines.meter ≤ kept.old.tables.lines.meter + 4 * size (reach_of x.past entry.now.event entry.now.answer)) }
{
    match &entry.event {
        Event::Edit(edit) => follow_edit(alloc, kept, entry, edit, place),
        _ => follow_other(alloc, kept, entry, place),
    }
}

/// Reads the entry of that number of a legal journal, and follows it from what the entries before it come to, those that
/// were folded away among them.
fn follow_next(
    alloc: Global,
    kept: &mut Kept,
    journal: &mut Journal,
    place: u64,
) -> Result<(), AllocError>
    requires first { length journal.old.folded < place }
    requires last { place ≤ length journal.old.folded + length journal.old.entries }
    requires legal { IsLegal (journal.old.folded ++ journal.old.entries) }
    requires kept { IsKept (past_of (take (place - 1) (journal.old.folded ++ journal.old.entries))) kept.old }
    ensures kept { OnOk result (IsKept (past_of (take place (journal.old.folded ++ journal.old.entries))) kept.new) }
    ensures meter { OnOk result (kept.new.tables.lines.meter + 4 * all_reach (past_of (take (place - 1) (journal.old.folded ++ journal.old.entries))) ≤ kept.old.tables.lines.meter + 4 * all_reach (past_of (take place (journal.old.folded ++ journal.old.entries)))) }
    ensures read { journal.new ≡ record journal.old { reads = counted journal.old.reads } }
{
    match journal.read(place) {
        Some(entry) => follow(alloc, kept, entry, place),
        None => Ok(()),
    }
}

/// What the entries of a legal journal come to, with a meter that begins as that of the base. It begins with a copy of the
/// base, which is what those come to that were folded away; the base counts each line that is copied. Each of the others is
/// read once, or at most once where memory runs out.
pub(crate) fn kept_of(
    alloc: Global,
    base: &mut Base,
    journal: &mut Journal,
) -> Result<Kept, AllocError>
    requires legal { IsLegal (journal.old.folded ++ journal.old.entries) }
    requires base { IsKept (past_of journal.old.folded) base.old.kept }
    ensures kept { IfOk result (IsKept (past_of (journal.old.folded ++ journal.old.entries))) }
    ensures meter { IfOk result (λ kept. kept.tables.lines.meter ≤ base.new.kept.tables.lines.meter + 4 * all_reach (past_over journal.old.folded journal.old.entries)) }
    ensures base { (past : Past) → IsKept past base.old.kept → IsKept past base.new.kept }
    ensures begun { base.new.begun ≡ base.old.begun }
    ensures folded { journal.new.folded ≡ journal.old.folded }
    ensures entries { journal.new.entries ≡ journal.old.entries }
    ensures reads { OnOk result (journal.new.reads ≡ counted_by (length journal.old.entries) journal.old.reads) }
    ensures most { OnErr result (journal.new.reads ≤ counted_by (length journal.old.entries) journal.old.reads) }
{
    let mut kept = base.copied(alloc)?;
    for done in journal.folded()..journal.position() {
        follow_next(alloc, &mut kept, journal, done + 1)?;
    }
    Ok(kept)
}
