//! What is looked at before an event is entered. Nothing is changed but room in the journal, and how often lines were
//! read.

ghost use Rattle.std.specs.Prelude.{◌≡◌, ◌<◌, ◌≤◌, ◌+◌, ◌-◌, ◌*◌, ◌^◌, ◌++◌, length, false, Ok, IfOk, IfErr, IsOk, OnOk};
ghost use Rattle.centre_core.specs.Centre.{IsRefused, IsWhole, past_over};
ghost use Rattle.centre_lines.specs.Following.{WasReached};
ghost use Rattle.centre_past.specs.IsKept.{IsKept, OnlyReadsIn};
ghost use Rattle.centre_past.specs.Legal.{Legal};
ghost use Rattle.centre_events.specs.Kept.{Gives, IsChecked, is_edit};
ghost use Rattle.centre_events.specs.Past.{Past, past_of};
ghost use Rattle.centre_past.specs.Reach.{edit_reach, looked_at, size};
ghost use Rattle.centre_events.specs.Verdict.{answered, verdict};
ghost use Rattle.centre_events.specs.declared.answer.Answer as answer_spec;
ghost use Rattle.centre_events.specs.declared.event.Event.TheVariants as event;
ghost use Rattle.centre_events.specs.declared.settings.Settings.{Settings};

use crate::journal::Journal;
use centre_answers::events::{self, Verdict, check_edit};
use centre_events::answer::Answer;
use centre_events::event::Event;
use centre_events::refusal::Refusal;
use centre_events::settings::Settings;
use centre_lines::reached::{Reached, reached_by_edit, reached_by_other};
use centre_past::kept::Kept;
use centre_past::telling::{tell_known, tell_lines};
use coverage_plan::Edit;
use std::alloc::Global;

/// Makes room for one more entry in the journal.
fn make_room(journal: &mut Journal) -> Result<(), Refusal>
    ensures folded { journal.new.folded ≡ journal.old.folded }
    ensures entries { journal.new.entries ≡ journal.old.entries }
    ensures unread { journal.new.reads ≡ journal.old.reads }
    ensures room { OnOk result (1 ≤ journal.new.room) }
    ensures refusal { IfErr result (λ r. r ≡ Refusal.Memory) }
{
    journal.make_room()?;
    Ok(())
}

/// Whether the edit is accepted after the entries of the journal, with these settings. Lines are read for an Update alone.
#[tactic(auto, using(centre_past::proofs::ReadLemmas::reads_none))]
fn look_at_edit(
    settings: Settings,
    journal: &Journal,
    kept: &mut Kept,
    edit: &Edit,
) -> Result<(), Refusal>
    ensures few { OnOk result (length journal.now.entries < settings.limit) }
    ensures number { OnOk result (length journal.now.folded + length journal.now.entries < 2 ^ 64 - 1) }
    ensures verdict { IsWhole settings.network journal.now.folded journal.now.entries kept.old → IsChecked (verdict settings (past_over journal.now.folded journal.now.entries) (event.Edit edit.now)) result }
    ensures reads { OnlyReadsIn kept.old kept.new }
    ensures meter { IsWhole settings.network journal.now.folded journal.now.entries kept.old → kept.new.tables.lines.meter ≤ kept.old.tables.lines.meter + size (edit_reach (past_of (journal.now.folded ++ journal.now.entries)) edit.now) }
{
    if journal.is_full(settings.limit) {
        return Err(Refusal::JournalFull);
    }
    check_edit(kept, edit)
}

/// Looks whether the edit is accepted after the entries of the journal, with these settings, makes room for one more entry,
/// and reads the lines on which it bears.
pub(crate) fn prepare_edit(
    alloc: Global,
    settings: Settings,
    journal: &mut Journal,
    kept: &mut Kept,
    edit: &Edit,
) -> Result<Reached, Refusal>
    ensures folded { journal.new.folded ≡ journal.old.folded }
    ensures entries { journal.new.entries ≡ journal.old.entries }
    ensures unread { journal.new.reads ≡ journal.old.reads }
    ensures room { OnOk result (1 ≤ journal.new.room) }
    ensures few { OnOk result (length journal.old.entries < settings.limit) }
    ensures number { OnOk result (length journal.old.folded + length journal.old.entries < 2 ^ 64 - 1) }
    ensures reads { OnlyReadsIn kept.old kept.new }
    ensures accepted { IsWhole settings.network journal.old.folded journal.old.entries kept.old → OnOk result (IsOk (verdict settings (past_over journal.old.folded journal.old.entries) (event.Edit edit.now))) }
    ensures refusal { IsWhole settings.network journal.old.folded journal.old.entries kept.old → IfErr result (IsRefused settings (past_over journal.old.folded journal.old.entries) (event.Edit edit.now)) }
    ensures reached { IsWhole settings.network journal.old.folded journal.old.entries kept.old → (a : answer_spec.Answer) → verdict settings (past_over journal.old.folded journal.old.entries) (event.Edit edit.now) ≡ Ok a → IfOk result (λ x. WasReached (past_of (journal.old.folded ++ journal.old.entries)) (event.Edit edit.now) a x.spots.items x.lines) }
    ensures meter { IsWhole settings.network journal.old.folded journal.old.entries kept.old → kept.new.tables.lines.meter ≤ kept.old.tables.lines.meter + 3 * size (edit_reach (past_over journal.old.folded journal.old.entries) edit.now) }
{
    look_at_edit(settings, journal, kept, edit)?;
    make_room(journal)?;
    let reached = reached_by_edit(alloc, kept, edit)?;
    Ok(reached)
}

/// What an event that is no edit is answered after the entries of the journal, with these settings. Lines are read for an
/// Ask alone.
#[tactic(auto, using(centre_past::proofs::ReadLemmas::reads_none))]
fn look_at_other(
    alloc: Global,
    settings: Settings,
    journal: &Journal,
    kept: &mut Kept,
    event: &Event,
) -> Verdict
    requires other { is_edit event.now ≡ false }
    ensures few { OnOk result (length journal.now.entries < settings.limit) }
    ensures number { OnOk result (length journal.now.folded + length journal.now.entries < 2 ^ 64 - 1) }
    ensures verdict { IsWhole settings.network journal.now.folded journal.now.entries kept.old → Gives (verdict settings (past_over journal.now.folded journal.now.entries) event.now) result }
    ensures reads { OnlyReadsIn kept.old kept.new }
    ensures meter { IsWhole settings.network journal.now.folded journal.now.entries kept.old → kept.new.tables.lines.meter ≤ kept.old.tables.lines.meter + looked_at (past_of (journal.now.folded ++ journal.now.entries)) event.now }
{
    tell_lines(kept.tables.lines());
    tell_known();
    if journal.is_full(settings.limit) {
        return Err(Refusal::JournalFull);
    }
    let place = journal.position() + 1;
    events::answer(alloc, settings.network, kept, place, event)
}

/// What is found of an event before it is entered.
#[derive(Drop)]
pub(crate) struct Found {
    pub(crate) answer: Answer,
    pub(crate) reached: Reached,
}

/// Makes room for one more entry, and finds on which lines an event bears that is no edit, and that is answered so.
fn reach_with_room(
    alloc: Global,
    journal: &mut Journal,
    kept: &Kept,
    event: &Event,
    answer: &Answer,
) -> Result<Reached, Refusal>
    requires other { is_edit event.now ≡ false }
    ensures folded { journal.new.folded ≡ journal.old.folded }
    ensures entries { journal.new.entries ≡ journal.old.entries }
    ensures unread { journal.new.reads ≡ journal.old.reads }
    ensures room { OnOk result (1 ≤ journal.new.room) }
    ensures refusal { IfErr result (λ r. r ≡ Refusal.Memory) }
    ensures reached { (settings : Settings) (past : Past) → Legal settings past → IsKept past kept.now → answered settings.network past event.now ≡ Ok answer.now → IfOk result (λ x. WasReached past event.now answer.now x.spots.items x.lines) }
{
    make_room(journal)?;
    let reached = reached_by_other(alloc, kept, event, answer)?;
    Ok(reached)
}

/// Finds what an event that is no edit is answered after the entries of the journal, with these settings, makes room for one
/// more entry, and finds on which lines it bears. Lines are read for an Ask alone.
pub(crate) fn prepare_other(
    alloc: Global,
    settings: Settings,
    journal: &mut Journal,
    kept: &mut Kept,
    event: &Event,
) -> Result<Found, Refusal>
    requires other { is_edit event.now ≡ false }
    ensures folded { journal.new.folded ≡ journal.old.folded }
    ensures entries { journal.new.entries ≡ journal.old.entries }
    ensures unread { journal.new.reads ≡ journal.old.reads }
    ensures room { OnOk result (1 ≤ journal.new.room) }
    ensures few { OnOk result (length journal.old.entries < settings.limit) }
    ensures number { OnOk result (length journal.old.folded + length journal.old.entries < 2 ^ 64 - 1) }
    ensures reads { OnlyReadsIn kept.old kept.new }
    ensures verdict { IsWhole settings.network journal.old.folded journal.old.entries kept.old → IfOk result (λ x. verdict settings (past_over journal.old.folded journal.old.entries) event.now ≡ Ok x.answer) }
    ensures refusal { IsWhole settings.network journal.old.folded journal.old.entries kept.old → IfErr result (IsRefused settings (past_over journal.old.folded journal.old.entries) event.now) }
    ensures reached { IsWhole settings.network journal.old.folded journal.old.entries kept.old → IfOk result (λ x. WasReached (past_of (journal.old.folded ++ journal.old.entries)) event.now x.answer x.reached.spots.items x.reached.lines) }
    ensures meter { IsWhole settings.network journal.old.folded journal.old.entries kept.old → kept.new.tables.lines.meter ≤ kept.old.tables.lines.meter + looked_at (past_of (journal.old.folded ++ journal.old.entries)) event.now }
{
    let answer = look_at_other(alloc, settings, journal, kept, event)?;
    let reached = reach_with_room(alloc, journal, kept, event, &answer);
    match reached {
        Ok(reached) => Ok(Found { answer, reached }),
        Err(refusal) => {
            drop(answer);
            Err(refusal)
        }
    }
}
