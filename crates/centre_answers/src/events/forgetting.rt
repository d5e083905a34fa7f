//! What keeps a stopped warning in the book that is to be forgotten.

ghost use Rattle.std.specs.Prelude.{◌≡◌, Some, None, false};
ghost use Rattle.std.specs.Option.{option_copied};
ghost use Rattle.common.specs.Checks.{first_refusal};
ghost use Rattle.coverage_plan.specs.declared.edit.Edit.TheVariants as edit;
ghost use Rattle.kept_tables.specs.Consistent.{Consistent};
ghost use Rattle.warning_book.specs.Book.{warning_of};
ghost use Rattle.warning_book.specs.Checks.{forget_checks};
ghost use Rattle.centre_answers.specs.Reused.{IsFirst};
ghost use Rattle.centre_past.specs.Links.{AreLinksOf};
ghost use Rattle.centre_events.specs.Kept.{IsRegisterOf};
ghost use Rattle.centre_events.specs.Past.{Past};
ghost use Rattle.centre_events.specs.Reported.{is_reported, flight_names, is_in_flight};
ghost use Rattle.centre_events.specs.Verdict.{idle_checks};
ghost use Rattle.centre_events.specs.Warnings.{book_of};
ghost use Rattle.centre_events.specs.declared.settings.Settings.{Settings};
ghost use Rattle.centre_past.specs.EditCauses.{IsPlanOf, own_causes};
ghost use Rattle.centre_past.specs.Facts.{facts};
ghost use Rattle.centre_past.specs.Idle.{is_flying};
ghost use Rattle.centre_past.specs.Legal.{Legal};

use cell_register::{BscId, Register};
use centre_events::in_flight::InFlight;
use centre_events::naming::names_one;
use centre_events::refusal::Refusal;
use centre_events::replying::id_of;
use centre_past::kept_links::KeptLinks;
use centre_past::links::flight_in;
use coverage_plan::Plan;
use kept_tables::KeptTables;
use warning_book::{Warning, WarningId};

/// Whether a version of the warning is on air anywhere, or may be. The warning isn't active, so none of its versions is
/// wanted, and the board counts each line on which one is on air, or may be, as left.
#[tactic(auto, using(crate::proofs::IdleLemmas::left_reported))]
fn is_reported(tables: &KeptTables, w: &Warning) -> bool
    ensures { (settings : Settings) (past : Past) → Legal settings past → Consistent tables.now (facts past) → warning_of (book_of past) w.now.number ≡ Some w.now → w.now.active ≡ false → result ≡ is_reported past w.now }
{
    tables.total(w.number()).left > 0
}

/// Whether what is in flight, if anything is, names a version of the warning.
fn flight_names(flight: Option<&InFlight>, w: &Warning) -> bool
    ensures { result ≡ flight_names w.now (option_copied flight.entry) }
{
    match flight {
        Some(flight) => id_of(flight) == w.message_id() && names_one(flight, w.versions()),
        None => false,
    }
}

/// Whether what is in flight to one of the BSCs does.
fn is_flying(links: &KeptLinks, w: &Warning, bscs: &[BscId]) -> bool
    ensures { result ≡ is_flying links.now w.now bscs.now }
{
    bscs.iter()
        .any(|bsc| flight_names(flight_in(links, *bsc), w))
}

/// Whether what is in flight anywhere does.
#[tactic(auto, using(crate::proofs::IdleLemmas::flying_is))]
fn is_in_flight(register: &Register, links: &KeptLinks, w: &Warning) -> bool
    ensures { (settings : Settings) (past : Past) → Legal settings past → IsRegisterOf past register.now → AreLinksOf past links.now → result ≡ is_in_flight past w.now }
{
    is_flying(links, w, register.bscs())
}

/// Whether nothing of the warning, which isn't active, is on air or in flight.
fn check_idle(
    register: &Register,
    links: &KeptLinks,
    tables: &KeptTables,
    w: &Warning,
) -> Result<(), Refusal>
    ensures { (settings : Settings) (past : Past) → Legal settings past → IsRegisterOf past register.now → AreLinksOf past links.now → Consistent tables.now (facts past) → warning_of (book_of past) w.now.number ≡ Some w.now → w.now.active ≡ false → IsFirst (idle_checks past w.now) result }
{
    if is_reported(tables, w) {
        return Err(Refusal::StillReported);
    }
    if is_in_flight(register, links, w) {
        return Err(Refusal::StillInFlight);
    }
    Ok(())
}

/// Whether nothing keeps in the book a warning that the book would let go of: nothing of it is on air or in flight. No line
/// is read, and no memory is taken.
pub(crate) fn check_forget(
    plan: &Plan,
    links: &KeptLinks,
    tables: &KeptTables,
    number: WarningId,
) -> Result<(), Refusal>
    ensures { (settings : Settings) (past : Past) → Legal settings past → IsPlanOf past plan.now → AreLinksOf past links.now → Consistent tables.now (facts past) → first_refusal (forget_checks plan.now.book number) ≡ None → IsFirst (own_causes past (edit.Forget number)) result }
{
    plan.tell_soundness();
    let Some(warning) = plan.book().find(number) else {
        return Ok(());
    };
    check_idle(plan.register(), links, tables, warning)
}
