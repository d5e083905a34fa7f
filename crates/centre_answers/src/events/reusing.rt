//! Whether an Update is accepted, also one that takes a serial number that a version of its warning has. Whether that
//! version is on air is looked for in the lines, since its BSCs may have it in cells that are registered nowhere.

ghost use Rattle.std.specs.Prelude.{◌≡◌, ◌≤◌, ◌+◌, true, length, IfSome};
ghost use Rattle.std.specs.List.{list_any};
ghost use Rattle.std.specs.Option.{is_some, option_copied};
ghost use Rattle.cell_register.specs.Register.{State};
ghost use Rattle.kept_tables.specs.Consistent.{Consistent};
ghost use Rattle.warning_book.specs.Book.{has_serial, warning_of};
ghost use Rattle.centre_answers.specs.Reused.{IsFirst, is_key_flying, key_checks, most_read, reuse_checks, reused_of};
ghost use Rattle.centre_past.specs.Links.{AreLinksOf};
ghost use Rattle.centre_events.specs.Kept.{IsChecked, IsRegisterOf};
ghost use Rattle.centre_events.specs.Past.{Past};
ghost use Rattle.centre_events.specs.Reported.{is_key_in_flight, is_key_reported, names_version};
ghost use Rattle.centre_events.specs.Verdict.{update};
ghost use Rattle.centre_events.specs.Warnings.{book_of};
ghost use Rattle.centre_events.specs.declared.settings.Settings.{Settings};
ghost use Rattle.centre_past.specs.Facts.{facts};
ghost use Rattle.centre_past.specs.Idle.{AreKnownOf, OnlyReads};
ghost use Rattle.centre_past.specs.Legal.{Legal};
ghost use Rattle.centre_past.specs.Reach.{known_anywhere, wraps};

use cell_register::{BscId, Register};
use centre_events::in_flight::InFlight;
use centre_events::naming::names_serial;
use centre_events::refusal::Refusal;
use centre_events::replying::id_of;
use centre_past::kept_links::KeptLinks;
use centre_past::links::flight_in;
use centre_past::telling::tell_lines;
use kept_tables::KeptTables;
use serials::Serial;
use warning_book::{Book, Content, Warning, WarningId};

/// Whether a version of the warning has that serial number.
fn has_serial(w: &Warning, serial: Serial) -> bool
    ensures { result ≡ list_any (has_serial serial) w.now.versions }
{
    w.versions().iter().any(|version| version.serial == serial)
}

/// The serial number of the warning's next version, where a version of the warning has it.
fn reused(w: &Warning) -> Option<Serial>
    ensures which { result ≡ reused_of w.now }
    ensures there { IfSome result (λ s. list_any (has_serial s) w.now.versions ≡ true) }
{
    let Some(serial) = w.serial() else {
        return None;
    };
    let next = serial.next();
    if has_serial(w, next) {
        return Some(next);
    }
    None
}

/// Whether the version of that serial number is on air anywhere, or may be. Each line of the warning that is read is
/// counted.
fn is_key_reported(tables: &mut KeptTables, w: &Warning, serial: Serial) -> bool
    ensures which { (settings : Settings) (past : Past) → Legal settings past → Consistent tables.old (facts past) → warning_of (book_of past) w.now.number ≡ Some w.now → list_any (has_serial serial) w.now.versions ≡ true → result ≡ is_key_reported past w.now.message_id serial }
    ensures reads { OnlyReads tables.old tables.new }
    ensures meter { (settings : Settings) (past : Past) (r : State) → Legal settings past → AreKnownOf past tables.old.lines r → tables.new.lines.meter ≤ tables.old.lines.meter + length (known_anywhere past) }
{
    tell_lines(tables.lines());
    tables.is_present_anywhere(w.number(), serial)
}

/// Whether what is in flight, if anything is, names the version of that message identifier and serial number.
fn names_version(flight: Option<&InFlight>, message_id: u16, serial: Serial) -> bool
    ensures { result ≡ names_version (option_copied flight.entry) message_id serial }
{
    match flight {
        Some(flight) => id_of(flight) == message_id && names_serial(flight, serial),
        None => false,
    }
}

/// Whether what is in flight to one of the BSCs does.
fn is_key_flying(links: &KeptLinks, message_id: u16, serial: Serial, bscs: &[BscId]) -> bool
    ensures { result ≡ is_key_flying links.now message_id serial bscs.now }
{
    bscs.iter().any(|bsc| names_version(flight_in(links, *bsc), message_id, serial))
}

/// Whether what is in flight anywhere does.
#[tactic(auto, using(crate::proofs::ReuseLemmas::key_flying))]
fn is_key_in_flight(register: &Register, links: &KeptLinks, message_id: u16, serial: Serial) -> bool
    ensures { (settings : Settings) (past : Past) → Legal settings past → IsRegisterOf past register.now → AreLinksOf past links.now → result ≡ is_key_in_flight past message_id serial }
{
    is_key_flying(links, message_id, serial, register.bscs())
}

/// Whether the version of that serial number may leave the book: nothing of it is on air or in flight.
fn check_key(
    register: &Register,
    links: &KeptLinks,
    tables: &mut KeptTables,
    w: &Warning,
    serial: Serial,
) -> Result<(), Refusal>
    ensures first { (settings : Settings) (past : Past) → Legal settings past → IsRegisterOf past register.now → AreLinksOf past links.now → Consistent tables.old (facts past) → warning_of (book_of past) w.now.number ≡ Some w.now → list_any (has_serial serial) w.now.versions ≡ true → IsFirst (key_checks past w.now.message_id (Some serial)) result }
    ensures reads { OnlyReads tables.old tables.new }
    ensures meter { (settings : Settings) (past : Past) (r : State) → Legal settings past → AreKnownOf past tables.old.lines r → tables.new.lines.meter ≤ tables.old.lines.meter + length (known_anywhere past) }
{
    if is_key_reported(tables, w, serial) {
        return Err(Refusal::StillReported);
    }
    if is_key_in_flight(register, links, w.message_id(), serial) {
        return Err(Refusal::StillInFlight);
    }
    Ok(())
}

/// Whether the version may leave the book whose serial number the warning's next version takes. Where there is none, no
/// line is read.
fn check_warning(
    register: &Register,
    links: &KeptLinks,
    tables: &mut KeptTables,
    w: &Warning,
) -> Result<(), Refusal>
    ensures first { (settings : Settings) (past : Past) → Legal settings past → IsRegisterOf past register.now → AreLinksOf past links.now → Consistent tables.old (facts past) → warning_of (book_of past) w.now.number ≡ Some w.now → IsFirst (key_checks past w.now.message_id (reused_of w.now)) result }
    ensures reads { OnlyReads tables.old tables.new }
    ensures meter { (settings : Settings) (past : Past) (r : State) → Legal settings past → AreKnownOf past tables.old.lines r → tables.new.lines.meter ≤ tables.old.lines.meter + most_read past (is_some (reused_of w.now)) }
{
    let Some(serial) = reused(w) else {
        return Ok(());
    };
    check_key(register, links, tables, w, serial)
}

/// The same of the warning of that number, if it is in the book.
fn check_reused(
    register: &Register,
    book: &Book,
    links: &KeptLinks,
    tables: &mut KeptTables,
    number: WarningId,
) -> Result<(), Refusal>
    ensures first { (settings : Settings) (past : Past) → Legal settings past → IsRegisterOf past register.now → book.now ≡ book_of past → AreLinksOf past links.now → Consistent tables.old (facts past) → IsFirst (reuse_checks past number) result }
    ensures reads { OnlyReads tables.old tables.new }
    ensures meter { (settings : Settings) (past : Past) (r : State) → Legal settings past → book.now ≡ book_of past → AreKnownOf past tables.old.lines r → tables.new.lines.meter ≤ tables.old.lines.meter + most_read past (wraps past number) }
{
    book.tell_soundness();
    let Some(warning) = book.find(number) else {
        return Ok(());
    };
    check_warning(register, links, tables, warning)
}

/// Whether an Update is accepted: the warning is active, nothing is on air or in flight of a version that has the serial
/// number of the next, and the content is good. Lines are read only where a version has that serial number, and no memory
/// is taken.
pub(crate) fn check_update(
    register: &Register,
    book: &Book,
    links: &KeptLinks,
    tables: &mut KeptTables,
    number: WarningId,
    content: &Content,
) -> Result<(), Refusal>
    ensures checked { (settings : Settings) (past : Past) → Legal settings past → IsRegisterOf past register.now → book.now ≡ book_of past → AreLinksOf past links.now → Consistent tables.old (facts past) → IsChecked (update past number content.now) result }
    ensures reads { OnlyReads tables.old tables.new }
    ensures meter { (settings : Settings) (past : Past) (r : State) → Legal settings past → book.now ≡ book_of past → AreKnownOf past tables.old.lines r → tables.new.lines.meter ≤ tables.old.lines.meter + most_read past (wraps past number) }
{
    book.check_active(number)?;
    check_reused(register, book, links, tables, number)?;
    book.check_content(number, content)?;
    Ok(())
}
