//! The warnings on whose lines an event bears.

ghost use Rattle.std.specs.Prelude.{◌≡◌, ◌+◌, ◌<◌, ◌∷◌, [], ℕ, filter, map, Ok, IfOk};
ghost use Rattle.std.specs.Option.{option_copied};
ghost use Rattle.centre_events.specs.InFlight.{in_flight};
ghost use Rattle.centre_events.specs.Past.{Past};
ghost use Rattle.centre_past.specs.Reach.{flight_reach, edit_reach, report_reach, reach_of};
ghost use Rattle.centre_events.specs.Links.{bsc_of};
ghost use Rattle.centre_past.specs.Reaching.{IsFlightOf};
ghost use Rattle.centre_events.specs.Reported.{names_warning};
ghost use Rattle.centre_events.specs.Verdict.{edit_answered};
ghost use Rattle.centre_events.specs.Warnings.{book_of};
ghost use Rattle.centre_events.specs.declared.answer.Answer.{Answer};

use centre_events::answer::Answer;
use centre_events::event::Event;
use centre_events::in_flight::InFlight;
use centre_events::naming::names_one;
use centre_events::replying::id_of;
use coverage_plan::Edit;
use std::alloc::{AllocError, Global};
use warning_book::{Book, Warning, WarningId};

/// The number that the next warning gets, while one is left.
fn next_number(book: &Book) -> WarningId
    ensures { book.now.issued < 4294967295 → result ≡ book.now.issued + 1 }
{
    WarningId::new(book.issued().saturating_add(1))
}

/// A list of this number alone.
fn only(alloc: Global, number: WarningId) -> Result<Vec<WarningId>, AllocError>
    ensures { IfOk result (λ numbers. numbers.items ≡ number ∷ []) }
{
    let mut numbers = Vec::new(alloc);
    numbers.push(number)?;
    Ok(numbers)
}

/// The numbers of the warnings on whose lines an edit bears.
pub(crate) fn of_edit(alloc: Global, book: &Book, edit: &Edit) -> Result<Vec<WarningId>, AllocError>
    ensures { (past : Past) (a : Answer) → book.now ≡ book_of past → edit_answered past edit.now ≡ Ok a → IfOk result (λ numbers. numbers.items ≡ (edit_reach past edit.now).warnings) }
{
    let numbers = match edit {
        Edit::RemoveBsc(_) | Edit::AddCell(_, _) | Edit::MoveCell(_, _) | Edit::RemoveCell(_) =>
            book.warnings()?,
        Edit::Put(a, _) | Edit::Cut(a, _) => book.naming(a)?,
        Edit::Issue(_, _) => only(alloc, next_number(book))?,
        Edit::Update(n, _)
        | Edit::Widen(n, _)
        | Edit::Narrow(n, _)
        | Edit::Stop(n)
        | Edit::Forget(n) => only(alloc, *n)?,
        Edit::AddBsc(_) | Edit::AddArea(_) | Edit::DropArea(_) => Vec::new(alloc),
    };
    Ok(numbers)
}

/// Whether it names a version of the warning.
fn names_warning(flight: &InFlight, w: &Warning) -> bool
    ensures { result ≡ names_warning flight.now w.now }
{
    id_of(flight) == w.message_id() && names_one(flight, w.versions())
}

/// The numbers of the warnings of which what is in flight names a version.
fn named(
    alloc: Global,
    warnings: &[Warning],
    flight: &InFlight,
) -> Result<Vec<WarningId>, AllocError>
    ensures { IfOk result (λ numbers. numbers.items ≡ map (λ w. w.number) (filter (names_warning flight.now) warnings.now)) }
{
    let mut numbers = Vec::new(alloc);
    for warning in warnings {
        if names_warning(flight, warning) {
            numbers.push(warning.number())?;
        }
    }
    Ok(numbers)
}

/// Those that what is in flight to a BSC names, if anything is.
fn of_flight(
    alloc: Global,
    book: &Book,
    flight: Option<&InFlight>,
) -> Result<Vec<WarningId>, AllocError>
    ensures { (past : Past) (b : ℕ) → book.now ≡ book_of past → IfOk result (λ numbers. numbers.items ≡ (flight_reach past b (option_copied flight.entry)).warnings) }
{
    let numbers = match flight {
        Some(flight) => named(alloc, book.as_slice(), flight)?,
        None => Vec::new(alloc),
    };
    Ok(numbers)
}

/// Those of a report that was answered so: a reply bears on what was in flight, an indication on all warnings.
fn of_report(
    alloc: Global,
    book: &Book,
    answer: &Answer,
    flight: Option<&InFlight>,
) -> Result<Vec<WarningId>, AllocError>
    ensures { (past : Past) (b : ℕ) → book.now ≡ book_of past → option_copied flight.entry ≡ in_flight past b → IfOk result (λ numbers. numbers.items ≡ (report_reach past b answer.now).warnings) }
{
    let numbers = match answer {
        Answer::Replied(_) => of_flight(alloc, book, flight)?,
        Answer::Listed(_) => book.warnings()?,
        _ => Vec::new(alloc),
    };
    Ok(numbers)
}

/// The numbers of the warnings on whose lines an event bears that is no edit.
pub(crate) fn of_event(
    alloc: Global,
    book: &Book,
    event: &Event,
    answer: &Answer,
    flight: Option<&InFlight>,
) -> Result<Vec<WarningId>, AllocError>
    ensures { (past : Past) → book.now ≡ book_of past → IsFlightOf past (bsc_of event.now) (option_copied flight.entry) → IfOk result (λ numbers. numbers.items ≡ (reach_of past event.now answer.now).warnings) }
{
    let numbers = match event {
        Event::Retry(_) => book.warnings()?,
        Event::LinkUp(_) | Event::LinkDown(_, _) => of_flight(alloc, book, flight)?,
        Event::Report(_, _, _) => of_report(alloc, book, answer, flight)?,
        Event::Send(_, _) | Event::Ask(_, _, _, _) | Event::Edit(_) => Vec::new(alloc),
    };
    Ok(numbers)
}
