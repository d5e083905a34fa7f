//! What an office counted, as a picture has it.

ghost use Rattle.std.specs.Prelude.{◌≡◌, map, IfOk};
ghost use Rattle.office_picture.specs.Pictures.{all_causes, all_kinds, entry_tally, refusal_tally};
ghost use Rattle.office_picture.specs.Pictures as pictures;

use centre_events::refusal::{Limit, Refusal};
use common::Name;
use console_text::answer_text::refusal_name;
use office::counts::Counts;
use office::event_kind::EventKind;
use status_figures::{Tallies, Tally};
use std::alloc::{AllocError, Global};

/// Every cause of a refusal, with any number in it.
const CAUSES: [Refusal; 36] = [
    Refusal::Stale,
    Refusal::JournalFull,
    Refusal::NoSuchBsc,
    Refusal::BscExists,
    Refusal::BscHasCells,
    Refusal::LinkIsUp,
    Refusal::CellExists,
    Refusal::NoSuchCell,
    Refusal::SameBsc,
    Refusal::BadName,
    Refusal::AreaExists,
    Refusal::NoSuchArea,
    Refusal::AreaInUse,
    Refusal::SelectorThere,
    Refusal::SelectorNotThere,
    Refusal::NoSuchWarning,
    Refusal::NotActive,
    Refusal::StillActive,
    Refusal::StillReported,
    Refusal::StillInFlight,
    Refusal::NoAreas,
    Refusal::AreaThere,
    Refusal::AreaNotThere,
    Refusal::LastArea,
    Refusal::BadPages,
    Refusal::BadPeriod,
    Refusal::WrongKind,
    Refusal::StaleLink { now: 0 },
    Refusal::LinkNotUp,
    Refusal::InFlight,
    Refusal::NothingPending,
    Refusal::NothingToAsk,
    Refusal::NoOrder,
    Refusal::Limit { which: Limit::Bscs },
    Refusal::Memory,
    Refusal::WrongDesk { position: 0 },
];

fn tally(alloc: Global, name: &str, count: u64) -> Result<Tally, AllocError>
    ensures { IfOk result (λ tally. tally ≡ pictures.tally name.now count) }
{
    let name = Name::from_vec(Vec::from_slice(alloc, name.as_bytes())?);
    Ok(Tally { name, count })
}

/// How many events of each of these kinds were entered.
fn entries_of(alloc: Global, counts: &Counts, kinds: &[EventKind]) -> Result<Tallies, AllocError>
    ensures { IfOk result (λ tallies. tallies ≡ map (entry_tally counts.now) kinds.now) }
{
    let mut tallies = Vec::new(alloc);
    for kind in kinds {
        tallies.push(tally(alloc, kind.name(), counts.entries(*kind))?)?;
    }
    Ok(Tallies::from_vec(tallies))
}

/// How many events and questions were refused for each of these causes.
fn refusals_of(alloc: Global, counts: &Counts, causes: &[Refusal]) -> Result<Tallies, AllocError>
    ensures { IfOk result (λ tallies. tallies ≡ map (refusal_tally counts.now) causes.now) }
{
    let mut tallies = Vec::new(alloc);
    for cause in causes {
        tallies.push(tally(alloc, refusal_name(*cause), counts.refusals(*cause))?)?;
    }
    Ok(Tallies::from_vec(tallies))
}

/// How many events of each kind were entered.
pub(crate) fn entries(alloc: Global, counts: &Counts) -> Result<Tallies, AllocError>
    ensures { IfOk result (λ tallies. tallies ≡ map (entry_tally counts.now) all_kinds) }
{
    entries_of(alloc, counts, &EventKind::ALL)
}

/// How many events and questions were refused for each cause.
pub(crate) fn refusals(alloc: Global, counts: &Counts) -> Result<Tallies, AllocError>
    ensures { IfOk result (λ tallies. tallies ≡ map (refusal_tally counts.now) all_causes) }
{
    refusals_of(alloc, counts, &CAUSES)
}
