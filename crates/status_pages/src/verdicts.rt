//! How a centre stands.

ghost use Rattle.std.specs.Prelude.{◌≡◌};
ghost use Rattle.status_pages.specs.Pages.{counted, has_no_bsc, has_some, has_wrong, verdict_class, verdict_of, verdict_text, verdict_word};

use crate::standing::Standing;
use crate::standings::{count_bscs, count_needing_look, count_urgent, count_warnings};
use crate::verdict::Verdict;
use status_figures::{Health, Picture, health_of};

/// How a centre that is whole stands.
fn counted(wrong: bool, empty: bool, busy: bool) -> Verdict
    ensures { result ≡ counted wrong empty busy }
{
    match (wrong, empty, busy) {
        (true, _, _) => Verdict::SomeWrong,
        (false, true, _) => Verdict::IsEmpty,
        (false, false, true) => Verdict::SomeUnderWay,
        (false, false, false) => Verdict::AllInOrder,
    }
}

fn has_some(picture: &Picture, standing: Standing) -> bool
    ensures { result ≡ has_some picture.now standing }
{
    count_warnings(picture, standing) != 0
        || count_bscs(picture.taken, standing, picture.bscs.as_slice()) != 0
}

/// Whether somebody has to look at some warning or at some BSC.
fn has_wrong(picture: &Picture) -> bool
    ensures { result ≡ has_wrong picture.now }
{
    count_urgent(picture) != 0 || count_needing_look(picture.taken, picture.bscs.as_slice()) != 0
}

fn has_no_bsc(picture: &Picture) -> bool
    ensures { result ≡ has_no_bsc picture.now }
{
    picture.bscs.as_slice().len() == 0
}

pub(crate) fn verdict_of(picture: &Picture) -> Verdict
    ensures { result ≡ verdict_of picture.now }
{
    match health_of(picture) {
        Health::Stale | Health::StaleAndFull => Verdict::IsStale,
        Health::JournalFull => Verdict::IsFull,
        Health::Whole => counted(
            has_wrong(picture),
            has_no_bsc(picture),
            has_some(picture, Standing::UnderWay),
        ),
    }
}

pub(crate) fn class(verdict: Verdict) -> &'static str
    ensures { result.now ≡ verdict_class verdict }
{
    match verdict {
        Verdict::IsStale | Verdict::IsFull | Verdict::SomeWrong => "bad",
        Verdict::IsEmpty | Verdict::SomeUnderWay => "busy",
        Verdict::AllInOrder => "good",
    }
}

pub(crate) fn word(verdict: Verdict) -> &'static str
    ensures { result.now ≡ verdict_word verdict }
{
    match verdict {
        Verdict::IsStale => "STALE",
        Verdict::IsFull => "JOURNAL FULL",
        Verdict::SomeWrong => "ATTENTION",
        Verdict::IsEmpty => "NO BSCS",
        Verdict::SomeUnderWay => "UNDER WAY",
        Verdict::AllInOrder => "ALL IN ORDER",
    }
}

/// What there is to do.
pub(crate) fn advice(verdict: Verdict) -> &'static str
    ensures { result.now ≡ verdict_text verdict }
{
    match verdict {
        Verdict::IsStale => {
            "The centre is stale. It does not know what is on air. Type rebuild at a console."
        }
        Verdict::IsFull => "The journal is full. No event is taken. Type checkpoint at a console.",
        Verdict::SomeWrong => "Somebody has to look:",
        Verdict::IsEmpty => "No BSC is registered. The centre knows nothing of what is on air.",
        Verdict::SomeUnderWay => {
            "No link and no cell is down, and no warning failed in any cell. If this stays, look at what is awaited or left."
        }
        Verdict::AllInOrder => {
            "Every link is up, no cell is down, no warning failed in any cell, and no order is to come."
        }
    }
}
