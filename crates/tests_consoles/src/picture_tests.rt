//! What no clause says of a survey and of a picture: that they are made where memory is ample, and have what an office counted.

ghost use Rattle.std.specs.Prelude.{◌≡◌};

use crate::checks::{same, yes};
use crate::given_office::{first_bsc, linked};
use centre_events::event::Event;
use centre_events::refusal::Refusal;
use coverage_plan::Edit;
use office::desk::Desk;
use office::office::Office;
use office_picture::{Moments, picture};
use status_figures::{Picture, Tallies};
use std::alloc::Global;
use std::marker::Brand;
use std::process::Abort;
use std::sync::Wait;
use std::sync::ledger::{Blank, Ledger};

/// All that was counted, whatever its name.
fn sum(tallies: &Tallies) -> u64 {
    let mut sum = 0u64;
    for tally in tallies.as_slice() {
        sum = sum.saturating_add(tally.count);
    }
    sum
}

/// The picture of an office now.
fn pictured<L: Ledger, R: Wait + Abort>(rt: &R, alloc: Global, office: &Office<L>) -> Picture {
    let surveyed = office.survey(rt).expect(rt, "memory for a survey");
    let moments = Moments {
        taken: 0,
        begun: 0,
        sinces: Vec::new(alloc),
        resets: Vec::new(alloc),
        ends: Vec::new(alloc),
        downs: Vec::new(alloc),
        airs: Vec::new(alloc),
        kept: None,
        memory: None,
    };
    picture(alloc, surveyed, &moments).expect(rt, "memory for a picture")
}

/// It has one BSC, one warning, six events with their receipts, and one refusal.
fn has_all(rt: &impl Abort, picture: &Picture) {
    yes(rt, picture.status.entries == 6, "the entries");
    yes(rt, picture.bscs.as_slice().len() == 1, "the BSCs");
    yes(rt, picture.warnings.as_slice().len() == 1, "the warnings");
    yes(rt, picture.receipts == 6, "the receipts");
    yes(rt, sum(&picture.entries) == 6, "the events");
    yes(rt, sum(&picture.refusals) == 1, "the refusals");
}

/// An event of the desk is refused.
fn is_refused<L: Ledger, R: Wait + Abort>(rt: &R, office: &Office<L>, desk: &mut Desk<L>) {
    let again = Event::Edit(Edit::AddBsc(first_bsc(rt)));
    let refused = office.submit(rt, desk, again).err();
    same(rt, refused, Some(Refusal::BscExists), "the same BSC");
}

fn calls<L: Ledger, R: Wait + Abort>(rt: &R, alloc: Global, blank: Blank)
    requires name { blank.name ≡ L.name }
    requires parts { blank.parts ≡ L.parts }
    requires desks { blank.parts ≡ 1025 }
{
    let (office, mut desk) = linked::<L, _>(rt, alloc, blank, 1000);
    is_refused(rt, &office, &mut desk);
    let picture = pictured(rt, alloc, &office);
    has_all(rt, &picture);
    drop(picture);
}

#[test]
fn every_call_answers(rt: HostRuntime) {
    calls::<Brand, _>(&rt, rt.alloc(), Blank::new(1025));
}
