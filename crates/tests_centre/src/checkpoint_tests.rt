//! What no clause says of a checkpoint: that it succeeds, that places, numbers of warnings and generations of links go on
//! after it, and what is answered then, once more after a rebuild. With ample memory each checkpoint is made at once;
//! `rt try --test --fail-alloc N` refuses the Nth allocation of each test.

use crate::checks::{same, yes};
use crate::day::DAY;
use crate::stale_tests::{enters, is_whole, rebuilds};
use crate::steps::{COAST, Change, NETWORK, SEVEN, Step, bsc, event_of, refusal, takes};
use areas::Selector;
use centre_core::centre::Centre;
use centre_core::{Answer, Refusal, Serial};
use std::alloc::Global;
use std::process::Abort;

/// The body of a WRITE-REPLACE COMPLETE of the first version.
const COMPLETE: &[u8] = &[0x0e, 0x11, 0x12, 0x03, 0xc0, 0x00];

/// A warning in a cell of a BSC whose link is the sixth entry, and the order to write it there.
const SENT: [Step; 7] = [
    Step::Plan(Change::AddBsc(1)),
    Step::Plan(Change::AddCell(SEVEN, 1)),
    Step::Plan(Change::AddArea(COAST)),
    Step::Plan(Change::Put(COAST, Selector::Lac(100))),
    Step::Plan(Change::Issue),
    Step::LinkUp,
    Step::Send(6),
];

/// A checkpoint folds so many entries, at once or where memory ran out once, which leaves the centre as it was. Places go
/// on, and the entry of the last one isn't lent any more.
fn folds(rt: &impl Abort, centre: &mut Centre, count: u64, numbers: [u64; 6]) {
    let position = centre.position();
    let folded = match centre.checkpoint() {
        Err(Refusal::Memory) => {
            is_whole(rt, centre, bsc(rt, 1), numbers);
            centre.checkpoint()
        }
        folded => folded,
    };
    same(rt, folded, Ok(count), "the entries are folded");
    yes(rt, centre.position() == position, "places go on");
    yes(
        rt,
        centre.entry(position).is_none(),
        "no folded entry is lent",
    );
}

/// The centre refuses the event of the step so.
fn refuses(rt: &impl Abort, alloc: Global, centre: &mut Centre, step: Step, want: Refusal) {
    let event = event_of(rt, alloc, step);
    same(
        rt,
        refusal(centre, event),
        Some(want),
        "the event is refused",
    );
}

/// A journal of two entries.
#[test]
fn a_full_journal_has_room_after_a_checkpoint(rt: HostRuntime) {
    let alloc = rt.alloc();
    let mut centre = Centre::new(alloc, NETWORK, 2);
    let [first, second, third] = [1, 2, 3].map(|b| Step::Plan(Change::AddBsc(b)));
    takes(&rt, alloc, &mut centre, first);
    takes(&rt, alloc, &mut centre, second);
    yes(&rt, centre.is_full(), "the journal is full");
    refuses(&rt, alloc, &mut centre, third, Refusal::JournalFull);
    same(&rt, centre.checkpoint(), Ok(2), "two entries");
    yes(&rt, !centre.is_full(), "the journal has room");
    refuses(&rt, alloc, &mut centre, second, Refusal::BscExists);
    takes(&rt, alloc, &mut centre, third);
    yes(&rt, centre.position() == 3, "the third entry");
    same(&rt, centre.checkpoint(), Ok(1), "one entry");
    same(&rt, centre.checkpoint(), Ok(0), "no entry");
    drop(centre);
}

/// The entry at that place is answered with that serial number.
fn is_updated(rt: &impl Abort, centre: &mut Centre, place: u64, want: Serial) {
    let entry = centre.entry(place).expect(rt, "the entry is there");
    let is_so = match &entry.answer {
        Answer::Updated(serial) => *serial == want,
        _ => false,
    };
    yes(rt, is_so, "the serial number");
}

/// The order is answered over the link of the sixth entry after both were folded, the warning has its next version, and the
/// link goes down as the tenth entry.
#[test]
fn what_is_in_flight_is_answered_after_a_checkpoint(rt: HostRuntime) {
    let alloc = rt.alloc();
    let mut centre = Centre::new(alloc, NETWORK, 100);
    for step in SENT {
        takes(&rt, alloc, &mut centre, step);
    }
    folds(&rt, &mut centre, 7, [1, 0, 0, 0, 1, 0]);
    takes(&rt, alloc, &mut centre, Step::Report(6, 0x02, COMPLETE));
    is_whole(&rt, &mut centre, bsc(&rt, 1), [0, 1, 0, 0, 0, 1]);
    folds(&rt, &mut centre, 1, [0, 1, 0, 0, 0, 1]);
    takes(&rt, alloc, &mut centre, Step::Plan(Change::Update));
    is_updated(&rt, &mut centre, 9, Serial::from_u16(0xc001));
    takes(&rt, alloc, &mut centre, Step::LinkDown(6));
    yes(&rt, centre.position() == 10, "the tenth entry");
    drop(centre);
}

/// The centre is made anew from its base alone, at once or where memory ran out once.
fn is_made_anew(rt: &impl Abort, centre: &mut Centre, numbers: [u64; 6]) {
    if centre.rebuild().is_err() {
        is_whole(rt, centre, bsc(rt, 1), numbers);
        rebuilds(rt, centre);
    }
    is_whole(rt, centre, bsc(rt, 1), numbers);
}

/// Events of every kind, each of which is folded and followed by a rebuild.
#[test]
fn a_day_goes_on_over_checkpoints(rt: HostRuntime) {
    let alloc = rt.alloc();
    let mut centre = Centre::new(alloc, NETWORK, 1);
    let mut before = [0, 0, 0, 0, 0, 0];
    for (step, after) in DAY.iter() {
        enters(&rt, alloc, &mut centre, *step, before);
        folds(&rt, &mut centre, 1, *after);
        is_whole(&rt, &mut centre, bsc(&rt, 1), *after);
        is_made_anew(&rt, &mut centre, *after);
        before = *after;
    }
    drop(centre);
}

/// A rebuild reads the entries since the checkpoint alone, and begins with what was folded.
#[test]
fn a_rebuild_begins_with_the_base(rt: HostRuntime) {
    let alloc = rt.alloc();
    let mut centre = Centre::new(alloc, NETWORK, 100);
    for (step, _) in DAY.iter().take(14) {
        takes(&rt, alloc, &mut centre, *step);
    }
    folds(&rt, &mut centre, 14, [2, 0, 0, 0, 1, 2]);
    for (step, _) in DAY.iter().skip(14).take(7) {
        takes(&rt, alloc, &mut centre, *step);
    }
    let reads = centre.meter().entries;
    is_made_anew(&rt, &mut centre, [1, 0, 0, 2, 2, 2]);
    yes(
        &rt,
        centre.meter().entries.saturating_sub(reads) >= 7,
        "each is read",
    );
    yes(&rt, centre.entry(14).is_none(), "a folded entry");
    yes(&rt, centre.entry(15).is_some(), "the first entry since");
    yes(&rt, centre.entry(21).is_some(), "the last entry");
    yes(&rt, centre.entry(22).is_none(), "past the last entry");
    drop(centre);
}
