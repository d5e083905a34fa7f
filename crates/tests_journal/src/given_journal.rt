//! A journal of lines in memory, for the thread that keeps it.

ghost use Rattle.std.specs.Prelude.{OnOk};
ghost use Rattle.journal_keeper.specs.Following.{PutsNext};

use common::Octets;
use journal_file::Writing;
use journal_keeper::{Followed, KeepFault, Seen};
use std::alloc::Global;
use std::sync::{Condvar, Mutex, Wait};

/// The lines of the entries, the oldest first, how many are folded, and how often those who wait were interrupted.
#[derive(Drop)]
struct Lines {
    lines: Vec<Octets>,
    folded: u64,
    interrupts: u64,
    /// A fold is refused so often.
    refusals: u64,
}

/// A journal of lines. It hands out three at a time.
#[derive(Drop)]
pub(crate) struct Journal {
    alloc: Global,
    lines: Mutex<Lines>,
    changed: Condvar,
}

/// Why a fold was refused.
#[derive(Clone, Copy, Debug, PartialEq, Eq)]
pub(crate) struct Refused;

fn position(lines: &Lines) -> u64 {
    lines.lines.len() as u64
}

/// Puts the line where it is one of the next.
#[tactic(auto, using(crate::proofs::GivenLemmas::puts_none, crate::proofs::GivenLemmas::puts_line))]
fn put_if(is_next: bool, line: &[u8], writing: &mut Writing) -> Result<(), KeepFault>
    ensures { OnOk result (PutsNext (λ _ _. Unit {0}) writing.old writing.new) }
{
    if is_next {
        writing.put_entry(line)?;
    }
    Ok(())
}

/// Puts at most so many lines behind those that were put.
#[tactic(auto, using(crate::proofs::GivenLemmas::puts_none, crate::proofs::GivenLemmas::puts_more))]
fn put(lines: &Lines, most: u64, writing: &mut Writing) -> Result<(), KeepFault>
    ensures { OnOk result (PutsNext (λ _ _. Unit {0}) writing.old writing.new) }
{
    let taken = writing.taken();
    for (index, line) in lines.lines.iter().enumerate() {
        let place = index as u64;
        let is_next = place >= taken && place - taken < most;
        put_if(is_next, line.as_slice(), writing)?;
    }
    Ok(())
}

impl Journal {
    /// A journal without entries, whose next folds are refused so often.
    pub(crate) fn new(alloc: Global, refusals: u64) -> Journal {
        Journal {
            alloc,
            lines: Mutex::new(Lines {
                lines: Vec::new(alloc),
                folded: 0,
                interrupts: 0,
                refusals,
            }),
            changed: Condvar::new(),
        }
    }

    /// Enters an entry of this line. The answer is its place; `None` where there is no memory.
    pub(crate) fn enter<R: Wait>(&self, rt: &R, line: &[u8]) -> Option<u64> {
        let octets = Octets::from_vec(Vec::from_slice(self.alloc, line).ok()?);
        let mut lines = self.lines.lock(rt);
        let place = match lines.lines.push(octets) {
            Ok(()) => Some(position(&lines)),
            Err(_) => None,
        };
        drop(lines);
        self.changed.notify_all();
        place
    }
}

impl Followed for Journal {
    ghost gives = { λ _ _ _. Unit {0} };

    type Refusal = Refused;

    fn wait_entries<R: Wait>(&self, rt: &R, after: u64, interrupts: u64) -> Seen {
        let lines = self.changed.wait_while(rt, self.lines.lock(rt), |lines| {
            position(lines) <= after && lines.interrupts == interrupts
        });
        Seen {
            position: position(&lines),
            interrupts: lines.interrupts,
        }
    }

    fn interrupt<R: Wait>(&self, rt: &R) {
        let mut lines = self.lines.lock(rt);
        lines.interrupts = lines.interrupts.wrapping_add(1);
        drop(lines);
        self.changed.notify_all();
    }

    fn put_entries<R: Wait>(&self, rt: &R, writing: &mut Writing) -> Result<(), KeepFault> {
        let lines = self.lines.lock(rt);
        put(&lines, 3, writing)
    }

    #[tactic(auto, using(crate::proofs::GivenLemmas::puts_fold))]
    fn put_fold<R: Wait>(
        &self,
        rt: &R,
        writing: &mut Writing,
    ) -> Result<Result<u64, Refused>, KeepFault> {
        let mut lines = self.lines.lock(rt);
        if lines.refusals > 0 {
            lines.refusals -= 1;
            return Ok(Err(Refused));
        }
        put(&lines, u64::MAX, writing)?;
        writing.put_fold()?;
        let count = position(&lines).saturating_sub(lines.folded);
        lines.folded = position(&lines);
        Ok(Ok(count))
    }
}
