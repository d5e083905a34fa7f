//! The answer to a RESET, among what a BSC sends.

ghost use Rattle.std.specs.Prelude.{◌≡◌, [], IfOk};
ghost use Rattle.link_resets.specs.Resets.{answer_in, first_answer};

use framing::{Frame, FrameFault, Framer};
use std::alloc::Global;
use std::marker::Model;

/// Looks for the answer to a RESET among what a BSC sends.
#[derive(Drop)]
pub struct ResetWatch {
    framer: Framer,
}

impl Model for ResetWatch {
    ghost use Rattle.std.specs.Prelude.{◌≡◌, ℕ, List, []};

    // the octets of a frame that has begun
    ghost Value = { List ℕ };

    ghost view = { λ s. s.framer.rest };

    ghost invariant = { λ s. s.framer.frames ≡ [] };
}

/// The frame, where it answers a RESET: RESET COMPLETE or RESET FAILURE (3GPP TS 48.049, 8.2.3).
fn answer_in(frame: Frame) -> Option<Frame>
    ensures { result ≡ answer_in frame }
{
    match frame.kind {
        0x11 | 0x12 => Some(frame),
        _ => None,
    }
}

/// The first answer in the frames that the framer has, which are taken out.
#[tactic(auto, using(crate::proofs::AnswerLemmas::next_answer, crate::proofs::AnswerLemmas::no_answer))]
fn first_answer(framer: &mut Framer) -> Option<Frame>
    ensures answer { result ≡ first_answer framer.old.frames }
    ensures none { framer.new.frames ≡ [] }
    ensures rest { framer.new.rest ≡ framer.old.rest }
{
    let mut answer = None;
    while let Some(frame) = framer.next() {
        answer = answer.or(answer_in(frame));
    }
    answer
}

impl ResetWatch {
    ghost use Rattle.std.specs.Prelude.{◌≡◌, [], Err, IfOk, IfErr};
    ghost use Rattle.framing.specs.Streams.{IsTooLong, announced};
    ghost use Rattle.link_resets.specs.Refusing.{RefusesOctets};
    ghost use Rattle.link_resets.specs.Resets.{Sees};

    /// Nothing was sent yet.
    pub fn new(alloc: Global) -> ResetWatch
        ensures { result ≡ [] }
    {
        ResetWatch {
            framer: Framer::new(alloc),
        }
    }

    /// Takes the next octets that the BSC sent. The answer is the first one in the frames that end in them. `TooLong` where a frame is
    /// too long: nothing is found in those octets, and what comes later is refused in the same way. `Memory` where memory ran out; then
    /// the octets weren't taken.
    pub fn see(&mut self, octets: &[u8]) -> Result<Option<Frame>, FrameFault>
        ensures seen { IfOk result (λ answer. Sees self.old octets.now answer self.new) }
        ensures refused { IfErr result (λ fault. RefusesOctets self.old octets.now self.new fault) }
        ensures sticky { IsTooLong self.old → (result ≡ Err (FrameFault.TooLong (announced self.old))) × (self.new ≡ self.old) }
    {
        let fed = self.framer.feed(octets);
        let answer = first_answer(&mut self.framer);
        match fed {
            Ok(()) => Ok(answer),
            Err(fault) => Err(fault),
        }
    }
}
