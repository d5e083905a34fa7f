//! The frames about being alive, among what a BSC sends.

ghost use Rattle.std.specs.Prelude.{◌≡◌, [], IfOk};
ghost use Rattle.link_resets.specs.Alive.{seen_in};

use crate::alive_seen::AliveSeen;
use framing::{FrameFault, Framer};
use std::alloc::Global;
use std::marker::Model;

/// The types of KEEP ALIVE and KEEP ALIVE COMPLETE (3GPP TS 48.049, 8.2.3).
const KEEP_ALIVE: u8 = 0x16;

const KEEP_ALIVE_ANSWER: u8 = 0x17;

/// Looks for KEEP ALIVE and KEEP ALIVE COMPLETE among what a BSC sends.
#[derive(Drop)]
pub struct AliveWatch {
    framer: Framer,
}

impl Model for AliveWatch {
    ghost use Rattle.std.specs.Prelude.{◌≡◌, ℕ, List, []};

    // the octets of a frame that has begun
    ghost Value = { List ℕ };

    ghost view = { λ s. s.framer.rest };

    ghost invariant = { λ s. s.framer.frames ≡ [] };
}

/// What stands in the frames that the framer has, which are taken out.
fn seen_in(framer: &mut Framer) -> AliveSeen
    ensures seen { result ≡ seen_in framer.old.frames }
    ensures none { framer.new.frames ≡ [] }
    ensures rest { framer.new.rest ≡ framer.old.rest }
{
    let mut asks = false;
    let mut answers = false;
    while let Some(frame) = framer.next() {
        asks = asks || frame.kind == KEEP_ALIVE;
        answers = answers || frame.kind == KEEP_ALIVE_ANSWER;
    }
    AliveSeen { asks, answers }
}

impl AliveWatch {
    ghost use Rattle.std.specs.Prelude.{◌≡◌, [], Err, IfOk, IfErr};
    ghost use Rattle.framing.specs.Streams.{IsTooLong, announced};
    ghost use Rattle.link_resets.specs.Alive.{SeesAlive};
    ghost use Rattle.link_resets.specs.Refusing.{RefusesOctets};

    /// Nothing was sent yet.
    pub fn new(alloc: Global) -> AliveWatch
        ensures { result ≡ [] }
    {
        AliveWatch {
            framer: Framer::new(alloc),
        }
    }

    /// Takes the next octets that the BSC sent. The answer is what stands in the frames that end in them. `TooLong` where a frame is too
    /// long: nothing is found in those octets, and what comes later is refused in the same way. `Memory` where memory ran out; then the
    /// octets weren't taken.
    pub fn see(&mut self, octets: &[u8]) -> Result<AliveSeen, FrameFault>
        ensures seen { IfOk result (λ seen. SeesAlive self.old octets.now seen self.new) }
        ensures refused { IfErr result (λ fault. RefusesOctets self.old octets.now self.new fault) }
        ensures sticky { IsTooLong self.old → (result ≡ Err (FrameFault.TooLong (announced self.old))) × (self.new ≡ self.old) }
    {
        let fed = self.framer.feed(octets);
        let seen = seen_in(&mut self.framer);
        match fed {
            Ok(()) => Ok(seen),
            Err(fault) => Err(fault),
        }
    }
}
