//! Cutting a stream into frames.

ghost use Rattle.std.specs.Prelude.{◌≡◌, ◌<◌, ◌≤◌, [], ◌++◌, length, take, IfSome, IfNone, IfOk, IfErr, OnOk, OnErr, Err, option_to_list};
ghost use Rattle.cbsp_ie.specs.Frame.{longest_body, framed};
ghost use Rattle.framing.specs.Streams.{BeginsWithNoFrame, IsTooLong, announced};
ghost use Rattle.framing.specs.Framers.{fresh, Takes, Refuses, IsCut};

use crate::fault::FrameFault;
use crate::frame::Frame;
use byteorder::{BigEndian, ByteOrder};
use common::Octets;
use std::alloc::{AllocError, Global};
use std::collections::VecDeque;
use std::marker::Model;

/// The most octets of a body that is read.
const LONGEST_BODY: u32 = 262_144;

/// Octets of the type and the length, which stand in front of a body.
const HEADER: usize = 4;

/// Cuts a stream into frames, in whatever pieces it comes.
pub struct Framer {
    alloc: Global,
    ready: VecDeque<Frame>,
    held: Vec<u8>,
}

/// Written out, so that no crate above proves anew how its parts are dropped.
impl Drop for Framer {
    fn drop(self) {
        let Framer {
            alloc: _alloc,
            ready: _ready,
            held: _held,
        } = self;
    }
}

impl Model for Framer {
    ghost use Rattle.std.specs.Prelude.{◌≡◌, length};
    ghost use Rattle.framing.specs.Framers.{Framing};
    ghost use Rattle.framing.specs.Streams.{IsTooLong};

    ghost Value = { Framing };

    ghost view = { λ s. record { frames = s.ready.items; rest = s.held.items } };

    ghost invariant = { λ s. IsTooLong s.held.items → length s.held.items ≡ 4 };
}

impl Framer {
    /// Memory is first asked for when a piece comes.
    pub fn new(alloc: Global) -> Self
        ensures { result ≡ fresh }
    {
        Framer {
            alloc,
            ready: VecDeque::new(alloc),
            held: Vec::new(alloc),
        }
    }

    /// Takes the next piece of the stream.
    ///
    /// At `TooLong` the whole frames before the long one are still given, and four octets of that one
    /// are held; every later piece is refused in the same way. At `Memory` nothing changed.
    pub fn feed(&mut self, piece: &[u8]) -> Result<(), FrameFault>
        ensures taken { OnOk result (Takes self.old piece.now self.new) }
        ensures refused { IfErr result (Refuses self.old piece.now self.new) }
        ensures sticky { IsTooLong self.old.rest → (result ≡ Err (FrameFault.TooLong (announced self.old.rest))) × (self.new ≡ self.old) }
    {
        if let Some(length) = too_long(&self.held) {
            return Err(FrameFault::TooLong { length });
        }
        let held = self.held.len();
        let ready = self.ready.len();
        self.held.extend_from_slice(piece)?;
        match cut_frames(self.alloc, &self.held, &mut self.ready) {
            Ok(cut) => {
                self.held.drain(..cut);
            }
            Err(_) => {
                self.ready.truncate(ready);
                self.held.truncate(held);
                return Err(FrameFault::Memory);
            }
        }
        match too_long(&self.held) {
            Some(length) => {
                self.held.truncate(HEADER);
                Err(FrameFault::TooLong { length })
            }
            None => Ok(()),
        }
    }

    /// The octets held of a frame that isn't whole yet.
    pub fn rest(&self) -> usize
        ensures { result ≡ length self.now.rest }
    {
        self.held.len()
    }

    /// Gives the oldest frame that wasn't given yet.
    pub fn next(&mut self) -> Option<Frame>
        ensures frames { self.old.frames ≡ option_to_list result ++ self.new.frames }
        ensures none { IfNone result (self.old.frames ≡ []) }
        ensures rest { self.new.rest ≡ self.old.rest }
    {
        self.ready.pop_front()
    }
}

/// The type, the body and what follows it, where the octets begin with a whole frame.
fn first_frame(octets: &[u8]) -> Option<(u8, &[u8], &[u8])>
    ensures length { IfSome result (λ f. length f.1.now ≤ longest_body) }
    ensures whole { IfSome result (λ f. octets.now ≡ framed f.0 f.1.now ++ f.2.now) }
    ensures none { IfNone result (BeginsWithNoFrame octets.now) }
{
    if octets.len() < HEADER {
        return None;
    }
    let length = announced_length(octets);
    if LONGEST_BODY < length {
        return None;
    }
    let (_, rest) = octets.split_at(HEADER);
    let (body, after) = rest.split_at_checked(length as usize)?;
    Some((octets[0], body, after))
}

/// Puts the whole frames at the front of the octets behind those that are ready, and answers how
/// many octets they take. At an `Err` some of them may be there.
fn cut_frames(
    alloc: Global,
    octets: &[u8],
    ready: &mut VecDeque<Frame>,
) -> Result<usize, AllocError>
    ensures cut { IfOk result (IsCut octets.now ready.old.items ready.new.items) }
    ensures kept { OnErr result (take (length ready.old.items) ready.new.items ≡ ready.old.items) }
{
    let mut rest = octets;
    while let Some((kind, body, after)) = first_frame(rest) {
        let body = Octets::from_vec(Vec::from_slice(alloc, body)?);
        ready.push_back(Frame { kind, body })?;
        rest = after;
    }
    Ok(octets.len() - rest.len())
}

/// The length of the body that the octets announce, where it isn't read.
fn too_long(octets: &[u8]) -> Option<u32>
    ensures some { IfSome result (λ n. IsTooLong octets.now × (n ≡ announced octets.now)) }
    ensures none { IfNone result (¬ IsTooLong octets.now) }
{
    if octets.len() < HEADER {
        return None;
    }
    Some(announced_length(octets)).filter(|length| LONGEST_BODY < *length)
}

/// The length of the body that the octets announce, in the three after the first.
fn announced_length(octets: &[u8]) -> u32
    requires { 4 ≤ length octets.now }
    ensures { result ≡ announced octets.now }
{
    BigEndian::read_u24(&octets[1..])
}
