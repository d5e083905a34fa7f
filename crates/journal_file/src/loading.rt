//! The lines of octets that come in pieces.

ghost use Rattle.std.specs.Prelude.{◌≡◌};

use crate::line_end::cut_at_end;
use common::Octets;
use std::alloc::{AllocError, Global};
use std::marker::Model;
use std::mem;

/// The most octets that a line may have, without its end.
pub const LONGEST_LINE: usize = 600_000;

/// The most octets that are kept of a line: as many as show that it is too long.
const MOST_KEPT: usize = LONGEST_LINE + 1;

/// What is held while a file is read: the line that has begun.
#[derive(Drop)]
pub struct Loading {
    alloc: Global,
    held: Vec<u8>,
    begun: u64,
    ended: u64,
    octets: u64,
}

impl Model for Loading {
    ghost use Rattle.std.specs.Prelude.{◌≡◌, ◌≤◌, length, min};
    ghost use Rattle.journal_file.specs.Loading.{LoadingState};

    ghost Value = { LoadingState };

    ghost view = { λ s. record { held = s.held.items; begun = s.begun; ended = s.ended; octets = s.octets } };

    ghost invariant = { λ s. record { begun_fits : s.begun ≤ s.octets; ended_fits : s.ended ≤ s.octets; held_is : length s.held.items ≡ min s.begun 600001 } };
}

impl Loading {
    ghost use Rattle.std.specs.Prelude.{◌≡◌, ◌+◌, ◌^◌, ◌<◌, ◌++◌, length, IfOk, OnOk, OnErr, MatchOption};
    ghost use Rattle.journal_file.specs.Lines.{kept_of};
    ghost use Rattle.journal_file.specs.Loading.{nothing_yet, goes_on, ends_line, TakesLine, TakesNone};

    /// Memory is first asked for when octets come.
    pub fn new(alloc: Global) -> Loading
        ensures { result ≡ nothing_yet }
    {
        Loading {
            alloc,
            held: Vec::new(alloc),
            begun: 0,
            ended: 0,
            octets: 0,
        }
    }

    /// How many octets have come of the line that has begun. They are what is torn where no more come.
    pub fn begun(&self) -> u64
        ensures { result ≡ self.now.begun }
    {
        self.begun
    }

    /// How many lines have ended. It is the number of the line that was given last.
    pub fn ended(&self) -> u64
        ensures { result ≡ self.now.ended }
    {
        self.ended
    }

    /// How many octets have come.
    pub fn octets(&self) -> u64
        ensures { result ≡ self.now.octets }
    {
        self.octets
    }

    /// How many octets the lines have that have ended, with their ends.
    pub fn whole(&self) -> u64
        ensures { result + self.now.begun ≡ self.now.octets }
    {
        self.octets - self.begun
    }

    /// The first octets of the line that has begun, at most 600,001.
    pub fn held(&self) -> &[u8]
        ensures { result.now ≡ self.now.held }
    {
        &self.held
    }

    /// Takes octets in which no line ends.
    fn take_run(&mut self, run: &[u8]) -> Result<(), AllocError>
        requires { self.old.octets + length run.now < 2 ^ 64 }
        ensures ok { OnOk result (self.new ≡ goes_on self.old run.now) }
        ensures err { OnErr result (self.new ≡ self.old) }
    {
        let room = MOST_KEPT - self.held.len();
        let front = if run.len() > room { &run[..room] } else { run };
        self.held.extend_from_slice(front)?;
        self.begun += run.len() as u64;
        self.octets += run.len() as u64;
        Ok(())
    }

    /// The line that has begun ends.
    fn end_line(&mut self) -> Octets
        requires { self.old.octets + 1 < 2 ^ 64 }
        ensures line { result ≡ self.old.held }
        ensures state { self.new ≡ ends_line self.old }
    {
        let line = mem::replace(&mut self.held, Vec::new(self.alloc));
        self.begun = 0;
        self.ended += 1;
        self.octets += 1;
        Octets::from_vec(line)
    }

    /// Takes the octets of the piece up to the first end of a line, with it, and gives that line and what stands behind it in the
    /// piece. Where no line ends in the piece it takes all, and gives nothing. Of a line of more than 600,000 octets the first
    /// 600,001 are given. At an `Err` nothing is taken.
    pub fn take<'p>(&mut self, piece: &'p [u8]) -> Result<Option<(Octets, &'p [u8])>, AllocError>
        requires { self.old.octets + length piece.now < 2 ^ 64 }
        ensures ok { IfOk result (λ found. MatchOption found (TakesNone self.old piece.now self.new) (λ cut. TakesLine self.old piece.now self.new cut.0 cut.1.now)) }
        ensures err { OnErr result (self.new ≡ self.old) }
    {
        match cut_at_end(piece) {
            Some((run, behind)) => {
                self.take_run(run)?;
                Ok(Some((self.end_line(), behind)))
            }
            None => {
                self.take_run(piece)?;
                Ok(None)
            }
        }
    }
}
