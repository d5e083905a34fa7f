//! The lines of an operator that come in pieces, and what is seen of how they are answered.

ghost use Rattle.std.specs.Prelude.{◌≡◌};

use crate::given_program::kept_without_file;
use cell_register::BscId;
use centre_events::network::Network;
use centre_events::refusal::Refusal;
use centre_past::lists::WarningSheet;
use console_text::ReplayFault;
use journal_keeper::KeptUpTo;
use office::office::Office;
use server_operator::{Air, Leaving, Operator, Server, Terminal, operate};
use std::alloc::{AllocError, Global};
use std::io::{BufRead, Error, ErrorKind, Read, Write};
use std::marker::Brand;
use std::process::Abort;
use std::sync::atomic::{AtomicU64, Ordering};
use std::sync::ledger::{Blank, Ledger};
use std::sync::{Mutex, Wait};
use std::time::Clock;
use std::{io, mem};
use warning_book::WarningId;

/// A read that finds nothing there and may wait.
const READ: u64 = 1;

/// It is asked whether all entries are kept.
const ASKED: u64 = 2;

/// Octets are written.
const WRITTEN: u64 = 3;

/// The server is told that a line was answered.
const TOLD: u64 = 4;

/// What comes to a read that may wait.
#[derive(Clone, Copy)]
pub(crate) enum Comes<'a> {
    Piece(&'a [u8]),
    /// Nothing, for a while.
    Nothing,
    /// A signal interrupts the read.
    Signal,
    /// The input is at fault.
    Fault,
}

/// What comes, one after another, and to whom it is answered.
#[derive(Clone, Copy)]
pub(crate) struct Given<'a> {
    pub(crate) comes: &'a [Comes<'a>],
    /// How often all entries are kept when that is asked. After that the file has failed.
    pub(crate) kept: u64,
    /// Nobody reads the answers: each write fails.
    pub(crate) is_closed: bool,
}

/// How lines were answered.
#[derive(Drop)]
pub(crate) struct Found {
    pub(crate) ended: Result<Leaving, ReplayFault>,
    /// What was seen: a digit for each step, the first on the left.
    pub(crate) seen: u64,
    pub(crate) answers: Vec<u8>,
    /// The most octets of one write.
    pub(crate) most: usize,
}

/// The step is seen.
fn notes(seen: &AtomicU64, step: u64) {
    let before = seen.load(Ordering::SeqCst);
    seen.store(
        before.saturating_mul(10).saturating_add(step),
        Ordering::SeqCst,
    );
}

/// Where the lines come from.
#[derive(Drop)]
struct Input<'a> {
    seen: &'a AtomicU64,
    comes: &'a [Comes<'a>],
    /// What is left of the piece that has come.
    rest: &'a [u8],
}

impl Read for Input<'_> {
    fn read(&mut self, _buf: &mut [u8]) -> io::Result<usize> {
        Err(Error::from(ErrorKind::Unsupported))
    }
}

impl BufRead for Input<'_> {
    fn fill_buf(&mut self) -> io::Result<&[u8]> {
        if self.rest.is_empty() {
            notes(self.seen, READ);
            if let [first, rest @ ..] = self.comes {
                self.comes = rest;
                match *first {
                    Comes::Piece(piece) => self.rest = piece,
                    Comes::Nothing => return Err(Error::from(ErrorKind::WouldBlock)),
                    Comes::Signal => return Err(Error::from(ErrorKind::Interrupted)),
                    Comes::Fault => return Err(Error::from(ErrorKind::UnexpectedEof)),
                }
            }
        }
        Ok(self.rest)
    }

    fn consume(&mut self, count: usize) {
        self.rest = self.rest.get(count..).unwrap_or(&[]);
    }
}

/// Where the answers go.
#[derive(Drop)]
struct Output<'a> {
    seen: &'a AtomicU64,
    octets: Vec<u8>,
    most: usize,
    is_closed: bool,
}

impl Write for Output<'_> {
    fn write(&mut self, buf: &[u8]) -> io::Result<usize> {
        notes(self.seen, WRITTEN);
        if self.is_closed {
            return Err(Error::from(ErrorKind::BrokenPipe));
        }
        self.octets.extend_from_slice(buf)?;
        self.most = self.most.max(buf.len());
        Ok(buf.len())
    }

    fn flush(&mut self) -> io::Result<()> {
        Ok(())
    }
}

/// A server that keeps its journal so often.
#[derive(Drop)]
struct Keeping<'a> {
    seen: &'a AtomicU64,
    left: AtomicU64,
}

impl Server for Keeping<'_> {
    fn added<R: Wait + Clock>(&self, _rt: &R, _b: BscId) {}

    fn answered<R: Wait + Clock>(&self, _rt: &R) {
        notes(self.seen, TOLD);
    }

    fn kept<R: Wait>(&self, rt: &R, place: u64) -> Option<KeptUpTo> {
        notes(self.seen, ASKED);
        let left = self.left.load(Ordering::SeqCst);
        self.left.store(left.saturating_sub(1), Ordering::SeqCst);
        if left > 0 {
            kept_without_file(rt, place)
        } else {
            None
        }
    }

    fn is_ending<R: Wait>(&self, _rt: &R) -> bool {
        false
    }

    fn checkpoint<R: Wait>(&self, _rt: &R) -> Result<u64, Refusal> {
        Ok(0)
    }

    fn cut<R: Wait>(&self, _rt: &R, _b: BscId, _generation: u64) {}

    fn air<R: Wait + Clock>(
        &self,
        _rt: &R,
        alloc: Global,
        _sheet: &WarningSheet,
    ) -> Result<Air, AllocError> {
        Ok(Air {
            silent: Vec::new(alloc),
            over: None,
        })
    }

    fn is_down<R: Wait>(&self, _rt: &R, _b: BscId) -> bool {
        false
    }

    fn reread_peers<R: Wait + Clock>(&self, _rt: &R) -> Result<String, AllocError> {
        Err(AllocError)
    }

    fn reset_since<R: Wait>(&self, _rt: &R, _b: BscId) -> Option<u64> {
        None
    }

    fn has_two_periods<R: Wait + Clock>(
        &self,
        _rt: &R,
        _warning: WarningId,
        _b: BscId,
        _other: WarningId,
    ) {}

    fn stays_on_air<R: Wait + Clock>(&self, _rt: &R, _warning: WarningId, _b: BscId) {}
}

/// The network of the office.
const NETWORK: Network = Network {
    plmn: [0x00, 0xf1, 0x10],
    broadcasts: 0,
};

/// Answers the lines at a desk of the office.
fn answers_at<L: Ledger, R: Wait + Clock + Abort>(
    rt: &R,
    alloc: Global,
    office: &Office<L>,
    seen: &AtomicU64,
    given: &Given<'_>,
) -> Found {
    let server = Keeping {
        seen,
        left: AtomicU64::new(given.kept),
    };
    let terminal = Mutex::new(Terminal {
        reader: Input {
            seen,
            comes: given.comes,
            rest: &[],
        },
        writer: Output {
            seen,
            octets: Vec::new(alloc),
            most: 0,
            is_closed: given.is_closed,
        },
        desk: Some(office.open_desk(rt).expect(rt, "a desk")),
    });
    let operator = Operator {
        alloc,
        office,
        server: &server,
        may_watch: true,
    };
    let ended = operate(rt, &operator, &terminal);
    let mut terminal = terminal.lock(rt);
    Found {
        ended,
        seen: seen.load(Ordering::SeqCst),
        answers: mem::replace(&mut terminal.writer.octets, Vec::new(alloc)),
        most: terminal.writer.most,
    }
}

fn answered<L: Ledger, R: Wait + Clock + Abort>(
    rt: &R,
    alloc: Global,
    blank: Blank,
    given: &Given<'_>,
) -> Found
    requires name { blank.name ≡ L.name }
    requires parts { blank.parts ≡ L.parts }
    requires desks { blank.parts ≡ 1025 }
{
    let office: Office<L> = Office::new(alloc, blank, NETWORK, 1000);
    let seen = AtomicU64::new(0);
    answers_at(rt, alloc, &office, &seen, given)
}

/// Answers the lines at an office of their own.
pub(crate) fn found_of<R: Wait + Clock + Abort>(rt: &R, alloc: Global, given: &Given<'_>) -> Found {
    answered::<Brand, R>(rt, alloc, Blank::new(1025), given)
}
