//! What no clause says of an operator's lines: how they end where the file of the journal has failed.

ghost use Rattle.std.specs.Prelude.{◌≡◌};
ghost use Rattle.std.specs.Prelude.{IfSome};
ghost use Rattle.journal_keeper.specs.Kept.{Covers};

use crate::checks::{same, yes};
use cell_register::BscId;
use centre_events::network::Network;
use centre_events::refusal::Refusal;
use centre_past::lists::WarningSheet;
use console_text::ReplayFault;
use journal_keeper::{Kept, KeptUpTo, wait_kept};
use office::office::Office;
use server_operator::{Air, Leaving, Operator, Server, Terminal, operate};
use std::alloc::{AllocError, Global};
use std::io::{BufRead, Error, ErrorKind, Read};
use std::marker::Brand;
use std::process::Abort;
use std::sync::atomic::{AtomicU64, Ordering};
use std::sync::ledger::{Blank, Ledger};
use std::sync::{Mutex, Wait};
use std::time::Clock;
use std::{io, mem};
use warning_book::WarningId;

/// That all is kept of a journal without a file.
fn kept_without_file<R: Wait>(rt: &R, place: u64) -> Option<KeptUpTo>
    ensures { IfSome result (λ kept. Covers kept place) }
{
    let kept: Option<Kept<u64>> = None;
    wait_kept(rt, &kept, place)
}

/// A server that ends once it was asked so often whether it does.
#[derive(Drop)]
struct Ending {
    left: AtomicU64,
}

impl Server for Ending {
    fn added<R: Wait + Clock>(&self, _rt: &R, _b: BscId) {}

    fn answered<R: Wait + Clock>(&self, _rt: &R) {}

    fn kept<R: Wait>(&self, rt: &R, place: u64) -> Option<KeptUpTo> {
        kept_without_file(rt, place)
    }

    fn is_ending<R: Wait>(&self, _rt: &R) -> bool {
        let left = self.left.load(Ordering::SeqCst);
        self.left.store(left.saturating_sub(1), Ordering::SeqCst);
        left == 0
    }

    fn checkpoint<R: Wait>(&self, _rt: &R) -> Result<u64, Refusal> {
        Ok(0)
    }

    fn cut<R: Wait>(&self, _rt: &R, _b: BscId, _generation: u64) {}

    fn air<R: Wait + Clock>(
        &self,
        _rt: &R,
        alloc: Global,
        _sheet: &WarningSheet,
    ) -> Result<Air, AllocError> {
        Ok(Air {
            silent: Vec::new(alloc),
            over: None,
        })
    }

    fn is_down<R: Wait>(&self, _rt: &R, _b: BscId) -> bool {
        false
    }

    fn reread_peers<R: Wait + Clock>(&self, _rt: &R) -> Result<String, AllocError> {
        Err(AllocError)
    }

    fn reset_since<R: Wait>(&self, _rt: &R, _b: BscId) -> Option<u64> {
        None
    }

    fn has_two_periods<R: Wait + Clock>(
        &self,
        _rt: &R,
        _warning: WarningId,
        _b: BscId,
        _other: WarningId,
    ) {}

    fn stays_on_air<R: Wait + Clock>(&self, _rt: &R, _warning: WarningId, _b: BscId) {}
}

/// Pieces that come one after another, each after nothing has come for a while; and then nothing more.
#[derive(Drop)]
struct Pieces<'a> {
    pieces: &'a [&'a [u8]],
    /// What is left of the piece that has come.
    rest: &'a [u8],
    is_late: bool,
}

impl Read for Pieces<'_> {
    fn read(&mut self, _buf: &mut [u8]) -> io::Result<usize> {
        Err(Error::from(ErrorKind::Unsupported))
    }
}

impl BufRead for Pieces<'_> {
    fn fill_buf(&mut self) -> io::Result<&[u8]> {
        if self.rest.is_empty() {
            let was_late = mem::replace(&mut self.is_late, true);
            if !was_late {
                return Err(Error::from(ErrorKind::WouldBlock));
            }
            match self.pieces {
                [first, rest @ ..] => {
                    self.rest = first;
                    self.pieces = rest;
                    self.is_late = false;
                }
                [] => return Err(Error::from(ErrorKind::WouldBlock)),
            }
        }
        Ok(self.rest)
    }

    fn consume(&mut self, count: usize) {
        self.rest = self.rest.get(count..).unwrap_or(&[]);
    }
}

/// The network of the office.
const NETWORK: Network = Network {
    plmn: [0x00, 0xf1, 0x10],
    broadcasts: 0,
};

/// What the lines are answered by a server that ends once it was asked so often.
fn answers<L: Ledger, R: Wait + Clock + Abort>(
    rt: &R,
    alloc: Global,
    blank: Blank,
    pieces: &[&[u8]],
    asks: u64,
) -> (Result<Leaving, ReplayFault>, Vec<u8>)
    requires name { blank.name ≡ L.name }
    requires parts { blank.parts ≡ L.parts }
    requires desks { blank.parts ≡ 1025 }
{
    let office: Office<L> = Office::new(alloc, blank, NETWORK, 100);
    let desk = office.open_desk(rt).expect(rt, "a desk");
    let server = Ending {
        left: AtomicU64::new(asks),
    };
    let terminal = Mutex::new(Terminal {
        reader: Pieces {
            pieces,
            rest: &[],
            is_late: false,
        },
        writer: Vec::new(alloc),
        desk: Some(desk),
    });
    let operator = Operator {
        alloc,
        office: &office,
        server: &server,
        may_watch: false,
    };
    let result = operate(rt, &operator, &terminal);
    let written = mem::replace(&mut terminal.lock(rt).writer, Vec::new(alloc));
    yes(
        rt,
        terminal.lock(rt).desk.is_some(),
        "the desk is handed back",
    );
    (result, written)
}

/// The same at an office of its own.
fn found_answers<R: Wait + Clock + Abort>(
    rt: &R,
    alloc: Global,
    pieces: &[&[u8]],
    asks: u64,
) -> (Result<Leaving, ReplayFault>, Vec<u8>) {
    answers::<Brand, R>(rt, alloc, Blank::new(1025), pieces, asks)
}

#[test]
fn lines_end_where_the_file_fails_though_none_comes(rt: HostRuntime) {
    let alloc = rt.alloc();
    let pieces: [&[u8]; 3] = [b"bsc add 1\nbsc a", b"dd 2\nbsc add", b" 3\n"];
    for (asks, wanted) in [
        (0, b"".as_slice()),
        (1, b"".as_slice()),
        (2, b"ok 1\n".as_slice()),
        (3, b"ok 1\n".as_slice()),
        (5, b"ok 1\nok 2\n".as_slice()),
        (6, b"ok 1\nok 2\nok 3\n".as_slice()),
        (12, b"ok 1\nok 2\nok 3\n".as_slice()),
    ] {
        let (result, written) = found_answers(&rt, alloc, &pieces, asks);
        same(&rt, result, Ok(Leaving::Ended), "no line is at fault");
        same(&rt, written.as_slice(), wanted, "what is answered before");
    }
}
