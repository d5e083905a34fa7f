//! What no run of a server comes to.

ghost use Rattle.std.specs.Prelude.{◌≡◌};

use crate::checks::same;
use crate::given_plays::{USUAL, free_port, words_of};
use centre_events::network::Network;
use office::office::Office;
use server::{serve_words, settle};
use server_options::ServeFault;
use std::alloc::Global;
use std::marker::Brand;
use std::os::unix::net::UnixStream;
use std::process::Abort;
use std::sync::Wait;
use std::sync::ledger::{Blank, Ledger};

/// The network of the office.
const NETWORK: Network = Network {
    plmn: [0x00, 0xf1, 0x10],
    broadcasts: 0,
};

/// What becomes of an office of two desks, both of which are handed in, or the first alone; and what is written.
fn settles<L: Ledger, R: Wait + Abort>(
    rt: &R,
    alloc: Global,
    blank: Blank,
    both: bool,
) -> (Result<(), ServeFault>, Vec<u8>)
    requires name { blank.name ≡ L.name }
    requires parts { blank.parts ≡ L.parts }
    requires desks { blank.parts ≡ 1025 }
{
    let office = Office::<L>::new(alloc, blank, NETWORK, 10);
    let first = office.open_desk(rt).expect(rt, "a desk is opened");
    let second = office.open_desk(rt).expect(rt, "a desk is opened");
    let mut desks = vec![in alloc; first].expect(rt, "memory");
    if both {
        desks.push(second).expect(rt, "memory");
    }
    let mut written = Vec::new(alloc);
    let settled = settle(alloc, office, desks, &mut written);
    (settled, written)
}

/// The fault of a server of whose desks one is not handed in.
#[test]
fn a_desk_that_is_missing_is_a_settle_fault(rt: HostRuntime) {
    let fault = ServeFault::Settle;
    let rows = [
        (true, Ok(()), b"settled 0\n".as_slice()),
        (false, Err(fault), b"".as_slice()),
    ];
    for (both, want, text) in rows {
        let (settled, written) = settles::<Brand, _>(&rt, rt.alloc(), Blank::new(1025), both);
        same(&rt, settled, want, "another end");
        same(&rt, written.as_slice(), text, "another number");
    }
    let words = b"cbc: settle fault\n".as_slice();
    same(&rt, fault.words(), words, "other words");
}

/// A standard output that nobody reads: the last line can't be written, which is a fault where there are no consoles.
#[test]
fn an_output_that_nobody_reads_is_a_fault(rt: HostRuntime) {
    let alloc = rt.alloc();
    let words = words_of(&rt, alloc, &USUAL, free_port(&rt));
    let (far, near) = UnixStream::pair(&rt).expect(&rt, "a stream");
    drop(far);
    let typed = b"quit\n".as_slice();
    let errors: Vec<u8> = Vec::new(alloc);
    let status = serve_words(&rt, alloc, words.as_slice(), false, typed, near, errors);
    same(&rt, status, 1, "the status");
}
