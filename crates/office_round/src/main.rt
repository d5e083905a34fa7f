//! A round of an office of two desks: each call prints a line.
//!
//! A call that is refused for want of memory is made again, after what it has to leave as it was is compared: the receipts of
//! the desk, and what the office says. Where the centre is stale, a side that waits is told so, and the centre is rebuilt first.
//! With a word as its argument the program makes the round once more, before: while a call is made it takes all memory that the
//! system gives, but some small blocks, one more at each try. What a call needs of the stack isn't there yet from a round before.
#![tactic(auto)]

mod asking;
mod calls;
mod events;
mod hoard;
mod met;
mod rounds;
mod waiting;
mod want;
mod wrong;

use cell_register::BscId;
use rounds::{miss_a_desk, round};
use std::alloc::Global;
use std::marker::Brand;
use std::process::ExitCode;
use std::sync::Wait;
use std::sync::ledger::Blank;
use std::thread::Threads;
use std::time::Clock;
use std::{env, io};
use want::Want;
use wrong::Wrong;

/// A round, and an office of which a desk is missing.
fn both<R: Threads + Wait + Clock + Print + Sync>(
    rt: &R,
    alloc: Global,
    b: BscId,
    want: &mut Want,
) -> Result<(), Wrong> {
    round::<Brand, R>(rt, alloc, Blank::new(1025), b, want)?;
    miss_a_desk::<Brand, R>(rt, alloc, Blank::new(1025), b, want)
}

/// The same while memory is taken.
fn both_in_want<R: Threads + Wait + Clock + Print + Sync>(
    rt: &R,
    alloc: Global,
    b: BscId,
) -> Result<(), Wrong> {
    let mut want = Want::of_all(alloc);
    both(rt, alloc, b, &mut want)?;
    if !want.is_met() {
        return Err(Wrong::NotMet);
    }
    Ok(())
}

/// What the program does.
fn all<R: Threads + Wait + Clock + Print + Sync>(
    rt: &R,
    alloc: Global,
    is_in_want: bool,
) -> Result<(), Wrong> {
    let Some(b) = BscId::new(1) else {
        return Err(Wrong::Refused);
    };
    if is_in_want {
        both_in_want(rt, alloc, b)?;
    }
    both(rt, alloc, b, &mut Want::none(alloc))
}

/// Whether there is an argument.
fn has_word<R: env::Env + AllocGlobal>(rt: &R) -> io::Result<bool> {
    Ok(env::args(rt)?.nth(1).is_some())
}

fn main(rt: HostRuntime) -> ExitCode {
    let Ok(is_in_want) = has_word(&rt) else {
        let _ = eprintln!(rt; "office_round: out of memory");
        return ExitCode::FAILURE;
    };
    match all(&rt, rt.alloc(), is_in_want) {
        Ok(()) => ExitCode::SUCCESS,
        Err(wrong) => {
            let words = wrong.words();
            let _ = println!(rt; "{words}");
            ExitCode::FAILURE
        }
    }
}
