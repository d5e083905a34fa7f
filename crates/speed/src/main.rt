//! How fast messages are read and written, and how fast a stream is cut into frames.
//!
//! With no argument it makes one small round of each and prints `ok`. `codec long` and `framing long` make long ones
//! and print their figures, which depend on the machine and on what else it does.
#![tactic(auto)]

mod codec;
mod codec_frames;
mod cutting;
mod stopwatch;

use anyhow::{Result, bail};
use std::env;
use std::rt::Clock;

/// One small round of each.
fn small_rounds(rt: &(impl Clock + AllocGlobal)) -> Result<()> {
    codec::rounds(rt, 0)?;
    cutting::rounds(rt, 3_000, 2_000)?;
    Ok(())
}

/// The figures that the words ask for.
fn figures(rt: &(impl Clock + AllocGlobal), words: &[&str]) -> Result<Vec<String>> {
    match words {
        ["codec", "long"] => codec::rounds(rt, 1_000_000_000),
        ["framing", "long"] => cutting::rounds(rt, 16_777_216, 200_000),
        _ => bail!("the arguments are none, `codec long` or `framing long`"),
    }
}

/// Prints each figure on a line of its own.
fn print(rt: &impl Print, figures: &[String]) -> Result<()> {
    for figure in figures {
        println!(rt; "{figure}")?;
    }
    Ok(())
}

fn main(rt: HostRuntime) -> Result<()> {
    let words: Vec<String> = env::args(&rt)?.skip(1).collect(rt.alloc())?;
    let words: Vec<&str> = words.iter().map(|word| word.as_str()).collect(rt.alloc())?;
    if words.is_empty() {
        small_rounds(&rt)?;
        println!(rt; "ok")?;
        return Ok(());
    }
    let figures = figures(&rt, words.as_slice())?;
    print(&rt, figures.as_slice())
}
