//! Reads frames that another implementation's encoder made, and some that are made by hand, and says of each whether
//! it is read as the values that stand beside it, and written as the same octets again or as those beside it. Each is
//! also damaged: cut at every octet, each of its elements repeated, each unknown identifier and discriminator put in;
//! the fault has to be the damage's.
//!
//! The file's name is the argument; `data/frames.txt` says how it is laid out.
#![tactic(auto)]

mod damage;
mod faults;
mod fields;
mod layout;
mod names;
mod outcome;
mod value;
mod vectors;

use anyhow::{Context, Result};
use outcome::difference;
use std::process::ExitCode;
use std::{env, fs};
use vectors::{Vector, vectors_in};

/// Prints what comes of a frame, and says whether it agrees with the file.
fn agrees(rt: &(impl Print + AllocGlobal), vector: &Vector<'_>) -> Result<bool> {
    let found = difference(rt.alloc(), vector);
    let said = print(rt, vector.name, &found);
    let is_same = matches!(&found, Ok(None));
    drop(found);
    said?;
    Ok(is_same)
}

/// Prints that the frame of that name agrees, or how it differs.
fn print(rt: &impl Print, name: &str, found: &Result<Option<String>>) -> Result<()> {
    match found {
        Ok(None) => println!(rt; "{name} agrees")?,
        Ok(Some(line)) => println!(rt; "{name} differs: {line}")?,
        Err(error) => println!(rt; "{name} differs: {error}")?,
    }
    Ok(())
}

fn main(rt: HostRuntime) -> Result<ExitCode> {
    let name = env::args(&rt)?
        .nth(1)
        .context("the file of frames isn't named")?;
    let text = fs::read_to_string(&rt, name.as_str())?;
    let mut status = ExitCode::SUCCESS;
    for vector in &vectors_in(rt.alloc(), text.as_str())? {
        if !agrees(&rt, vector)? {
            status = ExitCode::FAILURE;
        }
    }
    Ok(status)
}
