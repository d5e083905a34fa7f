//! The file of peers.

use crate::fault::ServeFault;
use crate::options::ServeOptions;
use console_text::ReplayFault;
use link_rules::{Peers, PeersFault};
use server_errors::{Errors, Level, say_of_centre_at};
use std::alloc::{AllocError, Global};
use std::fs::{Files, OpenOptions};
use std::io;
use std::io::{ErrorKind, Read, Write};
use std::sync::Wait;
use std::time::Clock;
use thiserror::Error;

/// The most octets that the file may have.
const MOST_OCTETS: u64 = 10_000_000;

/// Why the file can't be taken.
#[derive(Debug, Drop, Error)]
pub enum PeersError {
    #[error("the file is too long")]
    TooLong,
    #[error("{0}")]
    List(PeersFault),
    #[error("{0}")]
    File(io::Error),
}

/// The octets of the file, and one more than it may have at most.
fn octets_of<R: Files>(rt: &R, alloc: Global, name: &str) -> io::Result<Vec<u8>> {
    let file = OpenOptions::new().read(true).open(rt, name)?;
    let mut octets = Vec::new(alloc);
    file.take(MOST_OCTETS + 1).read_to_end(&mut octets)?;
    Ok(octets)
}

/// The peers in the file of that name.
pub(crate) fn load_peers<R: Files>(rt: &R, alloc: Global, name: &str) -> Result<Peers, PeersError> {
    let octets = match octets_of(rt, alloc, name) {
        Ok(octets) => octets,
        Err(error) => return Err(PeersError::File(error)),
    };
    if octets.len() as u64 > MOST_OCTETS {
        return Err(PeersError::TooLong);
    }
    match Peers::read(alloc, octets.as_slice()) {
        Ok(peers) => Ok(peers),
        Err(fault) => Err(PeersError::List(fault)),
    }
}

/// Whether memory ran out.
fn is_starved(error: &PeersError) -> bool {
    match error {
        PeersError::List(PeersFault::Memory) => true,
        PeersError::File(error) => error.kind() == ErrorKind::OutOfMemory,
        _ => false,
    }
}

/// Says why the file can't be taken.
fn refuse<R: Wait + Clock, E: Write + Drop>(
    rt: &R,
    alloc: Global,
    errors: &Errors<E>,
    why: &PeersError,
) -> ServeFault {
    if is_starved(why) {
        return ServeFault::Lines(ReplayFault::Memory);
    }
    if let Ok(text) = format!(in alloc; "peers: {why}") {
        say_of_centre_at(rt, alloc, errors, Level::Error, text);
    }
    ServeFault::Peers
}

/// Reads the file of peers, where one is given. What is wrong with it is said: `peers: line 3 can't be read`, or the error of the
/// system.
pub fn read_peers<R: Files + Wait + Clock, E: Write + Drop>(
    rt: &R,
    alloc: Global,
    options: &ServeOptions,
    errors: &Errors<E>,
) -> Result<Option<Peers>, ServeFault> {
    let Some(name) = &options.peers else {
        return Ok(None);
    };
    match load_peers(rt, alloc, name.as_str()) {
        Ok(peers) => Ok(Some(peers)),
        Err(error) => {
            let fault = refuse(rt, alloc, errors, &error);
            drop(error);
            Err(fault)
        }
    }
}

/// The name of the file of peers, where one is given.
pub fn peers_name(alloc: Global, options: &ServeOptions) -> Result<Option<String>, AllocError> {
    match &options.peers {
        Some(name) => Ok(Some(String::from_str(alloc, name.as_str())?)),
        None => Ok(None),
    }
}
