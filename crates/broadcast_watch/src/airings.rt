//! When messages came on air.

ghost use Rattle.std.specs.Prelude.{◌≡◌, [], OnOk, OnErr};
ghost use Rattle.broadcast_watch.specs.Airings.{aired, is_of, kept, last_airing, others};

use crate::airing::Airing;
use crate::versions::{is_among, is_version};
use link_rules::Version;
use std::alloc::{AllocError, Global};
use std::marker::Model;

/// When each version came on air last, as replies said.
#[derive(Debug, Drop)]
pub struct Airings {
    all: Vec<Airing>,
}

impl Model for Airings {
    ghost use Rattle.std.specs.Prelude.{List};
    ghost use Rattle.broadcast_watch.specs.declared.airing.Airing.{Airing};

    ghost Value = { List Airing };

    ghost view = { λ a. a.all.items };
}

/// Whether it is of that version.
fn is_of(version: Version, airing: &Airing) -> bool
    ensures { result ≡ is_of version airing.now }
{
    is_version(version, airing.version)
}

/// Takes the version out.
fn take_out(all: &mut Vec<Airing>, version: Version)
    ensures { all.new.items ≡ others version all.old.items }
{
    all.retain(|airing| !is_of(version, airing));
}

/// Takes out all but these versions.
fn keep_only(all: &mut Vec<Airing>, versions: &[Version])
    ensures { all.new.items ≡ kept versions.now all.old.items }
{
    all.retain(|airing| is_among(versions, airing.version));
}

impl Airings {
    /// Nothing came on air.
    pub fn new(alloc: Global) -> Airings
        ensures { result ≡ [] }
    {
        Airings {
            all: Vec::new(alloc),
        }
    }

    /// The version came on air somewhere at that second. Where there is no memory for that, nothing is known of it.
    pub fn aired(&mut self, version: Version, second: u64) -> Result<(), AllocError>
        ensures aired { OnOk result (self.new ≡ aired version second self.old) }
        ensures lost { OnErr result (self.new ≡ others version self.old) }
    {
        take_out(&mut self.all, version);
        self.all.push(Airing { version, second })?;
        Ok(())
    }

    /// Forgets all versions but these.
    pub fn keep(&mut self, versions: &[Version])
        ensures { self.new ≡ kept versions.now self.old }
    {
        keep_only(&mut self.all, versions);
    }

    /// When the version came on air last.
    pub fn last(&self, version: Version) -> Option<u64>
        ensures { result ≡ last_airing version self.now }
    {
        match self.all.iter().find(|airing| is_of(version, airing)) {
            Some(airing) => Some(airing.second),
            None => None,
        }
    }
}
