//! A list of versions.

ghost use Rattle.std.specs.Prelude.{◌≡◌, ◌<◌, ◌≤◌, ◌++◌, ◌∷◌, [], not, nat_eq, map, OnOk, OnErr};
ghost use Rattle.std.specs.List.{filter};
ghost use Rattle.std.specs.Vec.{vec_len, vec_capacity};
ghost use Rattle.warning_book.specs.Book.{but_serial};

use crate::version::Version;
use serials::Serial;
use std::alloc::{AllocError, Global};
use std::marker::Model;

/// Versions of a warning in the order in which they were issued, the current one last. Their serial numbers stand beside them,
/// so that these can be lent as one list.
#[derive(Drop)]
pub struct Versions {
    versions: Vec<Version>,
    serials: Vec<Serial>,
}

impl Model for Versions {
    ghost use Rattle.std.specs.Prelude.{◌≡◌, List, map};
    ghost use Rattle.warning_book.specs.declared.version.Version.{Version};

    ghost Value = { List Version };

    ghost view = { λ s. s.versions.items };

    ghost invariant = { λ s. s.serials.items ≡ map (λ v. v.serial) s.versions.items };
}

impl Clone for Versions {
    ghost use Rattle.std.specs.Prelude.{◌≡◌};

    ghost is_clone = { λ s t. t ≡ s };

    fn clone(&self) -> Result<Versions, AllocError> {
        Ok(Versions {
            versions: self.versions.clone()?,
            serials: self.serials.clone()?,
        })
    }
}

/// Puts an element last, for which there is room.
fn put_last<T: Drop>(all: &mut Vec<T>, last: T)
    requires { vec_len all.old < vec_capacity all.old }
    ensures { all.new.items ≡ all.old.items ++ last ∷ [] }
{
    let _ = all.push(last);
}

/// Takes out the version of that serial number, if there is one.
fn take_out(versions: &mut Vec<Version>, serial: Serial)
    ensures items { versions.new.items ≡ but_serial serial versions.old.items }
    ensures room { vec_len versions.new ≤ vec_len versions.old }
    ensures capacity { vec_capacity versions.new ≡ vec_capacity versions.old }
{
    versions.retain(|version| version.serial != serial);
}

/// Takes out the serial number, if it is there.
fn take_serial_out(serials: &mut Vec<Serial>, serial: Serial)
    ensures items { serials.new.items ≡ filter (λ other. not (nat_eq other serial)) serials.old.items }
    ensures room { vec_len serials.new ≤ vec_len serials.old }
    ensures capacity { vec_capacity serials.new ≡ vec_capacity serials.old }
{
    serials.retain(|other| *other != serial);
}

impl Versions {
    /// No versions. What they will need is taken from the allocator.
    pub(crate) fn new(alloc: Global) -> Versions
        ensures { result ≡ [] }
    {
        Versions {
            versions: Vec::new(alloc),
            serials: Vec::new(alloc),
        }
    }

    pub(crate) fn as_slice(&self) -> &[Version]
        ensures { result.now ≡ self.now }
    {
        &self.versions
    }

    /// Their serial numbers, in the same order.
    pub(crate) fn serials(&self) -> &[Serial]
        ensures { result.now ≡ map (λ v. v.serial) self.now }
    {
        &self.serials
    }

    /// Puts a version last, which makes it the current one. A version that has its serial number is taken out.
    pub(crate) fn follow(&mut self, version: Version) -> Result<(), AllocError>
        ensures put { OnOk result (self.new ≡ but_serial version.serial self.old ++ version ∷ []) }
        ensures unchanged { OnErr result (self.new ≡ self.old) }
    {
        self.versions.try_reserve(1)?;
        self.serials.try_reserve(1)?;
        take_out(&mut self.versions, version.serial);
        take_serial_out(&mut self.serials, version.serial);
        put_last(&mut self.serials, version.serial);
        put_last(&mut self.versions, version);
        Ok(())
    }

    /// Puts a version last, which makes it the current one.
    pub(crate) fn push(&mut self, version: Version) -> Result<(), AllocError>
        ensures put { OnOk result (self.new ≡ self.old ++ version ∷ []) }
        ensures unchanged { OnErr result (self.new ≡ self.old) }
    {
        self.versions.try_reserve(1)?;
        self.serials.try_reserve(1)?;
        put_last(&mut self.serials, version.serial);
        put_last(&mut self.versions, version);
        Ok(())
    }
}
