//! Names in order.

ghost use Rattle.std.specs.Prelude.{◌≡◌, ◌≤◌, ◌<◌, IsTrue, slice_index_or, ◌||◌, [], ℕ, List, true, false, not, nat_eq, bytes_eq, length, OnOk, OnErr};
ghost use Rattle.std.specs.List.{filter};
ghost use Rattle.std.specs.List.Sorted.{IsPartitionPoint};
ghost use Rattle.common.specs.Order.{is_ascending};
ghost use Rattle.areas.specs.Holders.{has_name};
ghost use Rattle.areas.specs.Name.{octets_lt};

use crate::naming::is_before;
use common::Name;
use std::alloc::{AllocError, Global};
use std::marker::Model;

/// Names in the order of their octets, each once.
#[derive(Drop)]
pub(crate) struct AscendingNames {
    names: Vec<Name>,
}

impl Model for AscendingNames {
    ghost use Rattle.std.specs.Prelude.{◌≡◌, List, ℕ, true};
    ghost use Rattle.common.specs.Order.{is_ascending};
    ghost use Rattle.areas.specs.Name.{octets_lt};

    ghost Value = { List (List ℕ) };

    ghost view = { λ s. s.names.items };

    ghost invariant = { λ s. is_ascending octets_lt s.names.items ≡ true };
}

/// Where the name stands among names in order, or where it would have to stand.
fn start_of(names: &[Name], a: &Name) -> usize
    requires { is_ascending octets_lt names.now ≡ true }
    ensures bound { result ≤ length names.now }
    ensures point { IsPartitionPoint (λ b. octets_lt b a.now ≡ true) (λ b. octets_lt b a.now ≡ false) names.now result }
{
    names.partition_point(|name| is_before(name, a))
}

/// Whether the name stands at that place.
fn stands_at(names: &[Name], place: usize, a: &Name) -> bool
    ensures there { IsTrue result → has_name a.now names.now ≡ true }
    ensures other { result ≡ false → (d : List ℕ) → place < length names.now → bytes_eq (slice_index_or names.now place d) a.now ≡ false }
{
    match names.get(place) {
        Some(name) => *name == *a,
        None => false,
    }
}

impl Clone for AscendingNames {
    ghost use Rattle.std.specs.Prelude.{◌≡◌};

    ghost is_clone = { λ s t. t ≡ s };

    fn clone(&self) -> Result<AscendingNames, AllocError> {
        Ok(AscendingNames {
            names: self.names.clone()?,
        })
    }
}

impl AscendingNames {
    pub(crate) fn new(alloc: Global) -> AscendingNames
        ensures { result ≡ [] }
    {
        AscendingNames {
            names: Vec::new(alloc),
        }
    }

    pub(crate) fn is_empty(&self) -> bool
        ensures { result ≡ nat_eq (length self.now) 0 }
    {
        self.names.is_empty()
    }

    pub(crate) fn as_slice(&self) -> &[Name]
        ensures names { result.now ≡ self.now }
        ensures order { is_ascending octets_lt result.now ≡ true }
    {
        &self.names
    }

    /// The names as a vector, which is moved and not copied.
    pub(crate) fn into_vec(self) -> Vec<Name>
        ensures names { result.items ≡ self }
        ensures order { is_ascending octets_lt result.items ≡ true }
    {
        let AscendingNames { names } = self;
        names
    }

    /// Puts a copy of the name in its place, unless the name is among them.
    pub(crate) fn insert(&mut self, alloc: Global, a: &Name) -> Result<(), AllocError>
        ensures inserted { OnOk result ((b : List ℕ) → has_name b self.new ≡ (bytes_eq a.now b || has_name b self.old)) }
        ensures unchanged { OnErr result (self.new ≡ self.old) }
    {
        let names = self.names.as_slice();
        let place = start_of(names, a);
        if stands_at(names, place, a) {
            return Ok(());
        }
        let name = a.copied(alloc)?;
        self.names.insert(place, name)?;
        Ok(())
    }

    /// Takes the name out.
    pub(crate) fn remove(&mut self, a: &Name)
        ensures { self.new ≡ filter (λ b. not (bytes_eq b a.now)) self.old }
    {
        self.names.retain(|name| *name != *a);
    }
}
