//! The cells in which an order failed, with the cause of each.

ghost use Rattle.std.specs.Prelude.{◌≡◌, ◌↔◌, ◌++◌, ◌∷◌, [], IsTrue, IfOk, OnOk, OnErr, length};
ghost use Rattle.std.specs.Cmp.{decided, partial_equiv_from_equiv};
ghost use Rattle.std.specs.Cmp.Lexicographic.{pointwise};
ghost use Rattle.std.specs.List.{AllByRecursion};
ghost use Rattle.cbsp_ie.specs.Equality.{failures_decide};
ghost use Rattle.cbsp_ie.specs.Failures.{IsFailEntry, failure_eq};
ghost use Rattle.cbsp_ie.specs.Written.{failures_octets};

use crate::fail_entry::FailEntry;
use std::alloc::{AllocError, Global};
use std::marker::Model;

/// The entries of a failure list in their order, each with an identification of any form.
pub struct Failures {
    entries: Vec<FailEntry>,
}

/// Written out, so that no crate above proves anew how its parts are dropped.
impl Drop for Failures {
    fn drop(self) {
        let Failures { entries: _entries } = self;
    }
}

impl Model for Failures {
    ghost use Rattle.std.specs.Prelude.{List};
    ghost use Rattle.std.specs.List.{AllByRecursion};
    ghost use Rattle.cbsp_ie.specs.declared.fail_entry.FailEntry.{FailEntry};
    ghost use Rattle.cbsp_ie.specs.Failures.{IsFailEntry};

    ghost Value = { List FailEntry };

    ghost view = { λ s. s.entries.items };

    ghost invariant = { λ s. AllByRecursion IsFailEntry s.entries.items };
}

impl Failures {
    /// An empty list.
    pub fn new(alloc: Global) -> Failures
        ensures { result ≡ [] }
    {
        Failures {
            entries: Vec::new(alloc),
        }
    }

    /// An empty list with room for so many entries.
    pub fn with_capacity(alloc: Global, room: usize) -> Result<Failures, AllocError>
        ensures { IfOk result (λ list. list ≡ []) }
    {
        let entries = Vec::with_capacity(alloc, room)?;
        Ok(Failures { entries })
    }

    /// The entries of the vector, which is moved.
    pub fn from_vec(entries: Vec<FailEntry>) -> Failures
        ensures { result ≡ entries.items }
    {
        all_ranges(entries.as_slice());
        Failures { entries }
    }

    pub fn as_slice(&self) -> &[FailEntry]
        ensures value { result.now ≡ self.now }
        ensures ranges { AllByRecursion IsFailEntry self.now }
    {
        &self.entries
    }

    /// The entries as a vector, which is moved and not copied.
    pub fn into_vec(self) -> Vec<FailEntry>
        ensures { result.items ≡ self }
    {
        let Failures { entries } = self;
        entries
    }

    pub fn len(&self) -> usize
        ensures { result ≡ length self.now }
    {
        self.as_slice().len()
    }

    pub fn is_empty(&self) -> bool
        ensures { IsTrue result ↔ (self.now ≡ []) }
    {
        self.as_slice().is_empty()
    }

    /// How many octets the list is written as after its length.
    pub fn octets_len(&self) -> usize
        ensures { result ≡ length (failures_octets self.now) }
    {
        let mut octets = 0;
        let entries = self.as_slice();
        for entry in entries {
            octets += entry.id.form().size() + 2;
        }
        octets
    }

    /// Adds an entry as the last one. At an `Err` the list is as it was.
    pub fn push(&mut self, entry: FailEntry) -> Result<(), AllocError>
        ensures ok { OnOk result (self.new ≡ self.old ++ entry ∷ []) }
        ensures err { OnErr result (self.new ≡ self.old) }
    {
        entry.ranges();
        self.entries.push(entry)?;
        Ok(())
    }

    /// The same list in memory of its own.
    pub fn copied(&self, alloc: Global) -> Result<Failures, AllocError>
        ensures { IfOk result (λ copy. copy ≡ self.now) }
    {
        let entries = Vec::from_slice(alloc, self.as_slice())?;
        Ok(Failures { entries })
    }

    pub fn same(&self, other: &Failures) -> bool
        ensures { IsTrue result ↔ (self.now ≡ other.now) }
    {
        *self == *other
    }
}

// That the numbers of every entry are in their ranges is known once they are read.
fn all_ranges(entries: &[FailEntry])
    ensures { AllByRecursion IsFailEntry entries.now }
{
    for entry in entries {
        entry.ranges();
    }
}

impl PartialEq for Failures {
    ghost eq = { pointwise failure_eq };

    ghost laws = { partial_equiv_from_equiv (decided (pointwise failure_eq) failures_decide) };

    fn eq(&self, other: &Failures) -> bool {
        self.as_slice() == other.as_slice()
    }
}

impl Eq for Failures {
    ghost laws = { decided (pointwise failure_eq) failures_decide };
}
