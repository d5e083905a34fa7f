//! Numbers of broadcasts completed, by identifications of one form.

ghost use Rattle.std.specs.Prelude.{◌≡◌, ◌↔◌, ◌++◌, ◌∷◌, [], IsTrue, IfOk, OnOk, OnErr, length};
ghost use Rattle.std.specs.Cmp.{decided, partial_equiv_from_equiv};
ghost use Rattle.cbsp_ie.specs.CellId.{form_of};
ghost use Rattle.cbsp_ie.specs.Counts.{AreCountsOf, IsCountEntry, numbers_eq};
ghost use Rattle.cbsp_ie.specs.Equality.{numbers_decide};
ghost use Rattle.cbsp_ie.specs.Written.{counts_octets};

use crate::count_entry::CountEntry;
use crate::form::Form;
use std::alloc::{AllocError, Global};
use std::marker::Model;

/// The entries of a list of broadcasts completed, all of one form, in their order.
pub struct Counts {
    form: Form,
    entries: Vec<CountEntry>,
}

/// Written out, so that no crate above proves anew how its parts are dropped.
impl Drop for Counts {
    fn drop(self) {
        let Counts {
            form: _form,
            entries: _entries,
        } = self;
    }
}

impl Model for Counts {
    ghost use Rattle.cbsp_ie.specs.Counts.{AreCountsOf, Numbers};

    ghost Value = { Numbers };

    ghost view = { λ s. record { form = s.form; entries = s.entries.items } };

    ghost invariant = { λ s. AreCountsOf s.form s.entries.items };
}

impl Counts {
    /// An empty list.
    pub fn new(alloc: Global, form: Form) -> Counts
        ensures { result ≡ record { form = form; entries = [] } }
    {
        Counts {
            form,
            entries: Vec::new(alloc),
        }
    }

    /// An empty list with room for so many entries.
    pub fn with_capacity(alloc: Global, form: Form, room: usize) -> Result<Counts, AllocError>
        ensures { IfOk result (λ list. list ≡ record { form = form; entries = [] }) }
    {
        let entries = Vec::with_capacity(alloc, room)?;
        Ok(Counts { form, entries })
    }

    /// The form of the entries' identifications, which the list has without any too.
    pub fn form(&self) -> Form
        ensures { result ≡ self.now.form }
    {
        self.form
    }

    pub fn len(&self) -> usize
        ensures { result ≡ length self.now.entries }
    {
        self.entries().len()
    }

    pub fn is_empty(&self) -> bool
        ensures { IsTrue result ↔ (self.now.entries ≡ []) }
    {
        self.entries().is_empty()
    }

    /// The entries, each with an identification of the list's form.
    pub fn entries(&self) -> &[CountEntry]
        ensures value { result.now ≡ self.now.entries }
        ensures has_form { AreCountsOf self.now.form self.now.entries }
    {
        &self.entries
    }

    /// How many octets the list is written as after its length.
    pub fn octets_len(&self) -> usize
        ensures { result ≡ length (counts_octets self.now) }
    {
        1 + self.entries().len() * (self.form().size() + 3)
    }

    /// Adds an entry as the last one. At an `Err` the list is as it was.
    pub fn push(&mut self, entry: CountEntry) -> Result<(), AllocError>
        requires { form_of entry.id ≡ self.old.form }
        ensures ok { OnOk result (self.new ≡ record { form = self.old.form; entries = self.old.entries ++ entry ∷ [] }) }
        ensures err { OnErr result (self.new ≡ self.old) }
    {
        entry.ranges();
        self.entries.push(entry)?;
        Ok(())
    }

    /// The entries as a vector, which is moved and not copied.
    pub fn into_vec(self) -> Vec<CountEntry>
        ensures { result.items ≡ self.entries }
    {
        let Counts { form: _, entries } = self;
        entries
    }

    /// The same list in memory of its own.
    pub fn copied(&self, alloc: Global) -> Result<Counts, AllocError>
        ensures { IfOk result (λ copy. copy ≡ self.now) }
    {
        let entries = Vec::from_slice(alloc, self.entries())?;
        Ok(Counts {
            form: self.form(),
            entries,
        })
    }

    pub fn same(&self, other: &Counts) -> bool
        ensures { IsTrue result ↔ (self.now ≡ other.now) }
    {
        *self == *other
    }
}

impl PartialEq for Counts {
    ghost eq = { numbers_eq };

    ghost laws = { partial_equiv_from_equiv (decided numbers_eq numbers_decide) };

    fn eq(&self, other: &Counts) -> bool {
        self.form() == other.form() && self.entries() == other.entries()
    }
}

impl Eq for Counts {
    ghost laws = { decided numbers_eq numbers_decide };
}
