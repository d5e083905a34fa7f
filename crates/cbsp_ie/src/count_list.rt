//! A list of broadcasts completed, lent from the octets that it was read from.

ghost use Rattle.std.specs.Prelude.{◌≡◌, ◌↔◌, ◌++◌, [], IsTrue, IfOk, IfErr, IfSome, OnOk, OnErr, length, slice_get, take};
ghost use Rattle.std.specs.List.{flat_map};
ghost use Rattle.cbsp_ie.specs.CellId.{form_of};
ghost use Rattle.cbsp_ie.specs.CountList.{IsBadCountList, IsCountList};
ghost use Rattle.cbsp_ie.specs.Counts.{AreCountsOf};
ghost use Rattle.cbsp_ie.specs.Written.{count_octets, counts_octets};

use crate::cell_id::CellId;
use crate::count_entry::CountEntry;
use crate::counts::Counts;
use crate::entries::whole_entries;
use crate::form::Form;
use crate::ie_fault::IeFault;
use byteorder::{BigEndian, ByteOrder};
use std::alloc::{AllocError, Global};
use std::marker::Model;

/// Numbers of broadcasts by identifications of one form, as the octets that spell them.
#[derive(Drop)]
pub struct CountList<'a> {
    form: Form,
    octets: &'a [u8],
    count: usize,
}

impl<'a> Model for CountList<'a> {
    ghost use Rattle.std.specs.Prelude.{◌≡◌, ◌+◌, ◌*◌, length};
    ghost use Rattle.cbsp_ie.specs.CountList.{counts_at};
    ghost use Rattle.cbsp_ie.specs.Counts.{AreCountsOf, Numbers};
    ghost use Rattle.cbsp_ie.specs.Form.{size_of};

    ghost Value = { Numbers };

    ghost view = { λ s. record { form = s.form; entries = counts_at s.form s.count s.octets.now } };

    ghost invariant = { λ s. (s.count * (size_of s.form + 3) ≡ length s.octets.now) × AreCountsOf s.form (counts_at s.form s.count s.octets.now) };
}

impl<'a> CountList<'a> {
    /// Reads the octets that follow the list's length.
    pub(crate) fn read(listed: &'a [u8]) -> Result<CountList<'a>, IeFault>
        ensures found { IfOk result (λ counts. IsCountList listed.now counts) }
        ensures fault { IfErr result (IsBadCountList listed.now) }
    {
        let [first, octets @ ..] = listed else {
            return Ok(CountList {
                form: Form::LacCi,
                octets: listed,
                count: 0,
            });
        };
        let discriminator = *first % 16;
        let Some(form) = Form::from_discriminator(discriminator) else {
            return Err(IeFault::BadDiscriminator { discriminator });
        };
        match whole_entries(form.size() + 3, octets.len()) {
            Some(count) => Ok(CountList {
                form,
                octets,
                count,
            }),
            None => Err(IeFault::PartialEntry),
        }
    }

    /// The form that the discriminator announced. A list that was read from no octets has `LacCi`.
    pub fn form(&self) -> Form
        ensures value { result ≡ self.now.form }
        ensures has_form { AreCountsOf self.now.form self.now.entries }
    {
        self.form
    }

    pub fn len(&self) -> usize
        ensures { result ≡ length self.now.entries }
    {
        self.count
    }

    pub fn is_empty(&self) -> bool
        ensures { IsTrue result ↔ (self.now.entries ≡ []) }
    {
        self.len() == 0
    }

    /// The entry at the index, in one step.
    pub fn get(&self, index: usize) -> Option<CountEntry>
        ensures value { result ≡ slice_get self.now.entries index }
        ensures form { IfSome result (λ e. form_of e.id ≡ self.now.form) }
    {
        if index >= self.count {
            return None;
        }
        let size = self.form.size();
        let (_, octets) = self.octets.split_at(index * (size + 3));
        let (_, number) = octets.split_at(size);
        Some(CountEntry {
            id: CellId::read(self.form, octets),
            number: BigEndian::read_u16(number),
            info: octets[size + 2] % 16,
        })
    }

    /// The entries in memory of their own.
    pub fn to_counts(&self, alloc: Global) -> Result<Counts, AllocError>
        ensures { IfOk result (λ counts. counts ≡ self.now) }
    {
        let mut counts = Counts::with_capacity(alloc, self.form(), self.len())?;
        for index in 0..self.len() {
            counts.push(self.get(index).unwrap())?;
        }
        Ok(counts)
    }

    /// How many octets the list is written as after its length.
    pub fn octets_len(&self) -> usize
        ensures { result ≡ length (counts_octets self.now) }
    {
        1 + self.octets.len()
    }

    // Appends the entries, or at an `Err` perhaps a part of them.
    pub(crate) fn write(&self, out: &mut Vec<u8>) -> Result<(), AllocError>
        ensures ok { OnOk result (out.new.items ≡ out.old.items ++ flat_map count_octets self.now.entries) }
        ensures err { OnErr result (take (length out.old.items) out.new.items ≡ out.old.items) }
    {
        for index in 0..self.len() {
            self.get(index).unwrap().write(out)?;
        }
        Ok(())
    }
}
