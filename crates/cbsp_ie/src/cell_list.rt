//! A cell list, lent from the octets that it was read from.

ghost use Rattle.std.specs.Prelude.{◌≡◌, ◌↔◌, ◌++◌, [], IsTrue, IfOk, IfErr, IfSome, OnOk, OnErr, length, slice_get, take};
ghost use Rattle.std.specs.List.{flat_map};
ghost use Rattle.cbsp_ie.specs.CellId.{form_of, id_octets};
ghost use Rattle.cbsp_ie.specs.CellList.{IsBadCellList, IsCellList};
ghost use Rattle.cbsp_ie.specs.Identifications.{HasForm};
ghost use Rattle.cbsp_ie.specs.Written.{cells_octets};

use crate::cell_id::CellId;
use crate::cell_ids::CellIds;
use crate::entries::whole_entries;
use crate::form::Form;
use crate::ie_fault::IeFault;
use std::alloc::{AllocError, Global};
use std::marker::Model;

/// Identifications of one form, as the octets that spell them.
#[derive(Drop)]
pub struct CellList<'a> {
    form: Form,
    octets: &'a [u8],
    count: usize,
}

impl<'a> Model for CellList<'a> {
    ghost use Rattle.std.specs.Prelude.{◌≡◌, ◌*◌, length};
    ghost use Rattle.cbsp_ie.specs.CellList.{ids_at};
    ghost use Rattle.cbsp_ie.specs.Form.{size_of};
    ghost use Rattle.cbsp_ie.specs.Identifications.{HasForm, Identifications};

    ghost Value = { Identifications };

    ghost view = { λ s. record { form = s.form; ids = ids_at s.form s.count s.octets.now } };

    ghost invariant = { λ s. (s.count * size_of s.form ≡ length s.octets.now) × HasForm s.form (ids_at s.form s.count s.octets.now) };
}

impl<'a> CellList<'a> {
    /// Reads the octets that follow the list's length.
    pub(crate) fn read(listed: &'a [u8]) -> Result<CellList<'a>, IeFault>
        ensures found { IfOk result (λ cells. IsCellList listed.now cells) }
        ensures fault { IfErr result (IsBadCellList listed.now) }
    {
        let [first, octets @ ..] = listed else {
            return Ok(CellList {
                form: Form::LacCi,
                octets: listed,
                count: 0,
            });
        };
        let discriminator = *first % 16;
        let Some(form) = Form::from_discriminator(discriminator) else {
            return Err(IeFault::BadDiscriminator { discriminator });
        };
        match whole_entries(form.size(), octets.len()) {
            Some(count) => Ok(CellList {
                form,
                octets,
                count,
            }),
            None => Err(IeFault::PartialEntry),
        }
    }

    /// The form that the discriminator announced. A list that was read from no octets has `LacCi`.
    pub fn form(&self) -> Form
        ensures value { result ≡ self.now.form }
        ensures has_form { HasForm self.now.form self.now.ids }
    {
        self.form
    }

    pub fn len(&self) -> usize
        ensures { result ≡ length self.now.ids }
    {
        self.count
    }

    pub fn is_empty(&self) -> bool
        ensures { IsTrue result ↔ (self.now.ids ≡ []) }
    {
        self.len() == 0
    }

    /// The identification at the index, in one step.
    pub fn get(&self, index: usize) -> Option<CellId>
        ensures value { result ≡ slice_get self.now.ids index }
        ensures form { IfSome result (λ id. form_of id ≡ self.now.form) }
    {
        if index >= self.count {
            return None;
        }
        let (_, octets) = self.octets.split_at(index * self.form.size());
        Some(CellId::read(self.form, octets))
    }

    /// The identifications in memory of their own.
    pub fn to_ids(&self, alloc: Global) -> Result<CellIds, AllocError>
        ensures { IfOk result (λ ids. ids ≡ self.now) }
    {
        let form = self.form();
        if let Form::All = form {
            return CellIds::all(alloc);
        }
        let mut ids = CellIds::with_capacity(alloc, form, self.len())?;
        for index in 0..self.len() {
            ids.push(self.get(index).unwrap())?;
        }
        Ok(ids)
    }

    /// How many octets the list is written as after its length.
    pub fn octets_len(&self) -> usize
        ensures { result ≡ length (cells_octets self.now) }
    {
        1 + self.octets.len()
    }

    // Appends the identifications, or at an `Err` perhaps a part of them.
    pub(crate) fn write(&self, out: &mut Vec<u8>) -> Result<(), AllocError>
        ensures ok { OnOk result (out.new.items ≡ out.old.items ++ flat_map id_octets self.now.ids) }
        ensures err { OnErr result (take (length out.old.items) out.new.items ≡ out.old.items) }
    {
        for index in 0..self.len() {
            self.get(index).unwrap().write(out)?;
        }
        Ok(())
    }
}
