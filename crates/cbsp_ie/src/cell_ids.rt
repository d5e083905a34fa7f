//! Identifications of one form.

ghost use Rattle.std.specs.Prelude.{◌≡◌, ◌≢◌, ◌↔◌, ◌&&◌, ◌++◌, ◌∷◌, [], IsTrue, IfOk, OnOk, OnErr, length, map};
ghost use Rattle.std.specs.Cmp.{decided, partial_equiv_from_equiv};
ghost use Rattle.cbsp_ie.specs.CellId.{form_of};
ghost use Rattle.cbsp_ie.specs.Equality.{identifications_decide};
ghost use Rattle.cbsp_ie.specs.Identifications.{HasForm, id_of_cell, identifications_eq};
ghost use Rattle.cbsp_ie.specs.Written.{cells_octets};

use crate::cell_id::CellId;
use crate::form::Form;
use common::Cell;
use std::alloc::{AllocError, Global};
use std::marker::Model;

/// The identifications of a cell list, all of one form, in their order. A list of form `All` is one
/// identification; a list of another form may be empty.
pub struct CellIds {
    form: Form,
    ids: Vec<CellId>,
}

/// Written out, so that no crate above proves anew how its parts are dropped.
impl Drop for CellIds {
    fn drop(self) {
        let CellIds {
            form: _form,
            ids: _ids,
        } = self;
    }
}

impl Model for CellIds {
    ghost use Rattle.cbsp_ie.specs.Identifications.{HasForm, Identifications};

    ghost Value = { Identifications };

    ghost view = { λ s. record { form = s.form; ids = s.ids.items } };

    ghost invariant = { λ s. HasForm s.form s.ids.items };
}

impl CellIds {
    /// An empty list.
    pub fn new(alloc: Global, form: Form) -> CellIds
        requires { form ≢ Form.All }
        ensures { result ≡ record { form = form; ids = [] } }
    {
        CellIds {
            form,
            ids: Vec::new(alloc),
        }
    }

    /// The list that names every cell.
    pub fn all(alloc: Global) -> Result<CellIds, AllocError>
        ensures { IfOk result (λ list. list ≡ record { form = Form.All; ids = CellId.All ∷ [] }) }
    {
        let ids = Vec::from_slice(alloc, &[CellId::All])?;
        Ok(CellIds {
            form: Form::All,
            ids,
        })
    }

    /// An empty list with room for so many identifications.
    pub fn with_capacity(alloc: Global, form: Form, room: usize) -> Result<CellIds, AllocError>
        requires { form ≢ Form.All }
        ensures { IfOk result (λ list. list ≡ record { form = form; ids = [] }) }
    {
        let ids = Vec::with_capacity(alloc, room)?;
        Ok(CellIds { form, ids })
    }

    /// The cells by LAC and CI, in their order.
    pub fn of_cells(alloc: Global, cells: &[Cell]) -> Result<CellIds, AllocError>
        ensures { IfOk result (λ list. list ≡ record { form = Form.LacCi; ids = map id_of_cell cells.now }) }
    {
        let mut list = CellIds::with_capacity(alloc, Form::LacCi, cells.len())?;
        for cell in cells {
            list.push(CellId::LacCi {
                lac: cell.lac,
                ci: cell.ci,
            })?;
        }
        Ok(list)
    }

    /// The form of the identifications, which the list has without any too.
    pub fn form(&self) -> Form
        ensures { result ≡ self.now.form }
    {
        self.form
    }

    pub fn len(&self) -> usize
        ensures { result ≡ length self.now.ids }
    {
        self.ids().len()
    }

    pub fn is_empty(&self) -> bool
        ensures { IsTrue result ↔ (self.now.ids ≡ []) }
    {
        self.ids().is_empty()
    }

    /// The identifications, each of the list's form.
    pub fn ids(&self) -> &[CellId]
        ensures value { result.now ≡ self.now.ids }
        ensures has_form { HasForm self.now.form self.now.ids }
    {
        &self.ids
    }

    /// How many octets the list is written as after its length.
    pub fn octets_len(&self) -> usize
        ensures { result ≡ length (cells_octets self.now) }
    {
        1 + self.ids().len() * self.form().size()
    }

    /// Adds an identification as the last one. At an `Err` the list is as it was.
    pub fn push(&mut self, id: CellId) -> Result<(), AllocError>
        requires form { form_of id ≡ self.old.form }
        requires some { self.old.form ≢ Form.All }
        ensures ok { OnOk result (self.new ≡ record { form = self.old.form; ids = self.old.ids ++ id ∷ [] }) }
        ensures err { OnErr result (self.new ≡ self.old) }
    {
        id.ranges();
        self.ids.push(id)?;
        Ok(())
    }

    /// The identifications as a vector, which is moved and not copied.
    pub fn into_vec(self) -> Vec<CellId>
        ensures { result.items ≡ self.ids }
    {
        let CellIds { form: _, ids } = self;
        ids
    }

    /// The same list in memory of its own.
    pub fn copied(&self, alloc: Global) -> Result<CellIds, AllocError>
        ensures { IfOk result (λ copy. copy ≡ self.now) }
    {
        let ids = Vec::from_slice(alloc, self.ids())?;
        Ok(CellIds {
            form: self.form(),
            ids,
        })
    }

    pub fn same(&self, other: &CellIds) -> bool
        ensures { IsTrue result ↔ (self.now ≡ other.now) }
    {
        *self == *other
    }
}

impl PartialEq for CellIds {
    ghost eq = { identifications_eq };

    ghost laws = { partial_equiv_from_equiv (decided identifications_eq identifications_decide) };

    fn eq(&self, other: &CellIds) -> bool {
        self.form() == other.form() && self.ids() == other.ids()
    }
}

impl Eq for CellIds {
    ghost laws = { decided identifications_eq identifications_decide };
}
