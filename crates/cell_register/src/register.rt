//! The register.

ghost use Rattle.std.specs.Prelude.{◌≡◌, ◌⊎◌, None, Some, length, OnOk, OnErr, IfOk, IfErr};
ghost use Rattle.common.specs.Checks.{first_refusal};
ghost use Rattle.cell_register.specs.Register.{empty, has_bsc, has_cells, place_in, cells_of, cells_in, all_cells, with_bsc, without_bsc, with_cell, moved, without_cell, add_bsc_checks, remove_bsc_checks, add_cell_checks, move_cell_checks, remove_cell_checks};
ghost use Rattle.cell_register.specs.Sound.{IsRegister};

use crate::bsc_id::BscId;
use crate::bscs;
use crate::places::Places;
use crate::refusal::{Limit, Refusal};
use common::{Cell, Cells, insert_in_order};
use std::alloc::{AllocError, Global};
use std::marker::Model;

/// The BSCs that are registered, and the cells, each at one of them. An edit that is refused leaves it as it was.
pub struct Register {
    alloc: Global,
    bscs: Vec<BscId>,
    places: Places,
}

/// Written out, so that no crate above proves anew how its parts are dropped.
impl Drop for Register {
    fn drop(self) {
        let Register {
            alloc: _alloc,
            bscs: _bscs,
            places: _places,
        } = self;
    }
}

impl Model for Register {
    ghost use Rattle.cell_register.specs.Register.{State};
    ghost use Rattle.cell_register.specs.Sound.{IsRegister};

    ghost Value = { State };

    ghost view = { λ r. record { bscs = r.bscs.items; cells = r.places } };

    ghost invariant = { λ r. IsRegister (record { bscs = r.bscs.items; cells = r.places }) };
}

impl Register {
    /// The same, in memory of its own.
    pub fn copied(&self) -> Result<Register, AllocError>
        ensures { IfOk result (λ copy. copy ≡ self.now) }
    {
        Ok(Register {
            alloc: self.alloc,
            bscs: self.bscs.clone()?,
            places: self.places.copied()?,
        })
    }

    /// A register without BSCs and cells.
    pub fn new(alloc: Global) -> Register
        ensures { result ≡ empty }
    {
        Register {
            alloc,
            bscs: Vec::new(alloc),
            places: Places::new(alloc),
        }
    }

    /// A lemma, not a test: it returns nothing, and its clause says what holds of each register.
    pub fn tell_soundness(&self)
        ensures { IsRegister self.now }
    {
        let _ = &self.bscs;
    }

    /// Whether the BSC is registered, with cells or without.
    pub fn has_bsc(&self, b: BscId) -> bool
        ensures { result ≡ has_bsc self.now b }
    {
        bscs::is_among(b, self.bscs.as_slice())
    }

    /// The registered BSCs, in ascending order.
    pub fn bscs(&self) -> &[BscId]
        ensures { result.now ≡ self.now.bscs }
    {
        self.bscs.as_slice()
    }

    /// Whether a cell is registered at the BSC.
    pub fn has_cells(&self, b: BscId) -> bool
        ensures { result ≡ has_cells self.now b }
    {
        self.places.has_cells(b)
    }

    /// The BSC at which the cell is registered.
    pub fn bsc_of(&self, c: Cell) -> Option<BscId>
        ensures { result ≡ place_in self.now c }
    {
        self.places.bsc_of(c)
    }

    /// The same as `bsc_of`, for a caller who asks for several cells in ascending order. `near` is where the last of them
    /// stands among the registered cells, and 0 before the first. The cell is looked for there and at the next place, and
    /// otherwise by a binary search. Where it is registered, `near` becomes its place; otherwise `near` stays. Only the
    /// time depends on `near`, which can be any number.
    #[inline(always)]
    pub fn bsc_near(&self, c: Cell, near: &mut usize) -> Option<BscId>
        ensures { result ≡ place_in self.now c }
    {
        self.places.bsc_near(c, near)
    }

    /// The cells that are registered at the BSC, in ascending order; none where there is no such BSC.
    pub fn cells_of(&self, b: BscId) -> Result<Cells, AllocError>
        ensures { IfOk result (λ cells. cells ≡ cells_of self.now b) }
    {
        self.places.cells_of(self.alloc, b)
    }

    /// The registered cells of the location area, in ascending order; none where there is no such area.
    pub fn cells_in(&self, lac: u16) -> Result<Cells, AllocError>
        ensures { IfOk result (λ cells. cells ≡ cells_in self.now lac) }
    {
        self.places.cells_in(self.alloc, lac)
    }

    /// How many cells are registered. It takes no memory.
    pub fn cell_count(&self) -> usize
        ensures { result ≡ length self.now.cells }
    {
        self.places.len()
    }

    /// Every registered cell, in ascending order.
    pub fn all_cells(&self) -> Result<Cells, AllocError>
        ensures { IfOk result (λ cells. cells ≡ all_cells self.now) }
    {
        self.places.all_cells(self.alloc)
    }

    /// Whether a BSC can be registered now, and what refuses it. It changes nothing and takes no memory.
    ///
    /// `BscExists`, then `Limit` where there are 256 BSCs.
    pub fn check_add_bsc(&self, b: BscId) -> Result<(), Refusal>
        ensures accepted { OnOk result (first_refusal (add_bsc_checks self.now b) ≡ None) }
        ensures refused { IfErr result (λ e. first_refusal (add_bsc_checks self.now b) ≡ Some e) }
    {
        if bscs::is_among(b, self.bscs.as_slice()) {
            return Err(Refusal::BscExists);
        }
        if self.bscs.len() >= 256 {
            return Err(Refusal::Limit { which: Limit::Bscs });
        }
        Ok(())
    }

    /// Whether a BSC can be taken out now, and what refuses it. It changes nothing and takes no memory.
    ///
    /// `NoSuchBsc`, then `BscHasCells`.
    pub fn check_remove_bsc(&self, b: BscId) -> Result<(), Refusal>
        ensures accepted { OnOk result (first_refusal (remove_bsc_checks self.now b) ≡ None) }
        ensures refused { IfErr result (λ e. first_refusal (remove_bsc_checks self.now b) ≡ Some e) }
    {
        if !bscs::is_among(b, self.bscs.as_slice()) {
            return Err(Refusal::NoSuchBsc);
        }
        if self.places.has_cells(b) {
            return Err(Refusal::BscHasCells);
        }
        Ok(())
    }

    /// Whether a cell can be registered now at the BSC, and what refuses it. It changes nothing and takes no memory.
    ///
    /// `NoSuchBsc`, `CellExists`, then `Limit` where there are 65,536 cells.
    pub fn check_add_cell(&self, c: Cell, at: BscId) -> Result<(), Refusal>
        ensures accepted { OnOk result (first_refusal (add_cell_checks self.now c at) ≡ None) }
        ensures refused { IfErr result (λ e. first_refusal (add_cell_checks self.now c at) ≡ Some e) }
    {
        if !bscs::is_among(at, self.bscs.as_slice()) {
            return Err(Refusal::NoSuchBsc);
        }
        if self.places.bsc_of(c).is_some() {
            return Err(Refusal::CellExists);
        }
        if self.places.len() >= 65536 {
            return Err(Refusal::Limit {
                which: Limit::Cells,
            });
        }
        Ok(())
    }

    /// Whether a cell can be moved now to the BSC, and what refuses it. It changes nothing and takes no memory.
    ///
    /// `NoSuchBsc`, `NoSuchCell`, then `SameBsc` where it is registered at this BSC.
    pub fn check_move_cell(&self, c: Cell, to: BscId) -> Result<(), Refusal>
        ensures accepted { OnOk result (first_refusal (move_cell_checks self.now c to) ≡ None) }
        ensures refused { IfErr result (λ e. first_refusal (move_cell_checks self.now c to) ≡ Some e) }
    {
        if !bscs::is_among(to, self.bscs.as_slice()) {
            return Err(Refusal::NoSuchBsc);
        }
        match self.places.bsc_of(c) {
            None => Err(Refusal::NoSuchCell),
            Some(old) if old == to => Err(Refusal::SameBsc),
            Some(_) => Ok(()),
        }
    }

    /// Whether a cell can be taken out now, and what refuses it. It changes nothing and takes no memory.
    ///
    /// `NoSuchCell`.
    pub fn check_remove_cell(&self, c: Cell) -> Result<(), Refusal>
        ensures accepted { OnOk result (first_refusal (remove_cell_checks self.now c) ≡ None) }
        ensures refused { IfErr result (λ e. first_refusal (remove_cell_checks self.now c) ≡ Some e) }
    {
        if self.places.bsc_of(c).is_none() {
            return Err(Refusal::NoSuchCell);
        }
        Ok(())
    }

    /// Registers a BSC that isn't there.
    ///
    /// `BscExists`, then `Limit` where there are 256 BSCs, then `Memory` where room for one more was refused.
    pub fn add_bsc(&mut self, b: BscId) -> Result<(), Refusal>
        ensures accepted { OnOk result (first_refusal (add_bsc_checks self.old b) ≡ None) }
        ensures changed { OnOk result (self.new ≡ with_bsc b self.old) }
        ensures refused { IfErr result (λ e. (first_refusal (add_bsc_checks self.old b) ≡ Some e) ⊎ ((e ≡ Refusal.Memory) × (first_refusal (add_bsc_checks self.old b) ≡ None))) }
        ensures unchanged { OnErr result (self.new ≡ self.old) }
    {
        self.check_add_bsc(b)?;
        insert_in_order(b, &mut self.bscs)?;
        Ok(())
    }

    /// Takes out a BSC that has no cells. It takes no memory.
    ///
    /// `NoSuchBsc`, then `BscHasCells`.
    pub fn remove_bsc(&mut self, b: BscId) -> Result<(), Refusal>
        ensures accepted { OnOk result (first_refusal (remove_bsc_checks self.old b) ≡ None) }
        ensures changed { OnOk result (self.new ≡ without_bsc b self.old) }
        ensures refused { IfErr result (λ e. first_refusal (remove_bsc_checks self.old b) ≡ Some e) }
        ensures unchanged { OnErr result (self.new ≡ self.old) }
    {
        self.check_remove_bsc(b)?;
        bscs::remove(b, &mut self.bscs);
        Ok(())
    }

    /// Registers a cell that isn't there, at a BSC that is.
    ///
    /// `NoSuchBsc`, `CellExists`, `Limit` where there are 65,536 cells, then `Memory` where room for one more was
    /// refused.
    pub fn add_cell(&mut self, c: Cell, at: BscId) -> Result<(), Refusal>
        ensures accepted { OnOk result (first_refusal (add_cell_checks self.old c at) ≡ None) }
        ensures changed { OnOk result (self.new ≡ with_cell c at self.old) }
        ensures refused { IfErr result (λ e. (first_refusal (add_cell_checks self.old c at) ≡ Some e) ⊎ ((e ≡ Refusal.Memory) × (first_refusal (add_cell_checks self.old c at) ≡ None))) }
        ensures unchanged { OnErr result (self.new ≡ self.old) }
    {
        self.check_add_cell(c, at)?;
        self.places.insert(self.alloc, c, at)?;
        Ok(())
    }

    /// Registers a cell at another BSC. It never answers `Memory`: where the index by BSC is refused memory, the cell is
    /// moved all the same and the index given up. Until the next edit can make it anew, `has_cells` and `cells_of` look at
    /// every cell.
    ///
    /// `NoSuchBsc`, `NoSuchCell`, then `SameBsc` where it is registered at this BSC.
    pub fn move_cell(&mut self, c: Cell, to: BscId) -> Result<(), Refusal>
        ensures accepted { OnOk result (first_refusal (move_cell_checks self.old c to) ≡ None) }
        ensures changed { OnOk result (self.new ≡ moved c to self.old) }
        ensures refused { IfErr result (λ e. first_refusal (move_cell_checks self.old c to) ≡ Some e) }
        ensures unchanged { OnErr result (self.new ≡ self.old) }
    {
        self.check_move_cell(c, to)?;
        self.places.set(self.alloc, c, to);
        Ok(())
    }

    /// Takes out a cell. It takes no memory.
    ///
    /// `NoSuchCell`.
    pub fn remove_cell(&mut self, c: Cell) -> Result<(), Refusal>
        ensures accepted { OnOk result (first_refusal (remove_cell_checks self.old c) ≡ None) }
        ensures changed { OnOk result (self.new ≡ without_cell c self.old) }
        ensures refused { IfErr result (λ e. first_refusal (remove_cell_checks self.old c) ≡ Some e) }
        ensures unchanged { OnErr result (self.new ≡ self.old) }
    {
        self.check_remove_cell(c)?;
        self.places.remove(c);
        Ok(())
    }
}
