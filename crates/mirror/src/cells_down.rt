//! The cells that are down for warnings of each kind.

ghost use Rattle.std.specs.Prelude.{◌≡◌, ◌&&◌, ◌||◌, ℕ, true, false, [], if◌then◌else◌, nat_eq, IfOk, OnOk, OnErr};
ghost use Rattle.std.specs.List.{list_any};
ghost use Rattle.common.specs.Cell.{cell_eq};
ghost use Rattle.common.specs.declared.cell.Cell.{Cell};
ghost use Rattle.mirror.specs.Table.{downs_of, is_that_place};
ghost use Rattle.warning_book.specs.Content.{is_same_kind};
ghost use Rattle.warning_book.specs.declared.kind.Kind.{Kind};

use crate::downs::Downs;
use cell_register::BscId;
use common::Cell;
use std::alloc::{AllocError, Global};
use warning_book::Kind;

/// The cells that are down for CBS warnings, and those that are down for emergency warnings.
#[derive(Drop)]
pub(crate) struct CellsDown {
    pub(crate) cbs: Downs,
    pub(crate) emergency: Downs,
}

impl CellsDown {
    pub(crate) fn new(alloc: Global) -> CellsDown
        ensures { (k : Kind) → downs_of k result ≡ [] }
    {
        CellsDown {
            cbs: Downs::new(alloc),
            emergency: Downs::new(alloc),
        }
    }

    /// The same cells, in memory of their own.
    pub(crate) fn copied(&self) -> Result<CellsDown, AllocError>
        ensures { IfOk result (λ copy. copy ≡ self.now) }
    {
        Ok(CellsDown {
            cbs: self.cbs.copied()?,
            emergency: self.emergency.copied()?,
        })
    }

    /// Whether the cell is down at the BSC for warnings of the kind.
    pub(crate) fn is_down(&self, kind: Kind, b: BscId, c: Cell) -> bool
        ensures { result ≡ list_any (is_that_place b c) (downs_of kind self.now) }
    {
        match kind {
            Kind::Cbs => self.cbs.is_down(b, c),
            Kind::Emergency => self.emergency.is_down(b, c),
        }
    }

    /// Whether the cell is down at the BSC for warnings of some kind.
    pub(crate) fn is_down_for_some(&self, b: BscId, c: Cell) -> bool
        ensures { result ≡ (list_any (is_that_place b c) self.now.cbs || list_any (is_that_place b c) self.now.emergency) }
    {
        self.cbs.is_down(b, c) || self.emergency.is_down(b, c)
    }

    /// Sets the cell down at the BSC for warnings of the kind. Where memory runs out nothing changes. Memory is taken only
    /// for a cell that wasn't down for them.
    pub(crate) fn insert(&mut self, kind: Kind, b: BscId, c: Cell) -> Result<(), AllocError>
        ensures set { OnOk result ((k : Kind) (d : ℕ) (e : Cell) → list_any (is_that_place d e) (downs_of k self.new) ≡ (if is_same_kind kind k && (nat_eq b d && cell_eq c e) then true else list_any (is_that_place d e) (downs_of k self.old))) }
        ensures unchanged { OnErr result (self.new ≡ self.old) }
        ensures grows { OnErr result (list_any (is_that_place b c) (downs_of kind self.old) ≡ false) }
    {
        match kind {
            Kind::Cbs => self.cbs.insert(b, c),
            Kind::Emergency => self.emergency.insert(b, c),
        }
    }

    /// Sets the cell up at the BSC for warnings of the kind.
    pub(crate) fn remove(&mut self, kind: Kind, b: BscId, c: Cell)
        ensures { (k : Kind) (d : ℕ) (e : Cell) → list_any (is_that_place d e) (downs_of k self.new) ≡ (if is_same_kind kind k && (nat_eq b d && cell_eq c e) then false else list_any (is_that_place d e) (downs_of k self.old)) }
    {
        match kind {
            Kind::Cbs => self.cbs.remove(b, c),
            Kind::Emergency => self.emergency.remove(b, c),
        }
    }
}
