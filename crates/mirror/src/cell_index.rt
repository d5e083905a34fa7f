//! The lines that aren't blank, by BSC and cell.

ghost use Rattle.std.specs.Prelude.{◌≡◌, ◌<◌, None, Some, [], IfOk, OnOk, OnErr};
ghost use Rattle.std.specs.Map.{lookup};
ghost use Rattle.mirror.specs.Index.{IsEntered};
ghost use Rattle.mirror.specs.Table.{is_slot};

use crate::line_key::LineKey;
use crate::slot::Slot;
use std::alloc::{AllocError, Global};
use std::collections::BTreeMap;
use std::marker::Model;

/// Which lines there are, and whether each is held. This is kept with each of them, so that no memory is taken where a line
/// that is there comes to be held.
#[derive(Drop)]
pub(crate) struct CellIndex {
    slots: BTreeMap<Slot, bool>,
}

impl Model for CellIndex {
    ghost use Rattle.std.specs.Prelude.{Bool, List};
    ghost use Rattle.mirror.specs.Order.{Slot};

    ghost Value = { List (Slot × Bool) };

    ghost view = { λ x. x.slots.entries };
}

impl CellIndex {
    pub(crate) fn new(alloc: Global) -> CellIndex
        ensures { result ≡ [] }
    {
        CellIndex {
            slots: BTreeMap::new(alloc),
        }
    }

    /// The same slots, in memory of their own.
    pub(crate) fn copied(&self) -> Result<CellIndex, AllocError>
        ensures { IfOk result (λ copy. copy ≡ self.now) }
    {
        Ok(CellIndex {
            slots: self.slots.clone()?,
        })
    }

    /// The slots, in ascending order, and whether the line of each is held.
    pub(crate) fn slots(&self) -> &BTreeMap<Slot, bool>
        ensures { result.now.entries ≡ self.now }
    {
        &self.slots
    }

    /// Puts the line in, or sets whether it is held. Memory is taken only for a line that wasn't in.
    pub(crate) fn insert(&mut self, key: LineKey, is_held: bool) -> Result<(), AllocError>
        ensures entered { OnOk result (IsEntered key (Some is_held) self.old self.new) }
        ensures unchanged { OnErr result (self.new ≡ self.old) }
        ensures grows { OnErr result (lookup (is_slot key.bsc key.cell key.warning) self.old ≡ None) }
        ensures numbered { 0 < key.bsc }
    {
        self.slots.insert(Slot::of(key), is_held)?;
        Ok(())
    }

    /// Takes the line out.
    pub(crate) fn remove(&mut self, key: LineKey)
        ensures { IsEntered key None self.old self.new }
    {
        self.slots.remove(&Slot::of(key));
    }
}
