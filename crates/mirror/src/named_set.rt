//! What identifications name, gathered once, so that each cell is looked up.

ghost use Rattle.std.specs.Prelude.{◌≡◌, ◌&&◌, ◌||◌, false, IfOk, OnOk};
ghost use Rattle.std.specs.List.{list_any};
ghost use Rattle.cbsp_ie.specs.CellId.{names};
ghost use Rattle.common.specs.Cell.{cell_eq};
ghost use Rattle.common.specs.declared.cell.Cell.{Cell};
ghost use Rattle.mirror.specs.Known.{is_named};
ghost use Rattle.mirror.specs.NamedSet.{is_in};

use cbsp_ie::CellId;
use common::Cell;
use std::alloc::{AllocError, Global};
use std::collections::BTreeSet;

/// Location areas, cell identities and cells, or all cells. A location area stands there as its cell of the identity 0, and a
/// cell identity as the cell of the location area 0.
#[derive(Drop)]
pub(crate) struct NamedSet {
    all: bool,
    location_areas: BTreeSet<Cell>,
    identities: BTreeSet<Cell>,
    cells: BTreeSet<Cell>,
}

/// Puts the cell in, if that is so.
fn add_if(is_so: bool, c: Cell, cells: &mut BTreeSet<Cell>) -> Result<(), AllocError>
    ensures { OnOk result ((d : Cell) → list_any (cell_eq d) cells.new.keys ≡ ((is_so && cell_eq c d) || list_any (cell_eq d) cells.old.keys)) }
{
    if is_so {
        cells.insert(c)?;
    }
    Ok(())
}

/// Whether the cell is one of these.
fn is_among(c: Cell, cells: &BTreeSet<Cell>) -> bool
    ensures { result ≡ list_any (cell_eq c) cells.now.keys }
{
    cells.contains(&c)
}

/// A location area, as its cell of the identity 0.
fn area_of(lac: u16) -> Cell
    ensures lac { result.lac ≡ lac }
    ensures ci { result.ci ≡ 0 }
{
    Cell { lac, ci: 0 }
}

/// A cell identity, as the cell of the location area 0.
fn identity_of(ci: u16) -> Cell
    ensures lac { result.lac ≡ 0 }
    ensures ci { result.ci ≡ ci }
{
    Cell { lac: 0, ci }
}

impl NamedSet {
    /// Nothing.
    fn new(alloc: Global) -> NamedSet
        ensures { (c : Cell) → is_in result c ≡ false }
    {
        NamedSet {
            all: false,
            location_areas: BTreeSet::new(alloc),
            identities: BTreeSet::new(alloc),
            cells: BTreeSet::new(alloc),
        }
    }

    /// Puts in what the identification names.
    fn put(&mut self, network: [u8; 3], id: &CellId) -> Result<(), AllocError>
        ensures { OnOk result ((c : Cell) → is_in self.new c ≡ (names network id.now c || is_in self.old c)) }
    {
        match id {
            CellId::Global { plmn, lac, ci } => {
                let is_own = *plmn == network;
                add_if(is_own, Cell { lac: *lac, ci: *ci }, &mut self.cells)
            }
            CellId::LacCi { lac, ci } => add_if(true, Cell { lac: *lac, ci: *ci }, &mut self.cells),
            CellId::Ci { ci } => add_if(true, identity_of(*ci), &mut self.identities),
            CellId::Lai { plmn, lac } => {
                let is_own = *plmn == network;
                add_if(is_own, area_of(*lac), &mut self.location_areas)
            }
            CellId::Lac { lac } => add_if(true, area_of(*lac), &mut self.location_areas),
            CellId::All => {
                self.all = true;
                Ok(())
            }
        }
    }

    /// What the identifications name.
    pub(crate) fn of(
        alloc: Global,
        network: [u8; 3],
        ids: &[CellId],
    ) -> Result<NamedSet, AllocError>
        ensures { IfOk result (λ s. (c : Cell) → is_in s c ≡ is_named network ids.now c) }
    {
        let mut set = NamedSet::new(alloc);
        for id in ids {
            set.put(network, id)?;
        }
        Ok(set)
    }

    /// Whether the cell is named.
    pub(crate) fn has(&self, c: Cell) -> bool
        ensures { result ≡ is_in self.now c }
    {
        self.all
            || is_among(area_of(c.lac), &self.location_areas)
            || is_among(identity_of(c.ci), &self.identities)
            || is_among(c, &self.cells)
    }
}
