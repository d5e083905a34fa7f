//! Where the last entry that names a cell stands in a list of a reply. All entries are put in once; then each cell is looked
//! up, and not looked for.

ghost use Rattle.std.specs.Prelude.{◌≡◌, ◌&&◌, ◌≤◌, cond, IfOk, OnOk, reverse};
ghost use Rattle.cbsp_ie.specs.CellId.{names};
ghost use Rattle.common.specs.Cell.{cell_eq};
ghost use Rattle.common.specs.declared.cell.Cell.{Cell};
ghost use Rattle.centre_events.specs.Counts.{gives_number};
ghost use Rattle.centre_events.specs.LastPlaces.{IsPlaced, area_of, identity_of, place_at, place_in};

use cbsp_ie::{CellId, CountEntry, FailEntry};
use common::Cell;
use std::alloc::{AllocError, Global};
use std::collections::BTreeMap;

/// Places of entries, counted from 1, by what their identifications name: all cells, location areas, cell identities or
/// cells. A location area stands there as its cell of the identity 0, and a cell identity as the cell of the location area 0.
#[derive(Drop)]
pub(crate) struct LastPlaces {
    all: usize,
    location_areas: BTreeMap<Cell, usize>,
    identities: BTreeMap<Cell, usize>,
    cells: BTreeMap<Cell, usize>,
}

/// Sets the place of the cell, if that is so.
fn set_if(
    is_so: bool,
    c: Cell,
    place: usize,
    places: &mut BTreeMap<Cell, usize>,
) -> Result<(), AllocError>
    ensures { OnOk result ((d : Cell) → place_at places.new.entries d ≡ cond (is_so && cell_eq c d) place (place_at places.old.entries d)) }
{
    if is_so {
        places.insert(c, place)?;
    }
    Ok(())
}

/// The place of the cell, and 0 where it has none.
fn place_at(places: &BTreeMap<Cell, usize>, c: Cell) -> usize
    ensures { result ≡ place_at places.now.entries c }
{
    match places.get(&c) {
        Some(place) => *place,
        None => 0,
    }
}

/// A location area, as its cell of the identity 0.
fn area_of(lac: u16) -> Cell
    ensures { result ≡ area_of lac }
{
    Cell { lac, ci: 0 }
}

/// A cell identity, as the cell of the location area 0.
fn identity_of(ci: u16) -> Cell
    ensures { result ≡ identity_of ci }
{
    Cell { lac: 0, ci }
}

impl LastPlaces {
    /// Those of no entry.
    fn new(alloc: Global) -> LastPlaces
        ensures { (c : Cell) → place_in result c ≡ 0 }
    {
        LastPlaces {
            all: 0,
            location_areas: BTreeMap::new(alloc),
            identities: BTreeMap::new(alloc),
            cells: BTreeMap::new(alloc),
        }
    }

    /// Puts in an entry, which stands behind those that were put in.
    fn put(&mut self, network: [u8; 3], id: &CellId, place: usize) -> Result<(), AllocError>
        requires { (c : Cell) → place_in self.old c ≤ place }
        ensures { OnOk result ((c : Cell) → place_in self.new c ≡ cond (names network id.now c) place (place_in self.old c)) }
    {
        match id {
            CellId::Global { plmn, lac, ci } => {
                let is_own = *plmn == network;
                set_if(is_own, Cell { lac: *lac, ci: *ci }, place, &mut self.cells)
            }
            CellId::LacCi { lac, ci } => {
                set_if(true, Cell { lac: *lac, ci: *ci }, place, &mut self.cells)
            }
            CellId::Ci { ci } => set_if(true, identity_of(*ci), place, &mut self.identities),
            CellId::Lai { plmn, lac } => {
                let is_own = *plmn == network;
                set_if(is_own, area_of(*lac), place, &mut self.location_areas)
            }
            CellId::Lac { lac } => set_if(true, area_of(*lac), place, &mut self.location_areas),
            CellId::All => {
                self.all = place;
                Ok(())
            }
        }
    }

    /// Those of the identifications.
    #[tactic(auto, using(crate::proofs::PlaceLemmas::place_more, crate::proofs::PlaceLemmas::within_first))]
    pub(crate) fn of_ids(
        alloc: Global,
        network: [u8; 3],
        ids: &[CellId],
    ) -> Result<LastPlaces, AllocError>
        ensures { IfOk result (IsPlaced (λ c i. names network i c) (reverse ids.now)) }
    {
        let mut places = LastPlaces::new(alloc);
        for (before, id) in ids.iter().enumerate() {
            places.put(network, id, before + 1)?;
        }
        Ok(places)
    }

    /// Those of the entries with numbers, valid or not.
    #[tactic(auto, using(crate::proofs::PlaceLemmas::place_more, crate::proofs::PlaceLemmas::within_first))]
    pub(crate) fn of_counts(
        alloc: Global,
        network: [u8; 3],
        entries: &[CountEntry],
    ) -> Result<LastPlaces, AllocError>
        ensures { IfOk result (IsPlaced (λ c e. names network e.id c) (reverse entries.now)) }
    {
        let mut places = LastPlaces::new(alloc);
        for (before, entry) in entries.iter().enumerate() {
            places.put(network, &entry.id, before + 1)?;
        }
        Ok(places)
    }

    /// Those of the entries with valid numbers.
    #[tactic(auto, using(crate::proofs::PlaceLemmas::place_more, crate::proofs::PlaceLemmas::within_first))]
    pub(crate) fn of_numbers(
        alloc: Global,
        network: [u8; 3],
        entries: &[CountEntry],
    ) -> Result<LastPlaces, AllocError>
        ensures { IfOk result (IsPlaced (gives_number network) (reverse entries.now)) }
    {
        let mut places = LastPlaces::new(alloc);
        for (before, entry) in entries.iter().enumerate() {
            if entry.info == 0 {
                places.put(network, &entry.id, before + 1)?;
            }
        }
        Ok(places)
    }

    /// Those of the failures from the last to the first, so that the first that names a cell has the greatest place.
    #[tactic(auto, using(crate::proofs::PlaceLemmas::place_before, crate::proofs::PlaceLemmas::within_last))]
    pub(crate) fn of_failures(
        alloc: Global,
        network: [u8; 3],
        failures: &[FailEntry],
    ) -> Result<LastPlaces, AllocError>
        ensures { IfOk result (IsPlaced (λ c f. names network f.id c) failures.now) }
    {
        let mut places = LastPlaces::new(alloc);
        for behind in 0..failures.len() {
            let failure = &failures[failures.len() - 1 - behind];
            places.put(network, &failure.id, behind + 1)?;
        }
        Ok(places)
    }

    /// The place of the last entry that names the cell, and 0 where none does.
    pub(crate) fn of_cell(&self, c: Cell) -> usize
        ensures { result ≡ place_in self.now c }
    {
        self.all
            .max(place_at(&self.location_areas, area_of(c.lac)))
            .max(place_at(&self.identities, identity_of(c.ci)))
            .max(place_at(&self.cells, c))
    }
}
