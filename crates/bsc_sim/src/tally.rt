//! What comes of a request, cell by cell.

ghost use Rattle.std.specs.Prelude.{◌≡◌, [], IfOk, OnOk};
ghost use Rattle.bsc_sim.specs.Answering.{cause_in, cells_named, is_own, stepped, tally_of, tallied};

use crate::choices::Choices;
use crate::keys::Keys;
use crate::own_cells::OwnCells;
use crate::request::Request;
use cbsp_ie::{Cause, CellId, FailEntry, Failures};
use common::Cell;
use std::alloc::{AllocError, Global};

/// The keys that are on air then, the cells in which it was done, and those in which it failed.
#[derive(Drop)]
pub(crate) struct Tally {
    pub(crate) keys: Keys,
    pub(crate) done: Vec<Cell>,
    pub(crate) failures: Failures,
}

/// Whether the cell is one of a BSC's own; `None` stands for every cell.
fn is_own(own: &Option<OwnCells>, cell: Cell) -> bool
    ensures { result ≡ is_own own.now cell }
{
    match own {
        None => true,
        Some(cells) => cells.has(cell),
    }
}

/// Why the request isn't done in the cell: the cause that is chosen for it, or else the first that there is.
fn cause_in(
    own: &Option<OwnCells>,
    choices: &Choices,
    request: &Request,
    keys: &Keys,
    cell: Cell,
) -> Option<Cause>
    ensures { result ≡ cause_in own.now choices.now request.now keys.now cell }
{
    if let Some(cause) = choices.cause(cell) {
        return Some(cause);
    }
    if !is_own(own, cell) {
        return Some(Cause::CELL_IDENTITY_NOT_VALID);
    }
    request.refusal(keys, cell)
}

/// The cells of identifications by LAC and CI.
fn cells_named(alloc: Global, ids: &[CellId]) -> Result<Vec<Cell>, AllocError>
    ensures { IfOk result (λ cells. cells.items ≡ cells_named ids.now) }
{
    let mut cells = Vec::with_capacity(alloc, ids.len())?;
    for id in ids {
        if let CellId::LacCi { lac, ci } = id {
            cells.push(Cell { lac: *lac, ci: *ci })?;
        }
    }
    Ok(cells)
}

impl Tally {
    fn new(alloc: Global, keys: Keys) -> Tally
        ensures { tallied result ≡ record { keys = keys; done = []; failed = [] } }
    {
        Tally {
            keys,
            done: Vec::new(alloc),
            failures: Failures::new(alloc),
        }
    }

    /// Notes that it failed in the cell, or does it there.
    fn step(
        &mut self,
        request: &Request,
        cell: Cell,
        cause: Option<Cause>,
    ) -> Result<(), AllocError>
        ensures { OnOk result (tallied self.new ≡ stepped request.now (tallied self.old) cell cause) }
    {
        match cause {
            Some(cause) => {
                let id = CellId::LacCi {
                    lac: cell.lac,
                    ci: cell.ci,
                };
                self.failures.push(FailEntry { id, cause })?;
            }
            None => {
                request.carry_out(cell, &mut self.keys)?;
                self.done.push(cell)?;
            }
        }
        Ok(())
    }

    /// What comes of the request in the cells in turn, over a copy of the keys.
    pub(crate) fn of(
        alloc: Global,
        own: &Option<OwnCells>,
        choices: &Choices,
        request: &Request,
        keys: &Keys,
        ids: &[CellId],
    ) -> Result<Tally, AllocError>
        ensures { IfOk result (λ t. tallied t ≡ tally_of own.now choices.now request.now keys.now (cells_named ids.now)) }
    {
        let cells = cells_named(alloc, ids)?;
        let mut tally = Tally::new(alloc, keys.copied()?);
        for cell in &cells {
            let cause = cause_in(own, choices, request, &tally.keys, *cell);
            tally.step(request, *cell, cause)?;
        }
        Ok(tally)
    }
}
