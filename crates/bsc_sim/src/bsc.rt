//! A simulated base station controller.

ghost use Rattle.std.specs.Prelude.{◌≡◌, ◌≤◌, true, [], length, None, IfOk, OnOk, OnErr, if◌then◌else◌};
ghost use Rattle.std.specs.List.{list_any};
ghost use Rattle.common.specs.Cell.{cell_eq};
ghost use Rattle.common.specs.declared.cell.Cell.{Cell as ACell};
ghost use Rattle.cbsp_messages.specs.Written.{Fits};
ghost use Rattle.bsc_sim.specs.Answering.{answered, carried, is_own, is_taken, is_understood};
ghost use Rattle.bsc_sim.specs.Bsc.{emptied};
ghost use Rattle.bsc_sim.specs.Indications.{fail_message, restart_message};

use crate::choices::Choices;
use crate::indications::{fail_message, restart_message};
use crate::keys::Keys;
use crate::own_cells::OwnCells;
use crate::replying::{channel_of, not_understood, reply};
use crate::request::{Request, Task};
use crate::tally::Tally;
use cbsp_ie::{Cause, CellIds, Form};
use cbsp_messages::Message;
use common::Cell;
use std::alloc::{AllocError, Global};
use std::marker::Model;

/// The most cells of an order that is carried out: with so many each list of the reply has at most 65,535 octets.
const MOST_CELLS: usize = 9_000;

/// A BSC with cells of its own, or with every cell, and a table of the messages that are on air in its cells.
#[derive(Drop)]
pub struct Bsc {
    alloc: Global,
    own: Option<OwnCells>,
    keys: Keys,
}

impl Model for Bsc {
    ghost use Rattle.bsc_sim.specs.Bsc.{BscState};

    ghost Value = { BscState };

    ghost view = { λ s. record { own = s.own; keys = s.keys } };
}

impl Bsc {
    /// A BSC of these cells, with nothing on air.
    pub fn new(alloc: Global, cells: &[Cell]) -> Result<Bsc, AllocError>
        ensures own { IfOk result (λ b. (c : ACell) → is_own b.own c ≡ list_any (cell_eq c) cells.now) }
        ensures keys { IfOk result (λ b. b.keys ≡ []) }
    {
        let own = OwnCells::of(alloc, cells)?;
        Ok(Bsc {
            alloc,
            own: Some(own),
            keys: Keys::new(alloc),
        })
    }

    /// A BSC to which every cell belongs, with nothing on air.
    pub fn any(alloc: Global) -> Bsc
        ensures { result ≡ record { own = None; keys = [] } }
    {
        Bsc {
            alloc,
            own: None,
            keys: Keys::new(alloc),
        }
    }

    pub(crate) fn alloc(&self) -> Global {
        self.alloc
    }

    /// Takes every message off air.
    pub(crate) fn clear(&mut self)
        ensures { self.new ≡ emptied self.old }
    {
        self.keys = Keys::new(self.alloc);
    }

    /// Carries out a message, and gives the answer to it.
    ///
    /// A WRITE-REPLACE of either form, a KILL and a MESSAGE STATUS QUERY are taken where their list names at most 9,000
    /// cells, each by LAC and CI. In each cell in turn they fail with the cause that is chosen for it; else with 3 where the cell isn't
    /// the BSC's own; else a write fails with 13 where the message is on air, and a replace with 2 where the older one
    /// isn't, and the others fail with 2 where the message isn't. Where none failed the answer is a COMPLETE, else a
    /// FAILURE with the cells that failed. Both have the identifiers of the message, and list the cells in which it was
    /// done, if there are any, in their order; the answers to a query have no such list. They have the numbers of
    /// broadcasts that are chosen for these cells, if there are any; a MESSAGE STATUS QUERY COMPLETE always has that
    /// list. Everything else is answered by an ERROR INDICATION with cause 4. An answer names the basic channel where the
    /// message is one of these four and names a channel.
    ///
    /// What is done in one cell counts for the cells after it, so a cell may be named twice. An `Err` leaves the table
    /// as it was. It comes of a message that is taken alone: an ERROR INDICATION takes no memory.
    pub fn answer(&mut self, message: &Message, choices: &Choices) -> Result<Message, AllocError>
        ensures reply { IfOk result (λ reply. reply ≡ (answered self.old choices.now message.now).reply) }
        ensures table { OnOk result (self.new ≡ (answered self.old choices.now message.now).after) }
        ensures unchanged { OnErr result (self.new ≡ self.old) }
        ensures starved { OnErr result (is_understood message.now ≡ true) }
        ensures fits { IfOk result (λ reply. Fits reply) }
    {
        match message {
            Message::WriteReplace(m) => {
                let request = Request::of(
                    m.message_id,
                    m.serial,
                    Task::Write { old: m.old },
                    m.channel.is_some(),
                );
                self.carry_out(request, &m.cells, choices)
            }
            Message::WriteEmergency(m) => {
                let request = Request::of(
                    m.message_id,
                    m.serial,
                    Task::Write { old: m.old },
                    false,
                );
                self.carry_out(request, &m.cells, choices)
            }
            Message::Kill(m) => {
                let request = Request::of(m.message_id, m.serial, Task::Kill, m.channel.is_some());
                self.carry_out(request, &m.cells, choices)
            }
            Message::StatusQuery(m) => {
                let request = Request::of(m.message_id, m.serial, Task::Query, m.channel.is_some());
                self.carry_out(request, &m.cells, choices)
            }
            _ => Ok(not_understood(None)),
        }
    }

    fn carry_out(
        &mut self,
        request: Request,
        cells: &CellIds,
        choices: &Choices,
    ) -> Result<Message, AllocError>
        ensures reply { IfOk result (λ reply. reply ≡ (carried self.old choices.now request cells.now).reply) }
        ensures table { OnOk result (self.new ≡ (carried self.old choices.now request cells.now).after) }
        ensures unchanged { OnErr result (self.new ≡ self.old) }
        ensures starved { OnErr result (is_taken cells.now ≡ true) }
    {
        if !is_taken(cells) {
            return Ok(not_understood(channel_of(&request)));
        }
        let Tally {
            keys,
            done,
            failures,
        } = Tally::of(
            self.alloc,
            &self.own,
            choices,
            &request,
            &self.keys,
            cells.ids(),
        )?;
        let reply = reply(self.alloc, choices, &request, &done, failures)?;
        self.keys = keys;
        Ok(reply)
    }

    /// A RESTART of all cells, for broadcast message type 0. With `lost` it says that the data are lost, and nothing is
    /// on air from then on. An `Err` leaves the table as it was.
    pub fn restart(&mut self, lost: bool) -> Result<Message, AllocError>
        ensures message { IfOk result (λ m. m ≡ restart_message 0 lost) }
        ensures table { OnOk result (self.new ≡ (if lost then emptied self.old else self.old)) }
        ensures unchanged { OnErr result (self.new ≡ self.old) }
        ensures fits { IfOk result (λ m. Fits m) }
    {
        let message = restart_message(self.alloc, 0, lost)?;
        if lost {
            self.clear();
        }
        Ok(message)
    }

    /// A FAILURE of these cells with the cause, for broadcast message type 0. The table stays as it is. Each cell takes six
    /// octets, so the message fits, and can be written, where they are at most 10,922.
    pub fn fail(&self, cells: &[Cell], cause: Cause) -> Result<Message, AllocError>
        ensures message { IfOk result (λ m. m ≡ fail_message cells.now cause) }
        ensures fits { length cells.now ≤ 10922 → IfOk result (λ m. Fits m) }
    {
        fail_message(self.alloc, cells, cause)
    }
}

/// Whether an order in these cells is carried out.
fn is_taken(cells: &CellIds) -> bool
    ensures { result ≡ is_taken cells.now }
{
    cells.form() == Form::LacCi && cells.len() <= MOST_CELLS
}
