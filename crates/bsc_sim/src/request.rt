//! What a message asks of each of its cells.

ghost use Rattle.std.specs.Prelude.{◌≡◌, OnOk};
ghost use Rattle.bsc_sim.specs.Answering.{key_in, keys_done, refusal};

use crate::key::Key;
use crate::keys::Keys;
use cbsp_ie::Cause;
use common::Cell;
use std::alloc::AllocError;

/// To write a message, in place of the older one if there is an `old`, to take it off air, or to say whether it is
/// there.
#[derive(Clone, Copy, Debug, PartialEq, Eq)]
pub(crate) enum Task {
    Write { old: Option<u16> },
    Kill,
    Query,
}

/// A task, the message that it is about, and whether a channel is named.
#[derive(Clone, Copy, Debug, PartialEq, Eq)]
pub(crate) struct Request {
    pub(crate) message_id: u16,
    pub(crate) serial: u16,
    pub(crate) task: Task,
    /// Whether it names a channel.
    pub(crate) has_channel: bool,
}

impl Request {
    pub(crate) fn of(message_id: u16, serial: u16, task: Task, has_channel: bool) -> Request
        ensures { result ≡ record { message_id = message_id; serial = serial; task = task; has_channel = has_channel } }
    {
        Request {
            message_id,
            serial,
            task,
            has_channel,
        }
    }

    fn key(&self, serial: u16, cell: Cell) -> Key
        ensures { result ≡ key_in self.now serial cell }
    {
        Key {
            cell,
            message_id: self.message_id,
            serial,
        }
    }

    /// Why it can't be done in the cell, by the keys that are on air.
    pub(crate) fn refusal(&self, keys: &Keys, cell: Cell) -> Option<Cause>
        ensures { result ≡ refusal self.now keys.now cell }
    {
        let is_there = keys.has(self.key(self.serial, cell));
        match self.task {
            Task::Write { old } => {
                if is_there {
                    return Some(Cause::MESSAGE_REFERENCE_ALREADY_USED);
                }
                let old = old?;
                if keys.has(self.key(old, cell)) {
                    return None;
                }
            }
            Task::Kill | Task::Query => {
                if is_there {
                    return None;
                }
            }
        }
        Some(Cause::MESSAGE_REFERENCE_NOT_IDENTIFIED)
    }

    /// Does it in the cell. At an `Err` some of it may be done.
    pub(crate) fn carry_out(&self, cell: Cell, keys: &mut Keys) -> Result<(), AllocError>
        ensures { OnOk result (keys.new ≡ keys_done self.now keys.old cell) }
    {
        let key = self.key(self.serial, cell);
        match self.task {
            Task::Write { old: None } => keys.insert(key),
            Task::Write { old: Some(old) } => {
                keys.remove(self.key(old, cell));
                keys.insert(key)
            }
            Task::Kill => {
                keys.remove(key);
                Ok(())
            }
            Task::Query => Ok(()),
        }
    }
}
