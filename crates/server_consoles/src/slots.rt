//! Which consoles are there.

use std::alloc::{AllocError, Global};
use std::marker::Model;

/// Slots for connections: each is held by one connection or by none.
#[derive(Drop)]
pub struct Slots<T: Drop> {
    held: Vec<Option<T>>,
}

impl<T: Drop> Model for Slots<T> {
    ghost use Rattle.std.specs.Prelude.{List, Option};

    ghost Value = { List (Option T) };

    ghost view = { λ s. s.held.items };
}

impl<T: Drop> Slots<T> {
    ghost use Rattle.std.specs.Prelude.{◌≡◌, ◌<◌, ◌++◌, ◌∷◌, [], set, length, Some, None, is_some, option_copied, IfSome, IfOk, IfErr, OnOk, OnErr};
    ghost use Rattle.server_consoles.specs.Slots.{first_free, holder_of, is_all_free};

    /// No slots.
    pub fn new(alloc: Global) -> Slots<T>
        ensures { result ≡ [] }
    {
        Slots {
            held: Vec::new(alloc),
        }
    }

    /// One slot more, which is free.
    pub fn add(&mut self) -> Result<(), AllocError>
        ensures added { OnOk result (self.new ≡ self.old ++ None ∷ []) }
        ensures failed { OnErr result (self.new ≡ self.old) }
    {
        self.held.push(None)?;
        Ok(())
    }

    /// Gives the connection the first slot that is free. Where none is, it is handed back.
    pub fn take(&mut self, connection: T) -> Result<usize, T>
        ensures free { IfOk result (λ slot. first_free self.old ≡ Some slot) }
        ensures taken { IfOk result (λ slot. self.new ≡ set self.old slot (Some connection)) }
        ensures full { IfErr result (λ back. first_free self.old ≡ None) }
        ensures back { IfErr result (λ back. back ≡ connection) }
        ensures same { OnErr result (self.new ≡ self.old) }
    {
        let Some(slot) = self.free_slot() else {
            return Err(connection);
        };
        self.held[slot] = Some(connection);
        Ok(slot)
    }

    /// The first slot that is free.
    #[tactic(auto, using(crate::proofs::SlotLemmas::free_is_there))]
    fn free_slot(&self) -> Option<usize>
        ensures first { result ≡ first_free self.now }
        ensures bound { IfSome result (λ slot. slot < length self.now) }
    {
        self.held.iter().position(|place| place.is_none())
    }

    /// The slot is free again, if there is such a slot.
    #[tactic(auto, using(crate::proofs::SlotLemmas::not_given_back))]
    pub fn give_back(&mut self, slot: usize)
        ensures { self.new ≡ set self.old slot None }
    {
        if let Some(place) = self.held.get_mut(slot) {
            *place = None;
        }
    }

    /// The connection that holds the slot.
    pub fn holder(&self, slot: usize) -> Option<&T>
        ensures { option_copied result ≡ holder_of self.now slot }
    {
        match self.held.get(slot) {
            Some(Some(connection)) => Some(connection),
            _ => None,
        }
    }

    /// Whether a connection holds the slot.
    pub fn is_held(&self, slot: usize) -> bool
        ensures { result ≡ is_some (holder_of self.now slot) }
    {
        self.holder(slot).is_some()
    }

    /// Whether no connection holds a slot.
    pub fn is_empty(&self) -> bool
        ensures { result ≡ is_all_free self.now }
    {
        self.held.iter().all(|place| place.is_none())
    }

    /// The connections that hold slots.
    pub(crate) fn as_slice(&self) -> &[Option<T>]
        ensures { result.now ≡ self.now }
    {
        self.held.as_slice()
    }
}
