//! A desk submits an event to its office, and lends its receipt.

use crate::desk::Desk;
use crate::office::Office;
use crate::receipt::Receipt;
use centre_events::event::Event;
use centre_events::refusal::Refusal;
use std::sync::Wait;
use std::sync::ledger::Ledger;

impl<L: Ledger> Desk<L> {
    ghost use Rattle.std.specs.Prelude.{◌≡◌, ⊤, IfErr};
    ghost use Rattle.std.specs.Borrow.{sem, follows_so};
    ghost use mathlib.Core.Option.{none};
    ghost use Rattle.office.specs.contracts.desk.Desk.{the_row};
    ghost use Rattle.office.specs.Offices.{IsLent, IsRefusedSomewhere};

    /// Submits an event, and lends its receipt where it is accepted. Where it is refused, the desk is as it was, but for its room.
    pub fn submit<R: Wait>(
        &mut self,
        rt: &R,
        office: &Office<L>,
        event: Event,
    ) -> Result<&Receipt, Refusal>
        ensures* after { sem 𝓛 (follows_so (the_row L.row L.Ledger) (the_row L.row L.Ledger) self.entry.ghost_name none (λ _ _. ⊤) (λ d. IsLent self.old event d result)) }
        ensures refused { IfErr result (IsRefusedSomewhere self.old event) }
    {
        office.submit(rt, self, event)?;
        Ok(self.latest())
    }
}
