//! How an office stands, and how a stale one is made whole.

ghost use Rattle.std.specs.Prelude.{◌≡◌, ◌⊎◌, false, length, true, IfErr, IfOk, OnOk};
ghost use Rattle.centre_past.specs.Legal.{all_entries};
ghost use Rattle.office.specs.Handing.{IsPositionSomewhere, IsUnfoldedSomewhere};
ghost use Rattle.office.specs.Helds.{fits};
ghost use Rattle.office.specs.Offices.{IsRebuiltSomewhere, IsWrongDesk};
ghost use Rattle.office.specs.Statuses.{IsStatusSomewhere};

use crate::desk::Desk;
use crate::held::Held;
use crate::office::Office;
use centre_events::refusal::Refusal;
use centre_past::lists::CentreStatus;
use std::sync::Wait;
use std::sync::ledger::Ledger;

/// `WrongDesk` where the desk isn't as the office knows it.
fn check<L: Ledger>(held: &Held<L>, desk: &Desk<L>) -> Result<(), Refusal>
    ensures fitted { OnOk result (fits (length held.now.rows) (all_entries held.now.centre) desk.now ≡ true) }
    ensures unknown { IfErr result (λ r. fits (length held.now.rows) (all_entries held.now.centre) desk.now ≡ false) }
    ensures wrong { IfErr result IsWrongDesk }
{
    if held.knows(desk) {
        return Ok(());
    }
    Err(Refusal::WrongDesk {
        position: held.position(),
    })
}

impl<L: Ledger> Office<L> {
    /// How the centre stands, also where it is stale. It takes no memory. `WrongDesk` alone refuses it.
    pub fn status<R: Wait>(&self, rt: &R, desk: &Desk<L>) -> Result<CentreStatus, Refusal>
        ensures status { IfOk result (IsStatusSomewhere desk.now) }
        ensures refused { IfErr result IsWrongDesk }
    {
        let guard = self.held.lock(rt);
        guard.tell_soundness();
        check(&guard, desk)?;
        Ok(guard.status())
    }

    /// How many entries there are that aren't folded.
    pub fn unfolded<R: Wait>(&self, rt: &R) -> u64
        ensures { IsUnfoldedSomewhere result }
    {
        let guard = self.held.lock(rt);
        guard.tell_soundness();
        guard.unfolded()
    }

    /// How many entries there are, those counted that are folded.
    pub fn position<R: Wait>(&self, rt: &R) -> u64
        ensures { IsPositionSomewhere result }
    {
        let guard = self.held.lock(rt);
        guard.tell_soundness();
        guard.position()
    }

    /// Makes a stale centre whole. `WrongDesk`, then `Memory`; then it is as it was.
    pub fn rebuild<R: Wait>(&self, rt: &R, desk: &Desk<L>) -> Result<(), Refusal>
        ensures rebuilt { OnOk result (IsRebuiltSomewhere desk.now) }
        ensures refused { IfErr result (λ r. (r ≡ Refusal.Memory) ⊎ IsWrongDesk r) }
    {
        let mut guard = self.held.lock(rt);
        guard.tell_soundness();
        check(&guard, desk)?;
        guard.rebuild()?;
        Ok(())
    }
}
