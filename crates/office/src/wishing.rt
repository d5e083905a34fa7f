//! A wish of the server's own is kept only where the link of its BSC is idle.

use crate::affected::Affected;
use crate::held::Held;
use crate::office::Office;
use crate::wish::Wish;
use cell_register::BscId;
use centre_events::refusal::Refusal;
use common::Cell;
use std::sync::Wait;
use std::sync::ledger::Ledger;
use warning_book::WarningId;

impl<L: Ledger> Held<L> {
    ghost use Rattle.std.specs.Prelude.{◌≡◌, true, IfErr, IfOk, IsTrue, OnErr};
    ghost use Rattle.office.specs.OwnWishes.{is_idle, left_with};
    ghost use Rattle.office.specs.Wishes.{CanWish, RefusesWish};

    /// Keeps a wish that no operator has, where the BSC's link is up, nothing is in flight to it or pending for it, and no wish is kept for
    /// it: so it takes no other's place. The answer is whether it is kept. `NoSuchWarning`, then `Memory`.
    pub fn wish_if_idle(&mut self, wish: Wish) -> Result<bool, Refusal>
        ensures idle { IfOk result (λ kept. kept ≡ is_idle self.old.centre self.old.wishes wish.bsc) }
        ensures can { IfOk result (λ kept. IsTrue kept → CanWish self.old.centre wish.bsc wish.warning) }
        ensures kept { IfOk result (λ kept. self.new ≡ record self.old { wishes = left_with kept wish self.old.wishes }) }
        ensures was_idle { OnErr result (is_idle self.old.centre self.old.wishes wish.bsc ≡ true) }
        ensures refused { IfErr result (RefusesWish self.old.centre self.old.wishes wish.bsc wish.warning) }
        ensures unchanged { OnErr result (self.new ≡ self.old) }
    {
        if !self.is_idle(wish.bsc) {
            return Ok(false);
        }
        self.wish(wish)?;
        Ok(true)
    }
}

impl<L: Ledger> Office<L> {
    ghost use Rattle.std.specs.Prelude.{◌≡◌, false, IfErr, IfOk, IsTrue};
    ghost use Rattle.office.specs.OwnWishes.{IsIdleSomewhere, IsOwnWishSomewhere};
    ghost use Rattle.office.specs.Wishes.{IsUnwishedSomewhere};

    /// Whether the BSC's link is up and has nothing to do: nothing is in flight to it or pending for it, and no wish is kept for it.
    #[tactic(auto, using(crate::proofs::OwnWishLemmas::idle_as))]
    pub fn is_idle<R: Wait>(&self, rt: &R, b: BscId) -> bool
        ensures { IsIdleSomewhere b result }
    {
        let guard = self.held.lock(rt);
        guard.tell_soundness();
        guard.is_idle(b)
    }

    /// Keeps a wish that no operator has, to ask the BSC about a warning in the cells after that one. It is kept only where the BSC's
    /// link is up, nothing is in flight to it or pending for it, and no wish is kept for it, so that an operator's wish stays. The
    /// answer is whether it is kept. `NoSuchWarning`, then `Memory`.
    pub fn wish_if_idle<R: Wait>(
        &self,
        rt: &R,
        b: BscId,
        warning: WarningId,
        after: Option<Cell>,
    ) -> Result<bool, Refusal>
        ensures wished { IfOk result (λ kept. IsTrue kept → IsOwnWishSomewhere b warning after) }
        ensures busy { IfOk result (λ kept. kept ≡ false → IsIdleSomewhere b false) }
        ensures refused { IfErr result (IsUnwishedSomewhere b warning) }
    {
        let mut guard = self.held.lock(rt);
        guard.tell_soundness();
        let result = guard.wish_if_idle(Wish {
            bsc: b,
            warning,
            after,
        });
        let affected = Affected::These(Some(b), None);
        self.conditions.wake(rt, &guard, &affected);
        result
    }
}
