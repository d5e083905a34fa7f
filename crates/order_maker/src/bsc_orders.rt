//! The orders of one BSC.

ghost use Rattle.std.specs.Prelude.{◌≡◌, true, ℕ, ◌&&◌, ◌||◌, not, nat_eq, OnOk};
ghost use Rattle.order_maker.specs.Pending.{action_eq, holds, are_of};
ghost use Rattle.order_maker.specs.declared.action.Action.{Action};

use crate::action::Action;
use crate::order_map::OrderMap;
use cell_register::BscId;
use common::Ordered;
use std::alloc::AllocError;

/// A BSC and its orders.
#[derive(Drop)]
pub(crate) struct BscOrders {
    pub(crate) bsc: BscId,
    pub(crate) orders: OrderMap,
}

impl Clone for BscOrders {
    ghost use Rattle.std.specs.Prelude.{◌≡◌};

    ghost is_clone = { λ s t. t ≡ s };

    fn clone(&self) -> Result<BscOrders, AllocError> {
        Ok(BscOrders {
            bsc: self.bsc,
            orders: self.orders.clone()?,
        })
    }
}

impl Ordered for BscOrders {
    ghost use Rattle.order_maker.specs.ByBsc.{bsc_lt};

    ghost before = { bsc_lt };

    fn is_before(&self, other: &BscOrders) -> bool {
        self.bsc.number() < other.bsc.number()
    }
}

impl BscOrders {
    pub(crate) fn orders(&self) -> &OrderMap
        ensures { result.now ≡ self.now.orders }
    {
        &self.orders
    }

    #[inline(always)]
    pub(crate) fn put(&mut self, a: Action) -> Result<(), AllocError>
        ensures bsc { self.new.bsc ≡ self.old.bsc }
        ensures own { are_of self.old.bsc self.old.orders ≡ true → are_of self.old.bsc self.new.orders ≡ true }
        ensures put { OnOk result ((d : ℕ) (x : Action) → holds self.new.orders d x ≡ ((nat_eq d self.old.bsc && action_eq x a) || holds self.old.orders d x)) }
    {
        self.orders.put(self.bsc, a)
    }

    #[inline(always)]
    pub(crate) fn take_out(&mut self, a: Action)
        ensures bsc { self.new.bsc ≡ self.old.bsc }
        ensures own { are_of self.old.bsc self.old.orders ≡ true → are_of self.old.bsc self.new.orders ≡ true }
        ensures out { (d : ℕ) (x : Action) → holds self.new.orders d x ≡ (holds self.old.orders d x && not (nat_eq d self.old.bsc && action_eq x a)) }
    {
        self.orders.take_out(self.bsc, a);
    }
}
