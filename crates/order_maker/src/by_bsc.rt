//! The orders of each BSC, the BSCs in the order of their numbers, so that one is found by halves.

ghost use Rattle.std.specs.Prelude.{◌≡◌, ◌<◌, true, false, ℕ, ◌&&◌, ◌||◌, not, nat_eq, ltb, length, OnOk};
ghost use Rattle.std.specs.List.{list_any, position_or_len};
ghost use Rattle.std.specs.List.Sorted.{IsPartitionPoint};
ghost use Rattle.common.specs.Order.{is_ascending};
ghost use Rattle.order_maker.specs.ByBsc.{bsc_lt, is_bsc, all_held, AreByBsc};
ghost use Rattle.order_maker.specs.Pending.{action_eq, holds};
ghost use Rattle.order_maker.specs.declared.action.Action.{Action};

use crate::action::Action;
use crate::bsc_orders::BscOrders;
use crate::order_map::OrderMap;
use cell_register::BscId;
use common::insert_in_order;
use std::alloc::{AllocError, Global};

/// Where the BSC and those of greater numbers begin.
fn start_of(bscs: &[BscOrders], b: BscId) -> usize
    requires { is_ascending bsc_lt bscs.now ≡ true }
    ensures { IsPartitionPoint (λ e. ltb e.bsc b ≡ true) (λ e. ltb e.bsc b ≡ false) bscs.now result }
{
    bscs.partition_point(|held| held.bsc.number() < b.number())
}

/// Where the BSC stands, found by halves; past the last where it isn't there.
fn searched_place(bscs: &[BscOrders], b: BscId) -> usize
    requires { is_ascending bsc_lt bscs.now ≡ true }
    ensures { result ≡ position_or_len (is_bsc b) bscs.now }
{
    let place = start_of(bscs, b);
    match bscs.get(place) {
        Some(held) if held.bsc == b => place,
        _ => bscs.len(),
    }
}

/// Where the BSC stands; past the last where it isn't there. It is first looked for at the likely place.
#[tactic(auto, using(crate::proofs::PlaceLemmas::found_there))]
#[inline(always)]
pub(crate) fn place_of(bscs: &[BscOrders], likely: usize, b: BscId) -> usize
    requires { is_ascending bsc_lt bscs.now ≡ true }
    ensures { result ≡ position_or_len (is_bsc b) bscs.now }
{
    match bscs.get(likely) {
        Some(held) if held.bsc == b => likely,
        _ => searched_place(bscs, b),
    }
}

/// Puts in the action of the BSC that stands at the place.
#[inline(always)]
pub(crate) fn put_at(
    bscs: &mut Vec<BscOrders>,
    place: usize,
    b: BscId,
    a: Action,
) -> Result<(), AllocError>
    requires by_bsc { AreByBsc bscs.old.items }
    requires place { place ≡ position_or_len (is_bsc b) bscs.old.items }
    requires there { place < length bscs.old.items }
    ensures by_bsc { AreByBsc bscs.new.items }
    ensures put { OnOk result ((d : ℕ) (x : Action) → holds (all_held bscs.new.items) d x ≡ ((nat_eq d b && action_eq x a) || holds (all_held bscs.old.items) d x)) }
{
    let held = &mut bscs[place];
    held.put(a)
}

/// Puts in the first action of a BSC.
#[inline(never)]
pub(crate) fn put_first(
    alloc: Global,
    bscs: &mut Vec<BscOrders>,
    b: BscId,
    a: Action,
) -> Result<(), AllocError>
    requires by_bsc { AreByBsc bscs.old.items }
    requires absent { list_any (is_bsc b) bscs.old.items ≡ false }
    ensures by_bsc { AreByBsc bscs.new.items }
    ensures put { OnOk result ((d : ℕ) (x : Action) → holds (all_held bscs.new.items) d x ≡ ((nat_eq d b && action_eq x a) || holds (all_held bscs.old.items) d x)) }
{
    let mut held = BscOrders {
        bsc: b,
        orders: OrderMap::new(alloc),
    };
    held.put(a)?;
    insert_in_order(held, bscs)?;
    Ok(())
}

/// Takes out the action of the BSC that stands at the place.
#[inline(always)]
pub(crate) fn take_out_at(bscs: &mut Vec<BscOrders>, place: usize, b: BscId, a: Action)
    requires by_bsc { AreByBsc bscs.old.items }
    requires place { place ≡ position_or_len (is_bsc b) bscs.old.items }
    requires there { place < length bscs.old.items }
    ensures by_bsc { AreByBsc bscs.new.items }
    ensures out { (d : ℕ) (x : Action) → holds (all_held bscs.new.items) d x ≡ (holds (all_held bscs.old.items) d x && not (nat_eq d b && action_eq x a)) }
{
    let held = &mut bscs[place];
    held.take_out(a);
}
