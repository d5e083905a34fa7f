//! The wishes for queries that are kept, one for a BSC at most.

ghost use Rattle.std.specs.Prelude.{◌≡◌, ◌<◌, ◌≤◌, ◌⊎◌, None, IsSome, OnOk, OnErr};
ghost use Rattle.std.specs.Vec.{vec_len, vec_capacity};
ghost use Rattle.office.specs.Wishes.{with_wish, without_wish, wish_for};

use crate::wish::Wish;
use cell_register::BscId;
use std::alloc::AllocError;

/// The wish for the BSC.
pub(crate) fn wish_for(wishes: &[Wish], b: BscId) -> Option<Wish>
    ensures { result ≡ wish_for wishes.now b }
{
    for wish in wishes {
        if wish.bsc == b {
            return Some(*wish);
        }
    }
    None
}

/// Takes out the wish for the BSC.
pub(crate) fn take_out(wishes: &mut Vec<Wish>, b: BscId)
    ensures left { wishes.new.items ≡ without_wish b wishes.old.items }
    ensures capacity { vec_capacity wishes.new ≡ vec_capacity wishes.old }
    ensures bound { vec_len wishes.new ≤ vec_len wishes.old }
    ensures shorter { IsSome (wish_for wishes.old.items b) → vec_len wishes.new < vec_len wishes.old }
{
    wishes.retain(|wish| wish.bsc != b);
}

/// Makes room for a wish for the BSC. There is room where it takes another's place.
fn reserve(wishes: &mut Vec<Wish>, b: BscId) -> Result<(), AllocError>
    ensures same { wishes.new.items ≡ wishes.old.items }
    ensures room { OnOk result (IsSome (wish_for wishes.old.items b) ⊎ (vec_len wishes.new < vec_capacity wishes.new)) }
    ensures bound { vec_len wishes.new ≤ vec_capacity wishes.new }
    ensures none { OnErr result (wish_for wishes.old.items b ≡ None) }
{
    match wish_for(wishes.as_slice(), b) {
        Some(_) => Ok(()),
        None => wishes.try_reserve(1),
    }
}

/// Keeps a wish, in the place of an earlier one for its BSC. At an `Err` nothing changed, and there was no earlier one.
pub(crate) fn keep(wishes: &mut Vec<Wish>, wish: Wish) -> Result<(), AllocError>
    ensures kept { OnOk result (wishes.new.items ≡ with_wish wish wishes.old.items) }
    ensures unchanged { OnErr result (wishes.new.items ≡ wishes.old.items) }
    ensures none { OnErr result (wish_for wishes.old.items wish.bsc ≡ None) }
{
    reserve(wishes, wish.bsc)?;
    take_out(wishes, wish.bsc);
    wishes.push_reserved(wish);
    Ok(())
}
