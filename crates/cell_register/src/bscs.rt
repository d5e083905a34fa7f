//! BSCs, in ascending order.

ghost use Rattle.std.specs.Prelude.{◌≡◌, true, filter, nat_eq, not};
ghost use Rattle.std.specs.List.{list_any};

use crate::bsc_id::BscId;
use common::Ordered;

/// Whether the BSC stands where it does in a list in ascending order.
fn is_in_place(b: BscId, bscs: &[BscId]) -> bool
    ensures { result ≡ true → list_any (λ x. nat_eq x b) bscs.now ≡ true }
{
    let place = bscs.partition_point(|other| other.is_before(&b));
    place < bscs.len() && bscs[place] == b
}

/// Whether the BSC is one of them. In ascending order one that is there is found by halves.
pub(crate) fn is_among(b: BscId, bscs: &[BscId]) -> bool
    ensures { result ≡ list_any (λ x. nat_eq x b) bscs.now }
{
    is_in_place(b, bscs) || bscs.contains(&b)
}

pub(crate) fn remove(b: BscId, bscs: &mut Vec<BscId>)
    ensures { bscs.new.items ≡ filter (λ x. not (nat_eq x b)) bscs.old.items }
{
    bscs.retain(|other| *other != b);
}
