//! What an order is, but for its cells.

ghost use Rattle.std.specs.Prelude.{◌≡◌, ◌≤◌};
ghost use Rattle.order_maker.specs.Grouping.{kind_rank, old_rank};
ghost use Rattle.order_maker.specs.KeyNumber.{old_in};
ghost use Rattle.order_maker.specs.Pending.{kind_of, key_of, order_in, least};

use crate::action::Action;
use crate::order::Order;
use crate::order_kind::OrderKind;
use cell_register::BscId;
use common::Cells;
use serials::Serial;
use std::alloc::AllocError;
use std::cmp::Ordering;
use std::marker::Model;

/// One more message identifier in a key's number. Below it stands the serial number.
const MESSAGE: u64 = 1 << 16;

/// A KILL.
const KILL: u64 = 1 << 32;

/// One more BSC.
const NEXT_BSC: u64 = 1 << 33;

/// An order of a BSC, but for its cells. Keys are ordered by BSC, and those of one BSC as their orders are sent. All parts
/// but the last stand in one number in this order, the BSC highest: so that most keys are compared at once.
#[derive(Drop)]
pub(crate) struct OrderKey {
    number: u64,
    /// The rank of the serial number that is replaced.
    old: u32,
}

impl Model for OrderKey {
    ghost use Rattle.order_maker.specs.Pending.{OrderKey};

    ghost Value = { OrderKey };

    ghost use Rattle.order_maker.specs.KeyNumber.{key_in, IsRank};

    ghost view = { λ k. key_in k.number k.old };

    ghost invariant = { λ k. IsRank k.old };
}

/// Writes and replaces come first.
fn kind_rank(kind: OrderKind) -> u64
    ensures { result ≡ kind_rank kind }
{
    match kind {
        OrderKind::Kill => 1,
        OrderKind::Write | OrderKind::Replace { old: _ } => 0,
    }
}

/// An order that replaces nothing comes before those that do.
fn old_rank(kind: OrderKind) -> u32
    ensures { result ≡ old_rank kind }
{
    match kind {
        OrderKind::Replace { old } => u32::from(old.to_u16()) + 1,
        OrderKind::Write | OrderKind::Kill => 0,
    }
}

fn kind_of(is_kill: bool, old: Option<u16>) -> OrderKind
    ensures { result ≡ kind_of is_kill old }
{
    if is_kill {
        return OrderKind::Kill;
    }
    match old {
        Some(old) => OrderKind::Replace {
            old: Serial::from_u16(old),
        },
        None => OrderKind::Write,
    }
}

/// The serial number that is replaced, by its rank.
fn old_in(rank: u32) -> Option<u16>
    requires { rank ≤ 65536 }
    ensures { result ≡ old_in rank }
{
    if rank == 0 {
        return None;
    }
    Some((rank - 1) as u16)
}

impl Clone for OrderKey {
    ghost use Rattle.std.specs.Prelude.{◌≡◌};

    ghost is_clone = { λ s t. t ≡ s };

    fn clone(&self) -> Result<OrderKey, AllocError> {
        Ok(OrderKey {
            number: self.number,
            old: self.old,
        })
    }
}

impl OrderKey {
    /// The order that the action is a part of.
    pub(crate) fn of(b: BscId, a: Action) -> OrderKey
        ensures { result ≡ key_of b a }
    {
        let bsc = u64::from(b.number()) * NEXT_BSC;
        let kind = kind_rank(a.kind) * KILL;
        let message = u64::from(a.message_id) * MESSAGE;
        OrderKey {
            number: bsc + kind + message + u64::from(a.serial.to_u16()),
            old: old_rank(a.kind),
        }
    }

    /// The first that a BSC of that number may have.
    pub(crate) fn least(bsc: u32) -> OrderKey
        requires { bsc ≤ 65536 }
        ensures { result ≡ least bsc }
    {
        OrderKey {
            number: u64::from(bsc) * NEXT_BSC,
            old: 0,
        }
    }

    fn kind(&self) -> OrderKind
        ensures { result ≡ kind_of self.now.is_kill self.now.old }
    {
        let is_kill = self.number % NEXT_BSC / KILL == 1;
        kind_of(is_kill, old_in(self.old))
    }

    /// The order in these cells.
    pub(crate) fn order(&self, cells: Cells) -> Order
        ensures { result ≡ order_in self.now cells }
    {
        Order {
            kind: self.kind(),
            message_id: (self.number % KILL / MESSAGE) as u16,
            serial: Serial::from_u16((self.number % MESSAGE) as u16),
            cells,
        }
    }
}

impl PartialEq for OrderKey {
    ghost use Rattle.std.specs.Cmp.{partial_equiv_from_equiv, eq_by_cmp_equiv};
    ghost use Rattle.std.specs.Ordering.{eq_by_cmp};
    ghost use Rattle.order_maker.specs.KeyLaws.{key_total};
    ghost use Rattle.order_maker.specs.Pending.{key_cmp};

    ghost eq = { eq_by_cmp key_cmp };

    ghost laws = { partial_equiv_from_equiv (eq_by_cmp_equiv key_total) };

    fn eq(&self, other: &OrderKey) -> bool {
        self.cmp(other).is_eq()
    }
}

impl Eq for OrderKey {
    ghost use Rattle.std.specs.Cmp.{eq_by_cmp_equiv};
    ghost use Rattle.order_maker.specs.KeyLaws.{key_total};

    ghost laws = { eq_by_cmp_equiv key_total };
}

impl PartialOrd for OrderKey {
    ghost use Rattle.std.specs.Cmp.{partial_order_from_total};
    ghost use Rattle.std.specs.Ordering.{as_partial_cmp};
    ghost use Rattle.order_maker.specs.KeyLaws.{key_total};
    ghost use Rattle.order_maker.specs.Pending.{key_cmp};

    ghost partial_cmp = { as_partial_cmp key_cmp };

    ghost laws = { partial_order_from_total key_total };

    fn partial_cmp(&self, other: &OrderKey) -> Option<Ordering> {
        Some(self.cmp(other))
    }
}

impl Ord for OrderKey {
    ghost use Rattle.std.proofs.Common.{refl};
    ghost use Rattle.order_maker.specs.KeyLaws.{key_total};
    ghost use Rattle.order_maker.specs.Pending.{key_cmp};

    ghost cmp = { key_cmp };

    ghost total = { key_total };

    ghost matches_partial_cmp = { λ x y. refl };

    ghost matches_eq = { λ x y. refl };

    /// A search asks at each key whether the one that it seeks comes after it. So that is tested first, most often by one
    /// comparison.
    fn cmp(&self, other: &OrderKey) -> Ordering {
        let same = self.number == other.number;
        if self.number > other.number || (same && self.old > other.old) {
            Ordering::Greater
        } else if same && self.old == other.old {
            Ordering::Equal
        } else {
            Ordering::Less
        }
    }
}
