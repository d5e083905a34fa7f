//! What stays on air at BSCs whose link is down.

ghost use Rattle.std.specs.Prelude.{◌≡◌};
ghost use Rattle.std.specs.List.{list_any};
ghost use Rattle.server_operator.specs.Downs.{are_versions, ended_in, is_taken_off, takes_off};

use crate::listed::bscs_in;
use crate::operator::Operator;
use crate::server::Server;
use cell_register::BscId;
use centre_past::lists::WarningRow;
use office::desk::Desk;
use office::question::Question;
use office::seen::SeenValue;
use order_maker::{Order, OrderKind};
use serials::Serial;
use std::sync::Wait;
use std::sync::ledger::Ledger;
use std::time::Clock;
use warning_book::WarningId;

/// The serial number of the message that the order takes off the air, if it takes one off.
fn ended_by(order: &Order) -> Option<Serial>
    ensures { result ≡ ended_in order.now.kind order.now.serial }
{
    match order.kind {
        OrderKind::Write => None,
        OrderKind::Replace { old } => Some(old),
        OrderKind::Kill => Some(order.serial),
    }
}

/// Whether two serial numbers differ at most in their update number.
fn are_versions(one: Serial, other: Serial) -> bool
    ensures { result ≡ are_versions one other }
{
    one.scope().number() == other.scope().number() && one.code() == other.code()
}

/// Whether the order is to take a version of the warning off the air.
fn is_taken_off(order: &Order, warning: &WarningRow) -> bool
    ensures { result ≡ is_taken_off warning.now order.now }
{
    match (ended_by(order), warning.serial) {
        (Some(ended), Some(current)) => {
            order.message_id == warning.message_id && are_versions(ended, current)
        }
        _ => false,
    }
}

/// Whether one of the orders is to take a version of the warning off the air.
pub(crate) fn takes_off(orders: &[Order], warning: &WarningRow) -> bool
    ensures { result ≡ takes_off warning.now orders.now }
{
    orders.iter().any(|order| is_taken_off(order, warning))
}

/// Whether an order is pending for the BSC that is to take a version of the warning off the air.
fn keeps_on_air<L: Ledger, S: Server, R: Wait>(
    rt: &R,
    operator: &Operator<'_, L, S>,
    desk: &Desk<L>,
    b: BscId,
    warning: &WarningRow,
) -> bool {
    match operator.office.look(rt, desk, Question::Pending(b)) {
        Ok(seen) => match &seen.value {
            SeenValue::Pending(orders) => takes_off(orders.as_slice(), warning),
            _ => false,
        },
        Err(_) => false,
    }
}

/// Each BSC whose link is down is named to the server where an older version of the warning is on air, or may be.
fn name_downs_of<L: Ledger, S: Server, R: Wait + Clock>(
    rt: &R,
    operator: &Operator<'_, L, S>,
    desk: &Desk<L>,
    warning: &WarningRow,
) {
    let Ok(seen) = operator.office.look(rt, desk, Question::Bscs) else {
        return;
    };
    for row in bscs_in(&seen.value) {
        if row.pending > 0
            && operator.server.is_down(rt, row.bsc)
            && keeps_on_air(rt, operator, desk, row.bsc, warning)
        {
            operator.server.stays_on_air(rt, warning.number, row.bsc);
        }
    }
}

/// The warning was stopped or updated. Each BSC whose link is down is named to the server where an older version of the warning is
/// on air, or may be: an order is pending there to take it off. Where memory runs out for the answers of the centre, no BSC is named,
/// or not that one.
pub(crate) fn name_downs<L: Ledger, S: Server, R: Wait + Clock>(
    rt: &R,
    operator: &Operator<'_, L, S>,
    desk: &Desk<L>,
    warning: WarningId,
) {
    if !operator.server.has_downs(rt) {
        return;
    }
    let Ok(seen) = operator.office.look(rt, desk, Question::Warning(warning)) else {
        return;
    };
    if let SeenValue::Warning(sheet) = &seen.value {
        name_downs_of(rt, operator, desk, &sheet.row);
    }
}
