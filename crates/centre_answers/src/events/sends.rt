//! Sending of orders.

ghost use Rattle.std.specs.Prelude.{◌≡◌, IfSome};
ghost use Rattle.warning_book.specs.Book.{content_of};
ghost use Rattle.centre_events.specs.OrderMessage.{IsCarriable};
ghost use Rattle.order_maker.specs.Pending.{IsListOf};
ghost use Rattle.centre_past.specs.IsKept.{IsKept};
ghost use Rattle.centre_events.specs.Kept.{Gives};
ghost use Rattle.centre_past.specs.Legal.{Legal};
ghost use Rattle.centre_events.specs.Past.{Past};
ghost use Rattle.centre_events.specs.Pending.{all_actions};
ghost use Rattle.centre_events.specs.Verdict.{send, send_answer};
ghost use Rattle.centre_events.specs.Warnings.{book_of};
ghost use Rattle.centre_events.specs.declared.settings.Settings.{Settings};

use crate::events::Verdict;
use crate::events::links::check_link;
use cell_register::BscId;
use centre_events::answer::Answer;
use centre_events::order_message::message_of;
use centre_events::refusal::Refusal;
use centre_past::kept::Kept;
use centre_past::links::flight_in;
use order_maker::Order;
use std::alloc::Global;
use warning_book::Book;

/// What is answered where that is the first pending order, and so many broadcasts are requested. In every legal past it can be
/// carried.
fn send_answer(alloc: Global, requested: u16, book: &Book, order: Option<Order>) -> Verdict
    ensures { (past : Past) → book.now ≡ book_of past → IfSome order (λ o. IsCarriable (content_of o.message_id o.serial book.now.warnings)) → Gives (send_answer requested past order) result }
{
    let Some(order) = order else {
        return Err(Refusal::NothingPending);
    };
    let content = book.content_of(order.message_id, order.serial);
    if content.is_none() {
        return Err(Refusal::NothingPending);
    }
    let message = message_of(alloc, requested, &order, content)?;
    Ok(Answer::Sent { order, message })
}

/// Send: takes the first pending order of a BSC, over its link. A message that broadcasts pages requests so many broadcasts.
/// Whether an order is pending is asked before any memory is taken.
pub(crate) fn send(alloc: Global, requested: u16, kept: &Kept, b: BscId, generation: u64) -> Verdict
    ensures { (settings : Settings) (past : Past) → Legal settings past → IsKept past kept.now → IsListOf (all_actions past b) kept.now.tables.pending b → Gives (send requested past b generation) result }
{
    check_link(&kept.links, kept.plan.register(), b, generation)?;
    if flight_in(&kept.links, b).is_some() {
        return Err(Refusal::InFlight);
    }
    if !kept.tables.has(b) {
        return Err(Refusal::NothingPending);
    }
    let order = kept.tables.first(b)?;
    send_answer(alloc, requested, kept.plan.book(), order)
}
