//! What an accepted event is answered.

ghost use Rattle.std.specs.Prelude.{◌≡◌, ◌↔◌, true, IsTrue, IfOk, IsOk};
ghost use Rattle.centre_events.specs.Kept.{is_plain};

use crate::replies::Replies;
use cbsp_messages::Message;
use common::Cells;
use order_maker::Order;
use serials::Serial;
use std::alloc::{AllocError, Global};
use warning_book::WarningId;

/// What an accepted event is answered.
pub enum Answer {
    Done,
    /// The number and the serial number of a warning.
    Issued(WarningId, Serial),
    /// The serial number of a warning's new version.
    Updated(Serial),
    /// The generation of a link: the number of the entry that brought it up.
    Link(u64),
    /// An order that is now in flight, and the message that carries it.
    Sent {
        order: Order,
        message: Message,
    },
    /// A query that is now in flight, and the message that carries it.
    Asked {
        message_id: u16,
        serial: Serial,
        cells: Cells,
        message: Message,
    },
    /// What a reply says of each cell of its order or query, in the order in which that names them.
    Replied(Replies),
    /// The cells known at the BSC that an indication names, in order; none where it is about warnings of neither kind.
    Listed(Cells),
}

/// Written out, so that no crate above proves anew how its parts are dropped.
impl Drop for Answer {
    fn drop(self) {
        match self {
            Answer::Done => {}
            Answer::Issued(_part0, _part1) => {}
            Answer::Updated(_part) => {}
            Answer::Link(_part) => {}
            Answer::Sent {
                order: _order,
                message: _message,
            } => {}
            Answer::Asked {
                message_id: _message_id,
                serial: _serial,
                cells: _cells,
                message: _message,
            } => {}
            Answer::Replied(_part) => {}
            Answer::Listed(_part) => {}
        }
    }
}

impl Answer {
    /// The same answer in memory of its own. An answer without an order, a message or a list takes none.
    pub fn copied(&self, alloc: Global) -> Result<Answer, AllocError>
        ensures copy { IfOk result (λ copy. copy ≡ self.now) }
        ensures plain { is_plain self.now ≡ true → IsOk result }
    {
        match self {
            Answer::Done => Ok(Answer::Done),
            Answer::Issued(warning, serial) => Ok(Answer::Issued(*warning, *serial)),
            Answer::Updated(serial) => Ok(Answer::Updated(*serial)),
            Answer::Link(generation) => Ok(Answer::Link(*generation)),
            Answer::Sent { order, message } => Ok(Answer::Sent {
                order: order.copied(alloc)?,
                message: message.copied(alloc)?,
            }),
            Answer::Asked {
                message_id,
                serial,
                cells,
                message,
            } => Ok(Answer::Asked {
                message_id: *message_id,
                serial: *serial,
                cells: cells.copied(alloc)?,
                message: message.copied(alloc)?,
            }),
            Answer::Replied(replies) => Ok(Answer::Replied(replies.copied(alloc)?)),
            Answer::Listed(cells) => Ok(Answer::Listed(cells.copied(alloc)?)),
        }
    }

    pub fn same(&self, other: &Answer) -> bool
        ensures { IsTrue result ↔ (self.now ≡ other.now) }
    {
        match (self, other) {
            (Answer::Done, Answer::Done) => true,
            (Answer::Issued(number, serial), Answer::Issued(other_number, other_serial)) => {
                number == other_number && serial == other_serial
            }
            (Answer::Updated(serial), Answer::Updated(other_serial)) => serial == other_serial,
            (Answer::Link(generation), Answer::Link(other_generation)) => {
                generation == other_generation
            }
            (
                Answer::Sent { order, message },
                Answer::Sent {
                    order: other_order,
                    message: other_message,
                },
            ) => order.same(other_order) && message.same(other_message),
            (
                Answer::Asked {
                    message_id,
                    serial,
                    cells,
                    message,
                },
                Answer::Asked {
                    message_id: other_id,
                    serial: other_serial,
                    cells: other_cells,
                    message: other_message,
                },
            ) => {
                message_id == other_id
                    && serial == other_serial
                    && cells.same(other_cells)
                    && message.same(other_message)
            }
            (Answer::Replied(replies), Answer::Replied(other_replies)) => {
                replies.same(other_replies)
            }
            (Answer::Listed(cells), Answer::Listed(other_cells)) => cells.same(other_cells),
            _ => false,
        }
    }
}
