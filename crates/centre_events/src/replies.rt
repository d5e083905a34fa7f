//! What a reply says, cell by cell.

ghost use Rattle.std.specs.Prelude.{◌≡◌, ◌↔◌, true, false, find, IsTrue, IfOk};
ghost use Rattle.std.specs.Cmp.{decided, partial_equiv_from_equiv};
ghost use Rattle.std.specs.Cmp.Lexicographic.{pointwise};
ghost use Rattle.std.specs.List.Sorted.{IsPartitionPoint};
ghost use Rattle.std.specs.Option.{option_copied};
ghost use Rattle.common.specs.Cell.{cell_eq, cell_lt};
ghost use Rattle.common.specs.Order.{is_ascending};
ghost use Rattle.centre_events.specs.Equality.{replies_decide};
ghost use Rattle.centre_events.specs.Replies.{reply_eq, reply_lt};

use crate::reply::Reply;
use common::Cell;
use std::alloc::{AllocError, Global};
use std::marker::Model;

/// What a reply says of each cell of its order, in that order.
pub struct Replies {
    replies: Vec<Reply>,
    /// The cells stand in ascending order, so that one can be found by halves.
    is_ordered: bool,
}

/// Written out, so that no crate above proves anew how its parts are dropped.
impl Drop for Replies {
    fn drop(self) {
        let Replies {
            replies: _replies,
            is_ordered: _is_ordered,
        } = self;
    }
}

impl Model for Replies {
    ghost use Rattle.std.specs.Prelude.{◌≡◌, List, true};
    ghost use Rattle.common.specs.Order.{is_ascending};
    ghost use Rattle.centre_events.specs.Replies.{reply_lt};
    ghost use Rattle.centre_events.specs.declared.reply.Reply.{Reply};

    ghost Value = { List Reply };

    ghost view = { λ s. s.replies.items };

    ghost invariant = { λ s. s.is_ordered ≡ true → is_ascending reply_lt s.replies.items ≡ true };
}

/// Whether the cells of the replies stand in ascending order.
fn are_ascending(replies: &[Reply]) -> bool
    ensures { result ≡ true → is_ascending reply_lt replies.now ≡ true }
{
    replies.is_sorted_by(|reply, next| reply.cell.is_before(&next.cell))
}

/// The first reply of the cell.
fn first_of(replies: &[Reply], c: Cell) -> Option<&Reply>
    ensures { option_copied result ≡ find (λ r. cell_eq c r.cell) replies.now }
{
    replies.iter().find(|reply| c == reply.cell)
}

/// Where the replies begin whose cells don't come before the given one.
fn start_of(replies: &[Reply], c: Cell) -> usize
    requires { is_ascending reply_lt replies.now ≡ true }
    ensures { IsPartitionPoint (λ r. cell_lt r.cell c ≡ true) (λ r. cell_lt r.cell c ≡ false) replies.now result }
{
    replies.partition_point(|reply| reply.cell.is_before(&c))
}

/// The reply of the cell, found by halves among replies in ascending order. Where it isn't there, none is of the cell.
fn found_by_halves(replies: &[Reply], c: Cell) -> Option<Reply>
    requires { is_ascending reply_lt replies.now ≡ true }
    ensures { result ≡ find (λ r. cell_eq c r.cell) replies.now }
{
    match replies.get(start_of(replies, c)) {
        Some(reply) if c == reply.cell => Some(*reply),
        _ => None,
    }
}

impl Replies {
    /// The replies of the vector, which is moved.
    pub fn from_vec(replies: Vec<Reply>) -> Replies
        ensures { result ≡ replies.items }
    {
        let is_ordered = are_ascending(&replies);
        Replies {
            replies,
            is_ordered,
        }
    }

    /// The first reply of the cell.
    pub fn of_cell(&self, c: Cell) -> Option<Reply>
        ensures { result ≡ find (λ r. cell_eq c r.cell) self.now }
    {
        if self.is_ordered {
            return found_by_halves(&self.replies, c);
        }
        match first_of(&self.replies, c) {
            Some(reply) => Some(*reply),
            None => None,
        }
    }

    /// The first reply of the cell, which is looked at first where the cell is expected.
    pub(crate) fn of_cell_near(&self, c: Cell, place: usize) -> Option<Reply>
        ensures { result ≡ find (λ r. cell_eq c r.cell) self.now }
    {
        match self.replies.get(place) {
            Some(reply) if self.is_ordered && c == reply.cell => Some(*reply),
            _ => self.of_cell(c),
        }
    }

    pub fn as_slice(&self) -> &[Reply]
        ensures { result.now ≡ self.now }
    {
        &self.replies
    }

    /// The replies as a vector, which is moved and not copied.
    pub fn into_vec(self) -> Vec<Reply>
        ensures { result.items ≡ self }
    {
        let Replies {
            replies,
            is_ordered: _,
        } = self;
        replies
    }

    /// The same replies in memory of their own.
    pub fn copied(&self, alloc: Global) -> Result<Replies, AllocError>
        ensures { IfOk result (λ copy. copy ≡ self.now) }
    {
        let replies = Vec::from_slice(alloc, self.as_slice())?;
        Ok(Replies::from_vec(replies))
    }

    pub fn same(&self, other: &Replies) -> bool
        ensures { IsTrue result ↔ (self.now ≡ other.now) }
    {
        *self == *other
    }
}

impl PartialEq for Replies {
    ghost eq = { λ a b. pointwise reply_eq a b };

    ghost laws = { partial_equiv_from_equiv (decided (pointwise reply_eq) replies_decide) };

    fn eq(&self, other: &Replies) -> bool {
        self.as_slice() == other.as_slice()
    }
}

impl Eq for Replies {
    ghost laws = { decided (pointwise reply_eq) replies_decide };
}
