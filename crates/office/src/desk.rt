//! A desk: the receipts of one caller.

ghost use Rattle.std.specs.Prelude.{◌≡◌, ◌≤◌, length, take, drop, All};
ghost use Rattle.office.specs.Desks.{BeginsAbove};
ghost use Rattle.office.specs.declared.receipt.Receipt.{Receipt};

use crate::receipt::Receipt;
use centre_events::answer::Answer;
use centre_events::event::Event;
use histories::History;
use std::alloc::{AllocError, Global};
use std::marker::Model;
use std::sync::ledger::{Book, Ledger, Share};

/// A caller's place at an office. Contracts see its number, its receipts, how many of them, the first, it let go of, for how
/// many more it has room, and the amount of its share, which is the number of its receipts. Those that it let go of take no
/// memory.
pub struct Desk<L: Ledger> {
    number: u32,
    last: u64,
    released: History<Receipt>,
    released_count: u64,
    released_last: u64,
    receipts: Vec<Receipt>,
    share: Share<L>,
}

/// Written out, so that no crate above proves anew how its parts are dropped.
impl<L: Ledger> Drop for Desk<L> {
    fn drop(self) {
        drop(self.into_share());
    }
}

impl<L: Ledger> Model for Desk<L> {
    ghost use Rattle.std.specs.Prelude.{◌-◌, ◌++◌, length};
    ghost use Rattle.std.specs.Vec.{vec_len, vec_capacity};
    ghost use Rattle.office.specs.Desks.{AreReleased, DeskState, IsDesk};

    ghost Value = { DeskState };

    ghost view = { λ d. record { number = d.number; receipts = d.released.items ++ d.receipts.items; released = length d.released.items; spare = vec_capacity d.receipts - vec_len d.receipts; share = d.share.amount } };

    ghost invariant = { λ d. IsDesk d.last (d.released.items ++ d.receipts.items) d.share.parts d.share.amount
        × AreReleased d.released_count d.released_last d.released.items };
}

impl<L: Ledger> Desk<L> {
    ghost use Rattle.std.specs.Prelude.{◌≡◌, ◌↔◌, ◌≤◌, ◌<◌, ◌+◌, ◌-◌, ◌++◌, ◌∷◌, [], length, take, drop, slice_get, All, IsTrue, OnOk, OnErr};
    ghost use Rattle.office.specs.Desks.{IsReleased};
    ghost use Rattle.office.specs.declared.receipt.Receipt.{Receipt};
    ghost use Rattle.office.specs.Receipts.{last_place};

    /// A desk without receipts.
    pub(crate) fn new(alloc: Global, number: u32, share: Share<L>) -> Desk<L>
        requires part { share.parts ≡ 1 }
        requires none { share.amount ≡ 0 }
        ensures number { result.number ≡ number }
        ensures receipts { result.receipts ≡ [] }
        ensures released { result.released ≡ 0 }
        ensures share { result.share ≡ 0 }
    {
        Desk {
            number,
            last: 0,
            released: History::new(),
            released_count: 0,
            released_last: 0,
            receipts: Vec::new(alloc),
            share,
        }
    }

    /// The number of the desk, from 1.
    pub fn number(&self) -> u32
        ensures { result ≡ self.now.number }
    {
        self.number
    }

    /// The receipts in the order of their events, but for those that the desk let go of.
    pub fn receipts(&self) -> &[Receipt]
        ensures { result.now ≡ drop self.now.released self.now.receipts }
    {
        self.receipts.as_slice()
    }

    /// The latest receipt.
    pub fn latest(&self) -> &Receipt
        requires some { self.now.released < length self.now.receipts }
        ensures { slice_get self.now.receipts (length self.now.receipts - 1) ≡ Some result.now }
    {
        &self.receipts[self.receipts.len() - 1]
    }

    /// How many receipts there are, those counted that the desk let go of.
    pub(crate) fn len(&self) -> u64
        ensures { result ≡ length self.now.receipts }
    {
        self.released_count + self.receipts.len() as u64
    }

    /// Of how many receipts, the first, the desk let go.
    pub(crate) fn released(&self) -> u64
        ensures { result ≡ self.now.released }
    {
        self.released_count
    }

    /// Whether the places of the receipts of which the desk let go are all up to that one.
    pub(crate) fn is_released_within(&self, place: u64) -> bool
        ensures { IsTrue result ↔ All (λ (r : Receipt). r.place ≤ place) (take self.now.released self.now.receipts) }
    {
        self.released_last <= place
    }

    /// The place of the last receipt, 0 where there is none.
    pub(crate) fn last(&self) -> u64
        ensures { result ≡ last_place self.now.receipts }
    {
        self.last
    }

    /// Tells what always holds of a desk.
    pub fn tell_soundness(&self)
        ensures counted { self.now.share ≡ length self.now.receipts }
        ensures places { All (λ r. r.place ≤ last_place self.now.receipts) self.now.receipts }
        ensures released { self.now.released ≤ length self.now.receipts }
    {
        let _ = &self.last;
    }

    /// The desk's share. Its receipts are dropped.
    pub(crate) fn into_share(self) -> Share<L>
        ensures { result.amount ≡ length self.receipts }
    {
        let Desk {
            number: _,
            last: _,
            released: _,
            released_count: _,
            released_last: _,
            receipts,
            share,
        } = self;
        drop(receipts);
        share
    }

    /// Makes room for one more receipt. It takes no memory where there is room.
    pub fn reserve(&mut self) -> Result<(), AllocError>
        ensures room { OnOk result (1 ≤ self.new.spare) }
        ensures same { self.new ≡ record self.old { spare = self.new.spare } }
        ensures full { OnErr result (self.old.spare ≡ 0) }
    {
        self.receipts.try_reserve(1)
    }

    /// Keeps the receipt of an event, which the book counts.
    pub(crate) fn keep(&mut self, book: &mut Book<L>, place: u64, event: Event, answer: Answer)
        requires room { 1 ≤ self.old.spare }
        requires later { last_place self.old.receipts < place }
        ensures number { self.new.number ≡ self.old.number }
        ensures receipts { self.new.receipts ≡ self.old.receipts ++ record { place = place; event = event; answer = answer } ∷ [] }
        ensures released { self.new.released ≡ self.old.released }
        ensures held { self.new.released < length self.new.receipts }
        ensures total { book.new.total ≡ book.old.total + 1 }
        ensures share { self.new.share ≡ self.old.share + 1 }
    {
        book.add(&mut self.share, 1);
        self.receipts.push_reserved(Receipt {
            place,
            event,
            answer,
        });
        self.last = place;
    }

    /// Lets go of the receipts up to that place. They take no memory any more, nor does the room beside them. Where there is no
    /// memory to put the others in, nothing is let go.
    pub fn release(&mut self, place: u64) -> Result<(), AllocError>
        ensures released { OnOk result (IsReleased place self.old self.new) }
        ensures unchanged { OnErr result (self.new ≡ self.old) }
    {
        let count = count_to(self.receipts.as_slice(), place);
        if count == 0 {
            return Ok(());
        }
        let later = self.receipts.split_off(count)?;
        self.released = self.released.then(&self.receipts);
        self.released_count += count as u64;
        self.released_last = self.receipts[count - 1].place;
        self.receipts = later;
        Ok(())
    }
}

/// How many receipts stand before the first above that place.
fn count_to(receipts: &[Receipt], place: u64) -> usize
    ensures within { result ≤ length receipts.now }
    ensures places { All (λ (r : Receipt). r.place ≤ place) (take result receipts.now) }
    ensures above { BeginsAbove place (drop result receipts.now) }
{
    let mut count = 0;
    for receipt in receipts {
        if receipt.place > place {
            return count;
        }
        count += 1;
    }
    count
}
