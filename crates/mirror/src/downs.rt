//! The cells that are down.

ghost use Rattle.std.specs.Prelude.{◌≡◌, ◌<◌, ◌&&◌, ◌+◌, ℕ, true, false, [], length, if◌then◌else◌, nat_eq, IfOk, OnOk, OnErr};
ghost use Rattle.std.specs.List.{list_any, slice_index_or};
ghost use Rattle.common.specs.Cell.{cell_eq};
ghost use Rattle.common.specs.declared.cell.Cell.{Cell};
ghost use Rattle.mirror.specs.Downs.{AreNoneOrAll, IsCount, class_of};
ghost use Rattle.mirror.specs.Table.{is_that_place};

use crate::place::Place;
use cell_register::BscId;
use common::Cell;
use std::alloc::{AllocError, Global};
use std::collections::BTreeSet;
use std::marker::Model;

/// How many classes of cells there are.
const CLASSES: usize = 8192;

/// The cells that are down, each at its BSC. Few are down, and each line that is read asks for its cell. So the places are
/// counted by the class of their cell: where none is of that class, no place is searched for. An octet counts each, up to 255.
/// There are no counts until the first cell goes down.
#[derive(Drop)]
pub(crate) struct Downs {
    alloc: Global,
    places: BTreeSet<Place>,
    counts: Vec<u8>,
}

impl Model for Downs {
    ghost use Rattle.std.specs.Prelude.{List};
    ghost use Rattle.mirror.specs.Downs.{AreCounts, AreNoneOrAll};
    ghost use Rattle.mirror.specs.Order.{Place};

    ghost Value = { List Place };

    ghost view = { λ d. d.places.keys };

    ghost invariant = { λ d. AreCounts d.counts.items d.places.keys × AreNoneOrAll d.counts.items };
}

/// The class of a cell. Cells of the same identity in location areas that follow one another are of other classes.
fn class_of(c: Cell) -> usize
    ensures class { result ≡ class_of c }
    ensures small { result < 8192 }
{
    (usize::from(c.ci) + usize::from(c.lac) * 61) % CLASSES
}

/// The count of the class: 0 where there are no counts.
fn count_of(counts: &[u8], class: usize) -> u8
    ensures { result ≡ slice_index_or counts.now class 0 }
{
    match counts.get(class) {
        Some(count) => *count,
        None => 0,
    }
}

/// Makes the counts, 0 each, where there are none. Where memory runs out there still are none.
fn make_counts(alloc: Global, counts: &mut Vec<u8>) -> Result<(), AllocError>
    requires { AreNoneOrAll counts.now.items }
    ensures made { OnOk result (length counts.new.items ≡ 8192) }
    ensures same { (n : ℕ) → slice_index_or counts.new.items n 0 ≡ slice_index_or counts.old.items n 0 }
    ensures none { OnErr result (counts.new.items ≡ []) }
{
    if counts.is_empty() {
        *counts = vec![in alloc; 0; CLASSES]?;
    }
    Ok(())
}

/// The count of one more. That of 255 and more is 255.
fn one_more(count: u8) -> u8
    ensures { (n : ℕ) → IsCount count n → IsCount result (n + 1) }
{
    count.saturating_add(1)
}

/// The count of one less. One of 255 stays, since it isn't known of how many it is.
fn one_less(count: u8) -> u8
    ensures { (n : ℕ) → IsCount count (n + 1) → IsCount result n }
{
    match count {
        u8::MAX => u8::MAX,
        _ => count.saturating_sub(1),
    }
}

impl Downs {
    pub(crate) fn new(alloc: Global) -> Downs
        ensures { result ≡ [] }
    {
        Downs {
            alloc,
            places: BTreeSet::new(alloc),
            counts: Vec::new(alloc),
        }
    }

    /// The same places, in memory of their own.
    pub(crate) fn copied(&self) -> Result<Downs, AllocError>
        ensures { IfOk result (λ copy. copy ≡ self.now) }
    {
        Ok(Downs {
            alloc: self.alloc,
            places: self.places.clone()?,
            counts: self.counts.clone()?,
        })
    }

    /// The places, in ascending order.
    pub(crate) fn places(&self) -> &BTreeSet<Place>
        ensures { result.now.keys ≡ self.now }
    {
        &self.places
    }

    /// Whether the cell is down at the BSC.
    pub(crate) fn is_down(&self, b: BscId, c: Cell) -> bool
        ensures { result ≡ list_any (is_that_place b c) self.now }
    {
        count_of(&self.counts, class_of(c)) != 0 && self.places.contains(&Place::of(b, c))
    }

    /// Sets the cell down at the BSC. Where memory runs out nothing changes. Memory is taken only for a cell that wasn't
    /// down.
    pub(crate) fn insert(&mut self, b: BscId, c: Cell) -> Result<(), AllocError>
        ensures set { OnOk result ((d : ℕ) (e : Cell) → list_any (is_that_place d e) self.new ≡ (if nat_eq b d && cell_eq c e then true else list_any (is_that_place d e) self.old)) }
        ensures unchanged { OnErr result (self.new ≡ self.old) }
        ensures grows { OnErr result (list_any (is_that_place b c) self.old ≡ false) }
    {
        make_counts(self.alloc, &mut self.counts)?;
        if self.places.insert(Place::of(b, c))? {
            let class = class_of(c);
            self.counts[class] = one_more(self.counts[class]);
        }
        Ok(())
    }

    /// Sets the cell up at the BSC.
    pub(crate) fn remove(&mut self, b: BscId, c: Cell)
        ensures { (d : ℕ) (e : Cell) → list_any (is_that_place d e) self.new ≡ (if nat_eq b d && cell_eq c e then false else list_any (is_that_place d e) self.old) }
    {
        if self.places.remove(&Place::of(b, c)) {
            let class = class_of(c);
            if class < self.counts.len() {
                self.counts[class] = one_less(self.counts[class]);
            }
        }
    }
}
