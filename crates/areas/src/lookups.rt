//! What a list of areas has.

ghost use Rattle.std.specs.Prelude.{◌≡◌, ◌≤◌, true, false, List, ℕ, length, IfSome};
ghost use Rattle.std.specs.List.{position_or_len};
ghost use Rattle.std.specs.List.Sorted.{IsPartitionPoint};
ghost use Rattle.common.specs.Order.{is_ascending};
ghost use Rattle.areas.specs.Areas.{is_named, has_area, selectors_of, has_selector, is_among, selects, covers, named_lt};
ghost use Rattle.areas.specs.Selector.{selector_lt};
ghost use Rattle.areas.specs.declared.selector.Selector.TheVariants as selector;

use crate::area::Area;
use crate::naming::is_before;
use crate::selector::{Selector, is_before_cell, is_before_lac, is_cell};
use common::{Cell, Name, Ordered};

/// Where the area of that name stands among areas in order; past the last where there is none.
pub(crate) fn place_of(areas: &[Area], a: &Name) -> usize
    requires { is_ascending named_lt areas.now ≡ true }
    ensures { result ≡ position_or_len (is_named a.now) areas.now }
{
    let place = areas.partition_point(|area| is_before(&area.name, a));
    if place < areas.len() && areas[place].name == *a {
        place
    } else {
        areas.len()
    }
}

/// Whether the area is there.
pub(crate) fn has_area(areas: &[Area], a: &Name) -> bool
    requires { is_ascending named_lt areas.now ≡ true }
    ensures { result ≡ has_area areas.now a.now }
{
    place_of(areas, a) < areas.len()
}

/// The selectors of the area; none where it isn't there.
pub(crate) fn selectors_of<'a>(areas: &'a [Area], a: &Name) -> &'a [Selector]
    requires { is_ascending named_lt areas.now ≡ true }
    ensures { result.now ≡ selectors_of areas.now a.now }
{
    let place = place_of(areas, a);
    if place < areas.len() {
        areas[place].selectors.as_slice()
    } else {
        &[]
    }
}

/// Whether the selector is one of those, which stand in their order.
fn is_among(selectors: &[Selector], s: Selector) -> bool
    requires { is_ascending selector_lt selectors.now ≡ true }
    ensures { result ≡ is_among s selectors.now }
{
    let place = selectors.partition_point(|other| other.is_before(&s));
    place < selectors.len() && selectors[place] == s
}

/// Whether the area has the selector.
pub(crate) fn has_selector(areas: &[Area], a: &Name, s: Selector) -> bool
    requires ascending { is_ascending named_lt areas.now ≡ true }
    requires ordered { (a : List ℕ) → is_ascending selector_lt (selectors_of areas.now a) ≡ true }
    ensures { result ≡ has_selector areas.now a.now s }
{
    is_among(selectors_of(areas, a), s)
}

/// How many selectors the area has.
pub(crate) fn selector_count(areas: &[Area], a: &Name) -> usize
    requires { is_ascending named_lt areas.now ≡ true }
    ensures { result ≡ length (selectors_of areas.now a.now) }
{
    selectors_of(areas, a).len()
}

/// How many selectors are few enough to be looked at one by one.
const FEW: usize = 64;

/// Whether the cell is one of the selectors, which stand in their order. They are looked at one by one.
fn has_cell_by_steps(selectors: &[Selector], c: Cell) -> bool
    requires { is_ascending selector_lt selectors.now ≡ true }
    ensures { result ≡ is_among (selector.Cell c) selectors.now }
{
    for s in selectors {
        if !is_before_cell(*s, c) {
            return is_cell(*s, c);
        }
    }
    false
}

/// Whether the cell is one of the selectors, which stand in their order.
fn has_cell(selectors: &[Selector], c: Cell) -> bool
    requires { is_ascending selector_lt selectors.now ≡ true }
    ensures { result ≡ is_among (selector.Cell c) selectors.now }
{
    if selectors.len() <= FEW {
        return has_cell_by_steps(selectors, c);
    }
    is_among(selectors, Selector::Cell(c))
}

/// How many selectors are looked at before the others are searched.
const NEAR: usize = 32;

/// Where the selectors of the location area, or of one after it, begin, if the first ones tell.
fn start_near(selectors: &[Selector], lac: u16) -> Option<usize>
    requires { is_ascending selector_lt selectors.now ≡ true }
    ensures bound { IfSome result (λ n. n ≤ length selectors.now) }
    ensures start { IfSome result (IsPartitionPoint (λ s. selector_lt s (selector.Lac lac) ≡ true) (λ s. selector_lt s (selector.Lac lac) ≡ false) selectors.now) }
{
    for (place, s) in selectors.iter().enumerate() {
        if !is_before_lac(*s, lac) {
            return Some(place);
        }
        if place == NEAR {
            return None;
        }
    }
    Some(selectors.len())
}

/// Where the selectors of the location area, or of one after it, begin. The first ones are looked at first.
fn start_of(selectors: &[Selector], lac: u16) -> usize
    requires { is_ascending selector_lt selectors.now ≡ true }
    ensures bound { result ≤ length selectors.now }
    ensures start { IsPartitionPoint (λ s. selector_lt s (selector.Lac lac) ≡ true) (λ s. selector_lt s (selector.Lac lac) ≡ false) selectors.now result }
{
    match start_near(selectors, lac) {
        Some(start) => start,
        None => selectors.partition_point(|other| is_before_lac(*other, lac)),
    }
}

/// Whether one of the selectors, which stand in their order, is the cell or its location area. The first of that location
/// area tells, unless it is another cell of it.
pub(crate) fn selects(selectors: &[Selector], c: Cell) -> bool
    requires { is_ascending selector_lt selectors.now ≡ true }
    ensures { result ≡ selects selectors.now c }
{
    let start = start_of(selectors, c.lac);
    if start == selectors.len() {
        return false;
    }
    match selectors[start] {
        Selector::Lac(lac) => lac == c.lac,
        Selector::Cell(first) => first.lac == c.lac && has_cell(&selectors[start..], c),
    }
}

/// Whether the area covers the cell.
pub(crate) fn covers(areas: &[Area], a: &Name, c: Cell) -> bool
    requires ascending { is_ascending named_lt areas.now ≡ true }
    requires ordered { (a : List ℕ) → is_ascending selector_lt (selectors_of areas.now a) ≡ true }
    ensures { result ≡ covers areas.now a.now c }
{
    selects(selectors_of(areas, a), c)
}
