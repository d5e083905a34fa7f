//! The edits of a list of areas that nothing forbids.

ghost use Rattle.std.specs.Prelude.{◌≡◌, true, OnOk, OnErr};
ghost use Rattle.common.specs.Order.{is_ascending};
ghost use Rattle.areas.specs.Areas.{named_lt, with_area, without_area, with_selector, without_selector};

use crate::area::Area;
use crate::lookups::place_of;
use crate::selector::Selector;
use crate::selectors::Selectors;
use common::{Name, insert_in_order};
use std::alloc::{AllocError, Global};

/// Adds an area without selectors, in order.
pub(crate) fn add_area(alloc: Global, areas: &mut Vec<Area>, a: &Name) -> Result<(), AllocError>
    ensures added { OnOk result (areas.new.items ≡ with_area a.now areas.old.items) }
    ensures unchanged { OnErr result (areas.new.items ≡ areas.old.items) }
{
    let area = Area {
        name: a.clone()?,
        selectors: Selectors::from_vec(Vec::new(alloc)),
    };
    insert_in_order(area, areas)?;
    Ok(())
}

/// Takes the area out.
pub(crate) fn drop_area(areas: &mut Vec<Area>, a: &Name)
    ensures { areas.new.items ≡ without_area a.now areas.old.items }
{
    areas.retain(|area| area.name != *a);
}

/// Puts the selector into the area.
pub(crate) fn put(
    alloc: Global,
    areas: &mut Vec<Area>,
    a: &Name,
    s: Selector,
) -> Result<(), AllocError>
    requires { is_ascending named_lt areas.old.items ≡ true }
    ensures put { OnOk result (areas.new.items ≡ with_selector a.now s areas.old.items) }
    ensures unchanged { OnErr result (areas.new.items ≡ areas.old.items) }
{
    let place = place_of(areas.as_slice(), a);
    if place < areas.len() {
        let area = &mut areas[place];
        area.selectors.insert(alloc, s)?;
    }
    Ok(())
}

/// Takes the selector out of the area.
pub(crate) fn cut(areas: &mut Vec<Area>, a: &Name, s: Selector)
    requires { is_ascending named_lt areas.old.items ≡ true }
    ensures { areas.new.items ≡ without_selector a.now s areas.old.items }
{
    let place = place_of(areas.as_slice(), a);
    if place < areas.len() {
        let area = &mut areas[place];
        area.selectors.cut(s);
    }
}
