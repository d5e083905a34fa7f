//! Damaged bodies: each has the fault that its damage makes, by the parts that the layout gives the whole body.

use crate::faults::Named;
use crate::layout::{
    demanded, discriminators_of, elements_of, identification_size, places_of, value_size,
};
use anyhow::{Context, Result};
use cbsp_messages::read;
use std::alloc::Global;

/// The fault of the body, if it is no message.
pub fn fault_of(alloc: Global, kind: u8, body: &[u8]) -> Option<Named> {
    match read(alloc, kind, body) {
        Ok(message) => {
            drop(message);
            None
        }
        Err(fault) => Some(Named::of(fault)),
    }
}

/// The body with these octets put in at that place.
fn with_more(alloc: Global, body: &[u8], place: usize, more: &[u8]) -> Result<Vec<u8>> {
    let (front, back) = body.split_at_checked(place).context("no such place")?;
    let mut octets = Vec::from_slice(alloc, front)?;
    octets.extend_from_slice(more)?;
    octets.extend_from_slice(back)?;
    Ok(octets)
}

/// Puts another octet at that place.
fn put(octets: &mut [u8], place: usize, octet: u8) {
    if let Some(other) = octets.get_mut(place) {
        *other = octet;
    }
}

/// A body that ends inside an element is Cut. So many octets stand before the element, and it has so many.
fn is_cut_inside(alloc: Global, kind: u8, body: &[u8], before: usize, size: usize) -> bool {
    for octets in 1..size {
        let (front, _) = body.split_at(before.saturating_add(octets).min(body.len()));
        if fault_of(alloc, kind, front) != Some(Named::CUT) {
            return false;
        }
    }
    true
}

/// How many of the elements have that identifier.
fn count_of(elements: &[&[u8]], id: u8) -> usize {
    let mut count = 0usize;
    for element in elements {
        if element.first() == Some(&id) {
            count = count.saturating_add(1);
        }
    }
    count
}

/// A WRITE-REPLACE of these elements is of the emergency form: one of them is an Emergency Indicator.
fn is_emergency(elements: &[&[u8]]) -> bool {
    count_of(elements, 0x0f) > 0
}

/// The first element that a message of the type demands and that isn't among these.
fn first_missing(kind: u8, elements: &[&[u8]]) -> Option<u8> {
    for id in demanded(kind, is_emergency(elements)) {
        if count_of(elements, *id) == 0 {
            return Some(*id);
        }
    }
    None
}

/// A message of the type and of these elements has pages: it is a WRITE-REPLACE and not of the emergency form.
fn has_pages(kind: u8, elements: &[&[u8]]) -> bool {
    kind == 0x01 && !is_emergency(elements)
}

/// The pages are as many as the Number of Pages says.
fn has_all_pages(elements: &[&[u8]]) -> bool {
    let pages = count_of(elements, 0x01);
    for element in elements {
        if let [0x13, number] = element {
            return pages == usize::from(*number);
        }
    }
    false
}

/// The fault of a body of these elements, each of which is without fault and none of which stands twice.
fn fault_of_elements(kind: u8, elements: &[&[u8]]) -> Option<Named> {
    match first_missing(kind, elements) {
        Some(id) => Some(Named::missing(id)),
        None if has_pages(kind, elements) && !has_all_pages(elements) => Some(Named::BAD_PAGES),
        None => None,
    }
}

/// A body that ends inside an element is Cut, and one that ends between two has the fault of those that are left.
fn is_cut_everywhere(alloc: Global, kind: u8, body: &[u8], elements: &[&[u8]]) -> bool {
    let mut end = 0usize;
    for (number, element) in elements.iter().enumerate() {
        let (front, _) = body.split_at(end.min(body.len()));
        let (before, _) = elements.split_at(number);
        if fault_of(alloc, kind, front) != fault_of_elements(kind, before)
            || !is_cut_inside(alloc, kind, body, end, element.len())
        {
            return false;
        }
        end = end.saturating_add(element.len());
    }
    true
}

/// The fault of a body in which an element of that identifier stands a second time. A page too many is passed over but in
/// a WRITE-REPLACE that has pages.
fn fault_of_second(has_pages: bool, id: u8) -> Option<Named> {
    match (id, has_pages) {
        (0x01, true) => Some(Named::BAD_PAGES),
        (0x01, false) => None,
        _ => Some(Named::repeated(id)),
    }
}

/// The element that is put in at each of these places, and so stands twice, is named. The message may have pages.
fn is_named_twice(
    alloc: Global,
    kind: u8,
    body: &[u8],
    places: &[usize],
    element: &[u8],
    has_pages: bool,
) -> Result<bool> {
    let id = element.first().copied().unwrap_or(0);
    for place in places {
        let octets = with_more(alloc, body, *place, element)?;
        let found = fault_of(alloc, kind, octets.as_slice());
        drop(octets);
        if found != fault_of_second(has_pages, id) {
            return Ok(false);
        }
    }
    Ok(true)
}

/// Each element is named that stands a second time, in front of the others, between two of them or behind them.
fn repeats_are_named(
    alloc: Global,
    kind: u8,
    body: &[u8],
    places: &[usize],
    elements: &[&[u8]],
) -> Result<bool> {
    let has_pages = has_pages(kind, elements);
    for element in elements {
        if !is_named_twice(alloc, kind, body, places, element, has_pages)? {
            return Ok(false);
        }
    }
    Ok(true)
}

/// Each octet at that place that is no identifier is an UnknownElement.
fn identifiers_are_named(alloc: Global, kind: u8, octets: &mut [u8], place: usize) -> bool {
    for id in 0..=255u8 {
        if value_size(id, &[0, 0]).is_none() {
            put(octets, place, id);
            if fault_of(alloc, kind, octets) != Some(Named::unknown_element(id)) {
                return false;
            }
        }
    }
    true
}

/// The same in front of the elements, between each two of them and behind them.
fn unknown_elements_are_named(
    alloc: Global,
    kind: u8,
    body: &[u8],
    places: &[usize],
) -> Result<bool> {
    for place in places {
        let mut octets = with_more(alloc, body, *place, &[0])?;
        let is_named = identifiers_are_named(alloc, kind, octets.as_mut_slice(), *place);
        drop(octets);
        if !is_named {
            return Ok(false);
        }
    }
    Ok(true)
}

/// Each octet at that place whose low half is none of the six forms is a BadDiscriminator.
fn forms_are_named(alloc: Global, kind: u8, octets: &mut [u8], place: usize) -> bool {
    for octet in 0..=255u8 {
        if identification_size(octet).is_none() {
            put(octets, place, octet);
            if fault_of(alloc, kind, octets) != Some(Named::bad_discriminator(octet % 16)) {
                return false;
            }
        }
    }
    true
}

/// The same in front of each list of cells or of broadcasts, and in each entry of a failure list.
fn discriminators_are_named(
    alloc: Global,
    kind: u8,
    body: &[u8],
    discriminators: &[usize],
) -> Result<bool> {
    for place in discriminators {
        let mut octets = Vec::from_slice(alloc, body)?;
        let is_named = forms_are_named(alloc, kind, octets.as_mut_slice(), *place);
        drop(octets);
        if !is_named {
            return Ok(false);
        }
    }
    Ok(true)
}

/// The damage to the body of a message whose fault isn't named as the formats name it.
pub fn unnamed_damage(alloc: Global, kind: u8, body: &[u8]) -> Result<Option<&'static str>> {
    let elements = elements_of(alloc, body)?;
    let elements = elements.as_slice();
    let places = places_of(alloc, elements)?;
    if !is_cut_everywhere(alloc, kind, body, elements) {
        return Ok(Some("cut"));
    }
    if !repeats_are_named(alloc, kind, body, places.as_slice(), elements)? {
        return Ok(Some("an element repeated"));
    }
    if !unknown_elements_are_named(alloc, kind, body, places.as_slice())? {
        return Ok(Some("an unknown element"));
    }
    let discriminators = discriminators_of(alloc, elements)?;
    if !discriminators_are_named(alloc, kind, body, discriminators.as_slice())? {
        return Ok(Some("an unknown discriminator"));
    }
    Ok(None)
}
