//! The parts of a body, found by the lengths that the formats' tables give, without the code that reads messages.

use anyhow::{Context, Result};
use std::alloc::Global;

/// The octets of an element's value, if it has that identifier; a list says in its first two how many follow (TS 48.049,
/// 8.2).
pub fn value_size(id: u8, value: &[u8]) -> Option<usize> {
    match (id, value) {
        (0x01, _) => Some(83),
        (0x02 | 0x03 | 0x06 | 0x07 | 0x0e | 0x10, _) => Some(2),
        (0x05 | 0x0b | 0x0c | 0x0d | 0x0f | 0x12 | 0x13 | 0x16 | 0x17, _) => Some(1),
        (0x11, _) => Some(50),
        (0x04 | 0x08 | 0x09, [high, low, ..]) => {
            Some(usize::from(u16::from_be_bytes([*high, *low])).saturating_add(2))
        }
        _ => None,
    }
}

/// The octets of an identification behind that discriminator, if it is of one of the six forms.
pub fn identification_size(discriminator: u8) -> Option<usize> {
    match discriminator % 16 {
        0 => Some(7),
        1 => Some(4),
        2 | 5 => Some(2),
        4 => Some(5),
        6 => Some(0),
        _ => None,
    }
}

/// The identifiers that a message of the type demands, in the order in which one that is missing is named. Those of a
/// WRITE-REPLACE of the emergency form are others.
pub fn demanded(kind: u8, is_emergency: bool) -> &'static [u8] {
    match kind {
        0x01 if is_emergency => &[0x0e, 0x03, 0x04, 0x0f, 0x10, 0x17, 0x11],
        0x01 => &[0x0e, 0x03, 0x04, 0x05, 0x06, 0x07, 0x13, 0x0c, 0x01],
        0x02 => &[0x0e, 0x03],
        0x03 => &[0x0e, 0x03, 0x09],
        0x04 | 0x0a => &[0x0e, 0x02, 0x04],
        0x05 => &[0x0e, 0x02],
        0x06 | 0x0c => &[0x0e, 0x02, 0x09],
        0x0b => &[0x0e, 0x02, 0x08],
        0x13 => &[0x04, 0x16, 0x0d],
        0x14 => &[0x09, 0x16],
        0x15 => &[0x0b],
        _ => &[],
    }
}

/// The elements of the body, each as its octets.
pub fn elements_of(alloc: Global, body: &[u8]) -> Result<Vec<&[u8]>> {
    let mut elements = Vec::new(alloc);
    let mut rest = body;
    for _ in 0..body.len() {
        let [id, value @ ..] = rest else {
            break;
        };
        let size = value_size(*id, value).context("an unknown element")?;
        let (element, after) = rest
            .split_at_checked(size.saturating_add(1))
            .context("an element is cut")?;
        elements.push(element)?;
        rest = after;
    }
    Ok(elements)
}

/// Where the elements begin, and where the last one ends.
pub fn places_of(alloc: Global, elements: &[&[u8]]) -> Result<Vec<usize>> {
    let mut places = Vec::new(alloc);
    let mut place = 0usize;
    places.push(place)?;
    for element in elements {
        place = place.saturating_add(element.len());
        places.push(place)?;
    }
    Ok(places)
}

/// Puts last where the entries of a failure list begin, the first of them at that place.
fn add_entries(discriminators: &mut Vec<usize>, place: usize, list: &[u8]) -> Result<()> {
    let mut at = place;
    let mut rest = list;
    for _ in 0..list.len() {
        let [discriminator, ..] = rest else {
            break;
        };
        let size = identification_size(*discriminator)
            .context("an unknown discriminator")?
            .saturating_add(2);
        let (_, after) = rest.split_at_checked(size).context("an entry is cut")?;
        discriminators.push(at)?;
        at = at.saturating_add(size);
        rest = after;
    }
    Ok(())
}

/// Where the discriminators stand: one in front of each list of cells or of broadcasts, and one in each entry of a failure
/// list.
pub fn discriminators_of(alloc: Global, elements: &[&[u8]]) -> Result<Vec<usize>> {
    let mut discriminators = Vec::new(alloc);
    let mut place = 0usize;
    for element in elements {
        match element {
            [0x04 | 0x08, _, _, _, ..] => discriminators.push(place.saturating_add(3))?,
            [0x09, _, _, entries @ ..] => {
                add_entries(&mut discriminators, place.saturating_add(3), entries)?;
            }
            _ => {}
        }
        place = place.saturating_add(element.len());
    }
    Ok(discriminators)
}
