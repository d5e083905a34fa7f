//! What no clause says of elements: which cells an identification names, and the octets of elements that no message has.

ghost use Rattle.std.specs.Prelude.{IsTrue};
ghost use Rattle.cbsp_ie.specs.Written.{FitsElement};

use crate::values::yes;
use cbsp_ie::{CellId, Element, read_element, write_element};
use common::Cell;
use std::alloc::Global;
use std::process::Abort;

const OWN: [u8; 3] = [0x00, 0xf1, 0x10];

const OTHER: [u8; 3] = [0x00, 0xf1, 0x20];

/// Two identifications with a network, and four without.
const GLOBAL: CellId = CellId::Global {
    plmn: OWN,
    lac: 100,
    ci: 7,
};

const LAI: CellId = CellId::Lai {
    plmn: OWN,
    lac: 100,
};

const LAC_CI: CellId = CellId::LacCi { lac: 100, ci: 7 };

const LAC: CellId = CellId::Lac { lac: 100 };

const CI: CellId = CellId::Ci { ci: 7 };

const ALL: CellId = CellId::All;

/// An identification, the network in which it is sent, the codes of a cell, and whether it names the cell. A cell identity
/// names the cell in every location area.
const ROWS: [(CellId, [u8; 3], u16, u16, bool); 17] = [
    (GLOBAL, OWN, 100, 7, true),
    (GLOBAL, OTHER, 100, 7, false),
    (GLOBAL, OWN, 200, 7, false),
    (GLOBAL, OWN, 100, 8, false),
    (LAI, OWN, 100, 7, true),
    (LAI, OWN, 100, 8, true),
    (LAI, OWN, 200, 7, false),
    (LAI, OTHER, 100, 7, false),
    (LAC_CI, OWN, 100, 7, true),
    (LAC_CI, OTHER, 100, 7, true),
    (LAC_CI, OWN, 7, 100, false),
    (CI, OWN, 100, 7, true),
    (CI, OWN, 200, 7, true),
    (CI, OWN, 7, 100, false),
    (LAC, OWN, 100, 7, true),
    (LAC, OWN, 7, 100, false),
    (ALL, OTHER, 0, 65535, true),
];

#[test]
fn an_identification_names_its_cells(rt: HostRuntime) {
    for (id, plmn, lac, ci, want) in &ROWS {
        let cell = Cell { lac: *lac, ci: *ci };
        let names = id.names(*plmn, cell);
        yes(&rt, names == *want, "an identification and a cell");
    }
}

/// Whether two octets can say the length of the element, where it is a list.
fn fits(element: &Element<'_>) -> bool
    ensures { IsTrue result → FitsElement element.now }
{
    match element {
        Element::CellList(cells) => cells.octets_len() < 65536,
        Element::BroadcastsCompleted(counts) => counts.octets_len() < 65536,
        Element::FailureList(failures) => failures.octets_len() < 65536,
        _ => true,
    }
}

/// Reads the element, and writes the same octets again.
fn is_encoded(rt: &impl Abort, alloc: Global, octets: &[u8]) {
    let (element, size) = read_element(octets).expect(rt, "the element is read");
    yes(rt, size == octets.len(), "the length of an element");
    yes(rt, fits(&element), "an element fits");
    let mut out = Vec::new(alloc);
    write_element(&mut out, &element).expect(rt, "memory");
    yes(rt, out.as_slice() == octets, "the octets of an element");
}

const SECURITY: [u8; 51] = [
    0x11, 0xa5, 0xa5, 0xa5, 0xa5, 0xa5, 0xa5, 0xa5, 0xa5, 0xa5, 0xa5, 0xa5, 0xa5, 0xa5, 0xa5, 0xa5,
    0xa5, 0xa5, 0xa5, 0xa5, 0xa5, 0xa5, 0xa5, 0xa5, 0xa5, 0xa5, 0xa5, 0xa5, 0xa5, 0xa5, 0xa5, 0xa5,
    0xa5, 0xa5, 0xa5, 0xa5, 0xa5, 0xa5, 0xa5, 0xa5, 0xa5, 0xa5, 0xa5, 0xa5, 0xa5, 0xa5, 0xa5, 0xa5,
    0xa5, 0xa5, 0xa5,
];

/// One element of each kind that is lent but a page, and of each that no message has.
const ELEMENTS: [&[u8]; 7] = [
    &[0x04, 0x00, 0x05, 0x01, 0x00, 0x64, 0x00, 0x07],
    &[
        0x08, 0x00, 0x08, 0x01, 0x00, 0x64, 0x00, 0x07, 0x00, 0x0c, 0x01,
    ],
    &[
        0x09, 0x00, 0x0a, 0x01, 0x00, 0x64, 0x00, 0x07, 0x06, 0x02, 0x00, 0x08, 0x03,
    ],
    &[0x0f, 0x01],
    &[0x10, 0x05, 0x80],
    &SECURITY,
    &[0x17, 0x14],
];

#[test]
fn elements_are_encoded(rt: HostRuntime) {
    for octets in &ELEMENTS {
        is_encoded(&rt, rt.alloc(), octets);
    }
}
