//! Values that the tests of several libraries are given, and what they demand of values.

ghost use Rattle.std.specs.Prelude.{IsTrue};

use cell_register::BscId;
use common::{Name, Names, Octets};
use std::alloc::Global;
use std::process::Abort;
use warning_book::{Category, CbsContent, Content, ContentPages};

/// The value found is the one that is wanted. The words say where.
pub(crate) fn same<T: PartialEq>(rt: &impl Abort, found: &T, want: &T, at: &str) {
    assert!(rt; found == want, "{at}");
}

/// This holds. The words say where.
pub(crate) fn yes(rt: &impl Abort, holds: bool, at: &str)
    ensures { IsTrue holds }
{
    assert!(rt; holds, "{at}");
}

/// The BSC of that number.
pub(crate) fn bsc(rt: &impl Abort, number: u16) -> BscId {
    BscId::new(number).expect(rt, "the number is a BSC's")
}

pub(crate) fn name(rt: &impl Abort, alloc: Global, octets: &[u8]) -> Name {
    Name::from_vec(Vec::from_slice(alloc, octets).expect(rt, "memory"))
}

/// Names of these octets, in this order.
pub(crate) fn names(rt: &impl Abort, alloc: Global, all: &[&[u8]]) -> Names {
    let mut names = Vec::new(alloc);
    for octets in all {
        names.push(name(rt, alloc, octets)).expect(rt, "memory");
    }
    Names::from_vec(names)
}

/// A content of one page, which has these octets.
pub(crate) fn content(rt: &impl Abort, alloc: Global, octets: &[u8]) -> Content {
    let page = Octets::from_vec(Vec::from_slice(alloc, octets).expect(rt, "memory"));
    let mut pages = Vec::new(alloc);
    pages.push(page).expect(rt, "memory");
    Content::Cbs(CbsContent {
        dcs: 0x0f,
        category: Category::HighPriority,
        period: 10,
        pages: ContentPages::from_vec(pages),
    })
}
