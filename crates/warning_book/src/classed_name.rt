//! A name with its class.

ghost use Rattle.std.specs.Prelude.{◌≡◌, ◌<◌};
ghost use Rattle.warning_book.specs.Classes.{class_of};

use crate::classes::class_of;
use common::Name;

/// A name and its class, which is so found once.
#[derive(Clone, Copy)]
pub(crate) struct ClassedName<'a> {
    pub(crate) name: &'a Name,
    pub(crate) class: u32,
    ghost classed: { class ≡ class_of name.now },
    ghost bound: { class < 128 },
}

impl<'a> ClassedName<'a> {
    pub(crate) fn of(name: &'a Name) -> ClassedName<'a>
        ensures { result.name.now ≡ name.now }
    {
        ClassedName {
            name,
            class: class_of(name),
        }
    }
}
