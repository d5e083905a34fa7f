//! A selector as a key.

ghost use Rattle.std.specs.Prelude.{◌≡◌};
ghost use Rattle.areas.specs.Holders.{key_of};

use crate::selector::Selector;

/// A location area, and the identity of the cell in it, or `None` for the whole of it.
#[derive(Clone, Copy, Debug, PartialEq, Eq, PartialOrd, Ord)]
pub(crate) struct SelectorKey {
    pub(crate) lac: u16,
    pub(crate) ci: Option<u16>,
}

impl SelectorKey {
    pub(crate) fn of(s: Selector) -> SelectorKey
        ensures { result ≡ key_of s }
    {
        match s {
            Selector::Cell(cell) => SelectorKey {
                lac: cell.lac,
                ci: Some(cell.ci),
            },
            Selector::Lac(lac) => SelectorKey { lac, ci: None },
        }
    }
}
