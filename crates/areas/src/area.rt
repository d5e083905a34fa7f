//! A named area.

use crate::naming::is_before;
use crate::selectors::Selectors;
use common::{Name, Ordered};

/// An area: its name, and what it selects.
#[derive(Clone, Debug, PartialEq, Eq, Drop)]
pub struct Area {
    pub name: Name,
    pub selectors: Selectors,
}

impl Ordered for Area {
    ghost use Rattle.areas.specs.Areas.{named_lt};

    ghost before = { named_lt };

    fn is_before(&self, other: &Area) -> bool {
        is_before(&self.name, &other.name)
    }
}
