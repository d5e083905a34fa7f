//! What one area covers.

use crate::area::Area;
use crate::lookups::{place_of, selects};
use crate::selector::Selector;
use crate::share::Share;
use crate::shares::Shares;
use common::{Cell, Name};
use std::marker::Model;

/// The selectors of one area, found once, so that many cells can be asked for without a look for the area in each. What is
/// told of a cell's location area mostly decides without a search.
#[derive(Drop)]
pub struct Coverage<'a> {
    selectors: &'a [Selector],
    shares: Option<&'a Shares>,
}

impl<'a> Model for Coverage<'a> {
    ghost use Rattle.std.specs.Prelude.{List};
    ghost use Rattle.std.specs.Option.{option_copied};
    ghost use Rattle.areas.specs.Shares.{IsCoverage};
    ghost use Rattle.areas.specs.declared.selector.Selector.{Selector};

    ghost Value = { List Selector };

    ghost view = { λ c. c.selectors.now };

    ghost invariant = { λ c. IsCoverage c.selectors.now (option_copied c.shares) };
}

impl<'a> Coverage<'a> {
    ghost use Rattle.std.specs.Prelude.{◌≡◌, List, ℕ, true, IfSome};
    ghost use Rattle.common.specs.Order.{is_ascending};
    ghost use Rattle.common.specs.declared.cell.Cell.{Cell};
    ghost use Rattle.areas.specs.Areas.{named_lt, selects, selectors_of};
    ghost use Rattle.areas.specs.Selector.{selector_lt};
    ghost use Rattle.areas.specs.Shares.{tells};

    /// What the area covers; nothing where there is no such area.
    pub(crate) fn of(areas: &'a [Area], a: &Name) -> Coverage<'a>
        requires ascending { is_ascending named_lt areas.now ≡ true }
        requires ordered { (a : List ℕ) → is_ascending selector_lt (selectors_of areas.now a) ≡ true }
        ensures { result ≡ selectors_of areas.now a.now }
    {
        let place = place_of(areas, a);
        if place < areas.len() {
            let selectors = &areas[place].selectors;
            Coverage {
                selectors: selectors.as_slice(),
                shares: selectors.shares(),
            }
        } else {
            Coverage {
                selectors: &[],
                shares: None,
            }
        }
    }

    /// What is told of the location area.
    fn share(&self, lac: u16) -> Share
        ensures { tells self.now lac result ≡ true }
    {
        match self.shares {
            Some(shares) => shares.share(lac),
            None => Share::From { place: 0 },
        }
    }

    /// Whether the area covers each cell of the location area, or none of them. `None` where that may depend on the cell.
    pub fn covers_lac(&self, lac: u16) -> Option<bool>
        ensures { IfSome result (λ covers. (c : Cell) → c.lac ≡ lac → covers ≡ selects self.now c) }
    {
        match self.share(lac) {
            Share::Nothing => Some(false),
            Share::All => Some(true),
            Share::From { place: _ } => None,
        }
    }

    /// Whether the area covers the cell.
    pub fn covers(&self, c: Cell) -> bool
        ensures { result ≡ selects self.now c }
    {
        match self.share(c.lac) {
            Share::Nothing => false,
            Share::All => true,
            Share::From { place } => selects(&self.selectors[usize::from(place)..], c),
        }
    }
}
