//! What the areas of one warning cover.

ghost use Rattle.std.specs.Prelude.{◌≡◌, ◌≤◌, length, map, IfOk};
ghost use Rattle.areas.specs.Areas.{selects, selectors_of};
ghost use Rattle.coverage_board.specs.AreaSets.{mask};
ghost use Rattle.centre_lines.specs.Found.{AreOfLac};

use areas::{Areas, Coverage};
use common::{Cell, Name};
use coverage_board::AreaBits;
use std::alloc::{AllocError, Global};
use std::marker::Model;

/// The digits of those of these that cover the cell.
fn digits_of(coverages: &[Coverage<'_>], c: Cell) -> AreaBits
    requires { length coverages.now ≤ 16 }
    ensures { result.bits ≡ mask (λ s. selects s c) coverages.now }
{
    let mut digits = AreaBits::none();
    let mut place = coverages.len();
    while place > 0 {
        place -= 1;
        digits = digits.behind(coverages[place].covers(c));
    }
    digits
}

/// The digits of those of these that cover each cell of the location area. `None` where that may depend on the cell.
fn digits_of_lac(coverages: &[Coverage<'_>], lac: u16) -> Option<AreaBits>
    requires { length coverages.now ≤ 16 }
    ensures { AreOfLac coverages.now lac result }
{
    let mut digits = AreaBits::none();
    let mut place = coverages.len();
    while place > 0 {
        place -= 1;
        let covers = coverages[place].covers_lac(lac)?;
        digits = digits.behind(covers);
    }
    Some(digits)
}

/// Which areas cover each cell of a location area, if that does not depend on the cell.
#[derive(Clone, Copy)]
struct LacDigits {
    lac: u16,
    digits: Option<AreaBits>,
}

/// What is known of the location area. It was mostly found for the cell before.
#[inline(always)]
fn known_of(coverages: &[Coverage<'_>], lac: u16, last: LacDigits) -> LacDigits
    requires few { length coverages.now ≤ 16 }
    requires last { AreOfLac coverages.now last.lac last.digits }
    ensures lac { result.lac ≡ lac }
    ensures digits { AreOfLac coverages.now result.lac result.digits }
{
    if last.lac == lac {
        return last;
    }
    LacDigits {
        lac,
        digits: digits_of_lac(coverages, lac),
    }
}

/// What each of up to sixteen areas covers, and what was found of the location area that was asked for last.
#[derive(Drop)]
pub(crate) struct Coverages<'a> {
    coverages: Vec<Coverage<'a>>,
    last: LacDigits,
}

impl<'a> Model for Coverages<'a> {
    ghost use Rattle.std.specs.Prelude.{◌≤◌, List, length};
    ghost use Rattle.areas.specs.declared.selector.Selector.{Selector};
    ghost use Rattle.centre_lines.specs.Found.{AreOfLac};

    ghost Value = { List (List Selector) };

    ghost view = { λ t. t.coverages.items };

    ghost invariant = { λ t. record { few : length t.coverages.items ≤ 16; last : AreOfLac t.coverages.items t.last.lac t.last.digits } };
}

impl<'a> Coverages<'a> {
    /// What each of the areas of these names covers.
    pub(crate) fn of(
        alloc: Global,
        areas: &'a Areas,
        names: &[Name],
    ) -> Result<Coverages<'a>, AllocError>
        requires { length names.now ≤ 16 }
        ensures { IfOk result (λ v. v ≡ map (selectors_of areas.now) names.now) }
    {
        let mut coverages = Vec::with_capacity(alloc, names.len())?;
        for name in names {
            coverages.push(areas.coverage(name))?;
        }
        Ok(Coverages {
            coverages,
            last: LacDigits {
                lac: 0,
                digits: None,
            },
        })
    }

    /// The digits of those of the areas that cover the cell.
    #[inline(always)]
    pub(crate) fn digits(&mut self, c: Cell) -> AreaBits
        ensures digits { result.bits ≡ mask (λ s. selects s c) self.old }
        ensures same { self.new ≡ self.old }
    {
        self.last = known_of(&self.coverages, c.lac, self.last);
        match self.last.digits {
            Some(digits) => digits,
            None => digits_of(&self.coverages, c),
        }
    }
}
