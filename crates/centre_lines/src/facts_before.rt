//! What is read of one line before an edit.

ghost use Rattle.std.specs.Prelude.{◌≡◌, Some, IfSome};
ghost use Rattle.coverage_board.specs.AreaSets.{AreDigits, names_at};
ghost use Rattle.centre_lines.specs.Found.{facts_before};
ghost use Rattle.kept_tables.specs.Facts.{no_facts};

use crate::facts::wanted;
use crate::line_in_cell::LineInCell;
use crate::warning_before::WarningBefore;
use coverage_board::{AreaBits, AreaSet};
use kept_tables::{LineFacts, Serials};
use mirror::Line;
use std::marker::Model;

/// What is read of a line before an edit bears on it. The edit may change the warning, so that what is read of it is kept, in a
/// place that its lines share. Contracts see what is read.
#[derive(Drop)]
pub struct FactsBefore {
    line: Line,
    down: bool,
    here: bool,
    /// Those of the warning's areas that cover the cell.
    bits: AreaBits,
    /// `None` where the book doesn't have it.
    warning: Option<WarningBefore>,
}

impl Model for FactsBefore {
    ghost use Rattle.std.specs.Prelude.{IfSome};
    ghost use Rattle.coverage_board.specs.AreaSets.{AreDigits};
    ghost use Rattle.centre_lines.specs.Found.{facts_before};
    ghost use Rattle.kept_tables.specs.declared.line_facts.LineFacts.{LineFacts};

    ghost Value = { LineFacts };

    ghost view = { λ s. facts_before s.line s.down s.here s.bits.bits s.warning };

    ghost invariant = { λ s. IfSome s.warning (λ w. AreDigits s.bits.bits w.areas) };
}

impl FactsBefore {
    /// The line of a warning that isn't in the book.
    pub(crate) fn none(down: bool, here: bool) -> FactsBefore
        ensures { result ≡ no_facts down here }
    {
        FactsBefore {
            line: Line::blank(),
            down,
            here,
            bits: AreaBits::none(),
            warning: None,
        }
    }

    /// The line of a warning, of which the areas with these digits cover the cell.
    pub(crate) fn of(
        there: &LineInCell,
        here: bool,
        bits: AreaBits,
        warning: WarningBefore,
    ) -> FactsBefore
        requires { AreDigits bits.bits warning.areas }
        ensures { result ≡ facts_before there.now.line there.now.down here bits.bits (Some warning) }
    {
        FactsBefore {
            line: there.line,
            down: there.down,
            here,
            bits,
            warning: Some(warning),
        }
    }

    /// What was kept of the line.
    pub(crate) fn line(&self) -> Line
        ensures { result ≡ self.now.line }
    {
        self.line
    }

    /// Those of the warning's areas that covered the cell.
    pub(crate) fn areas(&self) -> AreaSet<'_>
        ensures { result ≡ self.now.areas }
    {
        match &self.warning {
            Some(warning) => AreaSet::of(warning.areas(), self.bits),
            None => AreaSet::none(),
        }
    }

    /// What was read of the line.
    #[inline(always)]
    pub(crate) fn facts(&self) -> LineFacts<'_>
        ensures { result ≡ self.now }
    {
        let Some(warning) = &self.warning else {
            return LineFacts {
                line: self.line,
                ..LineFacts::none(self.down, self.here)
            };
        };
        let areas = self.areas();
        let wanted = wanted(
            warning.is_active(),
            self.here,
            areas.is_some(),
            warning.serial(),
        );
        LineFacts {
            line: self.line,
            message_id: warning.message_id(),
            versions: Serials::of(warning.serials()),
            wanted,
            down: self.down,
            areas,
            here: self.here,
            active: warning.is_active(),
        }
    }
}
