//! What is read of one line.

ghost use Rattle.std.specs.Prelude.{◌≡◌};
ghost use Rattle.coverage_board.specs.Reading.{stand_of as stand_kept};
ghost use Rattle.kept_tables.specs.Facts.{no_facts, seen_of, stand_of};
ghost use Rattle.mirror.specs.Seen.{seen};

use crate::serial_list::Serials;
use coverage_board::{AreaSet, Stand};
use mirror::{Line, Sight};
use serials::Serial;

/// What the orders and the board's numbers of one BSC, cell and warning depend on. The lists are lent.
#[derive(Drop)]
pub struct LineFacts<'a> {
    pub line: Line,
    /// The warning's message identifier (TS 23.041, 9.4.1.2.2).
    pub message_id: u16,
    /// The serial numbers of its versions, the current one last.
    pub versions: Serials<'a>,
    /// The serial number that is wanted there, if one is.
    pub wanted: Option<Serial>,
    /// The cell is down: its BSC reported that it failed.
    pub down: bool,
    /// Those of the warning's areas that cover the cell.
    pub areas: AreaSet<'a>,
    /// The cell is registered at this BSC.
    pub here: bool,
    /// The warning is active.
    pub active: bool,
}

impl<'a> LineFacts<'a> {
    /// The line of a warning that isn't in the book.
    pub fn none(down: bool, here: bool) -> LineFacts<'a>
        ensures { result ≡ no_facts down here }
    {
        LineFacts {
            line: Line::blank(),
            message_id: 0,
            versions: Serials::none(),
            wanted: None,
            down,
            areas: AreaSet::none(),
            here,
            active: false,
        }
    }

    /// What its orders depend on, with this line, and the cell down or not.
    pub fn sight_with(&self, line: Line, down: bool) -> Sight<'_>
        ensures seen { seen result ≡ seen_of (record self.now { line = line; down = down }) }
        ensures line { result.line ≡ line }
    {
        Sight {
            line,
            message_id: self.message_id,
            versions: self.versions.as_slice(),
            wanted: self.wanted,
            down,
        }
    }

    /// What the board counts of it, with this line, and the cell down or not.
    pub fn stand_with(&self, line: Line, down: bool) -> Stand<'_>
        ensures stand { stand_kept result ≡ stand_of (record self.now { line = line; down = down }) }
        ensures line { result.sight.line ≡ line }
    {
        Stand {
            sight: self.sight_with(line, down),
            areas: self.areas.lent(),
            here: self.here,
            active: self.active,
        }
    }

    /// What the board counts of it.
    pub fn stand(&self) -> Stand<'_>
        ensures stand { stand_kept result ≡ stand_of self.now }
        ensures line { result.sight.line ≡ self.now.line }
    {
        self.stand_with(self.line, self.down)
    }
}
