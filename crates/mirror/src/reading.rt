//! One line among all lines.

ghost use Rattle.std.specs.Prelude.{◌≡◌};
ghost use Rattle.mirror.specs.Index.{line_in};

use crate::line::Line;
use crate::line_key::LineKey;
use crate::lines::Lines;
use crate::warning_slot::WarningSlot;

/// The line of the BSC, the cell and the warning.
#[inline(always)]
pub(crate) fn line_of(lines: &Lines, key: LineKey) -> Line
    ensures { result ≡ line_in lines.now key.bsc key.cell key.warning }
{
    lines.line_of(&WarningSlot::of(key))
}
