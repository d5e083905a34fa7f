//! What is kept of one message in one cell.

ghost use Rattle.std.specs.Prelude.{◌≡◌};
ghost use Rattle.mirror.specs.Blank.{state_eq};
ghost use Rattle.mirror.specs.Line.{blank};

use crate::presence::Presence;
use cbsp_ie::Cause;

/// What is kept of one version of a warning in one cell of a BSC.
#[derive(Clone, Copy, Debug, PartialEq, Eq)]
pub struct KeyState {
    pub presence: Presence,
    /// Why nothing more is ordered for it: the cause with which its BSC refused the last order (TS 48.049, 8.2.13).
    pub hold: Option<Cause>,
    /// How often it was broadcast, as the BSC reported last (TS 48.049, 8.2.10).
    pub count: u16,
}

impl KeyState {
    /// Absent, held by nothing and never broadcast: as each key begins.
    pub fn blank() -> KeyState
        ensures { result ≡ blank }
    {
        KeyState {
            presence: Presence::Absent,
            hold: None,
            count: 0,
        }
    }

    /// Whether the same is kept in both.
    pub fn same(&self, other: &KeyState) -> bool
        ensures { result ≡ state_eq self.now other.now }
    {
        self.presence == other.presence && self.hold == other.hold && self.count == other.count
    }
}
