//! What is kept of the link of one BSC.

use crate::up_or_down::UpOrDown;
use cell_register::BscId;
use common::Ordered;

/// The link of the BSC: its generation, which is the number of the entry that brought the latest one up, and 0 where there
/// was none since the BSC was registered; and whether it is up, with what is in flight over it.
#[derive(Drop)]
pub struct Link {
    pub bsc: BscId,
    pub generation: u64,
    pub state: UpOrDown,
}

impl Ordered for Link {
    ghost use Rattle.centre_past.specs.Links.{link_lt};

    ghost before = { link_lt };

    fn is_before(&self, other: &Link) -> bool {
        self.bsc.is_before(&other.bsc)
    }
}
