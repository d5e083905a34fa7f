//! Which version at which BSC.

use cell_register::BscId;
use serials::Serial;
use warning_book::WarningId;

/// A BSC, and a version of a warning, by its serial number.
#[derive(Clone, Copy, Debug)]
pub(crate) struct VersionAt {
    pub bsc: BscId,
    pub warning: WarningId,
    pub serial: Serial,
}
