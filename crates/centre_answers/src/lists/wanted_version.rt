//! The version of a warning that is wanted where the warning's areas cover a cell.

use areas::Coverage;
use serials::Serial;
use warning_book::Warning;

/// A warning, the serial number of the version that is wanted, and what each of the warning's areas covers.
#[derive(Clone, Copy)]
pub(crate) struct WantedVersion<'a, 'b> {
    pub(crate) warning: &'a Warning,
    pub(crate) serial: Serial,
    pub(crate) coverages: &'a [Coverage<'b>],
}
