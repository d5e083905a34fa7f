//! Why a cell counts as failed.

use cbsp_ie::Cause;

/// Why a warning that is wanted in a cell isn't on air there, nor awaited.
#[derive(Clone, Copy, Debug, PartialEq, Eq)]
pub enum Failure {
    /// The cell is down for warnings of this kind (TS 48.049, 8.1.3).
    Down,
    /// The BSC refused the order for this cause (TS 48.049, 8.2.13).
    Refused(Cause),
}
