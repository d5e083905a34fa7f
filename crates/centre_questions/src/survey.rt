//! What a whole centre is asked at once.

use crate::surveyed_warnings::SurveyedWarnings;
use centre_past::lists::{BscRows, CentreStatus};

/// How a centre stands, its BSCs and its warnings, all at one moment. Of a stale centre there are neither.
#[derive(Drop)]
pub struct Survey {
    pub status: CentreStatus,
    pub bscs: BscRows,
    pub warnings: SurveyedWarnings,
}
