//! A warning in a survey.

use crate::numbered_areas::NumberedAreas;
use centre_past::lists::WarningSheet;

/// A warning in the book with its content, and the numbers of each of its areas.
#[derive(Drop)]
pub struct SurveyedWarning {
    pub sheet: WarningSheet,
    pub areas: NumberedAreas,
}
