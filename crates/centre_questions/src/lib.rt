//! What can be asked of a centre, and the one function that asks it; and a survey of a whole centre.
//!
//! Begin with `question` and `asking`, then `survey` and `surveying`. What a question is answered after a past is defined in
//! `specs/Questions.antt`, and what a survey shows in `specs/Surveys.antt`.
#![tactic(auto)]

mod area_numbers;
pub mod asking;
mod numbered_areas;
pub mod question;
pub mod seen_value;
pub mod survey;
mod surveyed_warning;
mod surveyed_warnings;
pub mod surveying;

pub use area_numbers::AreaNumbers;
pub use numbered_areas::NumberedAreas;
pub use surveyed_warning::SurveyedWarning;
pub use surveyed_warnings::SurveyedWarnings;
