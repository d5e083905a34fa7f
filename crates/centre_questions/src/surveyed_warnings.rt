//! The warnings in a survey.

ghost use Rattle.std.specs.Prelude.{◌≡◌};

use crate::surveyed_warning::SurveyedWarning;
use std::marker::Model;

/// Warnings by their numbers.
#[derive(Drop)]
pub struct SurveyedWarnings {
    rows: Vec<SurveyedWarning>,
}

impl Model for SurveyedWarnings {
    ghost use Rattle.std.specs.Prelude.{List};
    ghost use Rattle.centre_questions.specs.declared.surveyed_warning.SurveyedWarning.{SurveyedWarning};

    ghost Value = { List SurveyedWarning };

    ghost view = { λ s. s.rows.items };
}

impl SurveyedWarnings {
    /// The rows of the vector, which is moved.
    pub fn from_vec(rows: Vec<SurveyedWarning>) -> SurveyedWarnings
        ensures { result ≡ rows.items }
    {
        SurveyedWarnings { rows }
    }

    pub fn as_slice(&self) -> &[SurveyedWarning]
        ensures { result.now ≡ self.now }
    {
        &self.rows
    }

    /// The rows as a vector, which is moved and not copied.
    pub fn into_vec(self) -> Vec<SurveyedWarning>
        ensures { result.items ≡ self }
    {
        let SurveyedWarnings { rows } = self;
        rows
    }
}
