//! What follows of the survey that a picture is made of. The function does nothing, and its contract holds.

ghost use Rattle.office_picture.specs.Laws.{SurveyHasAll};

/// No warning is left out of a survey of a centre that isn't stale, and no area of a warning: it shows each warning in the book
/// once, in the order of the book, with its content, and each of its areas, in their order, with its numbers.
#[tactic(auto, using(crate::proofs::SurveyLemmas::survey_has_all))]
pub fn survey_has_all()
    ensures { SurveyHasAll }
{}
