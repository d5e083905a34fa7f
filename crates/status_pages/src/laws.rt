//! What follows from the definitions. The functions do nothing, and their contracts hold of all texts.

ghost use Rattle.status_pages.specs.Laws.{EscapedHasNoMarkup, EscapedIsReadBack, EscapedTurnsNothing};

/// No text of a warning and no name of an area can begin or end a markup of the page.
#[tactic(auto, using(crate::proofs::EscapeLemmas::escaped_has_no_markup))]
pub fn escaped_has_no_markup()
    ensures { EscapedHasNoMarkup }
{}

/// No text of a warning and no name of an area can turn the direction of what stands around it.
#[tactic(auto, using(crate::proofs::TurnLemmas::escaped_turns_nothing))]
pub fn escaped_turns_nothing()
    ensures { EscapedTurnsNothing }
{}

/// A browser reads the text itself, with blanks for control letters of one octet and the numbers of letters that turn the direction of
/// text.
#[tactic(auto, using(crate::proofs::EscapeLemmas::escaped_is_read_back))]
pub fn escaped_is_read_back()
    ensures { EscapedIsReadBack }
{}
