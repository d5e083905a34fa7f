//! What follows from the definitions. The function does nothing, and its contract holds of all lines.

ghost use Rattle.std.specs.Prelude.{◌≡◌, ℕ, List, drop};
ghost use Rattle.console_text.specs.Words.{words_of};
ghost use Rattle.server_lines.specs.Rest.{behind_words};

/// Lemma: behind so many words of a line stand its other words.
#[tactic(auto, using(crate::proofs::RestLemmas::words_behind))]
pub fn other_words_stand_behind()
    ensures { (count : ℕ) (line : List ℕ) → words_of (behind_words count line) ≡ drop count (words_of line) }
{}
