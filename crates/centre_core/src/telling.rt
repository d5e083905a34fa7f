//! Lemmas that a list of a centre calls where it needs what they say: a call returns nothing, and its clause says what holds.

ghost use Rattle.std.specs.Prelude.{◌≡◌, ℕ, List, None, Some, true, IsSome};
ghost use Rattle.areas.specs.Areas.{has_area};
ghost use Rattle.areas.specs.declared.area.Area.{Area};
ghost use Rattle.common.specs.Order.{is_ascending};
ghost use Rattle.centre_answers.specs.Asked.{Tells};
ghost use Rattle.centre_events.specs.Cover.{is_area};
ghost use Rattle.centre_events.specs.Kept.{AreAreasOf};
ghost use Rattle.centre_events.specs.Past.{Past};
ghost use Rattle.centre_events.specs.declared.settings.Settings.{Settings};
ghost use Rattle.centre_past.specs.Alike.{SaysTheSame};
ghost use Rattle.centre_past.specs.IsKept.{IsKept};
ghost use Rattle.centre_past.specs.Legal.{Legal};
ghost use Rattle.centre_past.specs.Lists.{failed_of, sheet_of, warning_lt, warning_rows};
ghost use Rattle.centre_past.specs.Numbers.{board};
ghost use Rattle.centre_past.specs.declared.kept.Kept.{Kept};
ghost use Rattle.coverage_board.specs.declared.numbers.Numbers.{Numbers};

/// A lemma, not a test: the tables that are kept tell what a legal past says.
#[tactic(auto, using(crate::proofs::ListingLemmas::kept_tells))]
pub(crate) fn tell_tables()
    ensures { (settings : Settings) (past : Past) (s : Kept) → Legal settings past → IsKept past s → Tells past s.tables }
{}

/// A lemma, not a test: the areas that are kept of one past are those of another that says the same.
#[tactic(auto, using(crate::proofs::ListingLemmas::area_kept))]
pub(crate) fn tell_areas()
    ensures { (p q : Past) (l : List Area) (a : List ℕ) → SaysTheSame p q → AreAreasOf q l → has_area l a ≡ is_area p a }
{}

/// A lemma, not a test: the warnings of a legal past are listed in the order of their numbers.
#[tactic(auto, using(centre_past::proofs::ListLemmas::warnings_ordered))]
pub(crate) fn tell_order()
    ensures { (settings : Settings) (past : Past) → Legal settings past → is_ascending warning_lt (warning_rows past) ≡ true }
{}

/// A lemma, not a test: a warning that has numbers has a sheet and a list of failures, and one without numbers has neither.
#[tactic(auto, using(crate::proofs::ListingLemmas::sheet_there, crate::proofs::ListingLemmas::failed_there, crate::proofs::ListingLemmas::no_sheet, crate::proofs::ListingLemmas::none_failed))]
pub(crate) fn tell_listed()
    ensures sheet { (past : Past) (n : ℕ) (x : Numbers) → board past n ≡ Some x → IsSome (sheet_of past n) }
    ensures failed { (past : Past) (n : ℕ) (x : Numbers) → board past n ≡ Some x → IsSome (failed_of past n) }
    ensures no_sheet { (past : Past) (n : ℕ) → board past n ≡ None → sheet_of past n ≡ None }
    ensures none_failed { (past : Past) (n : ℕ) → board past n ≡ None → failed_of past n ≡ None }
{}
