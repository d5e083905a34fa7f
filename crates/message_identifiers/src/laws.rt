//! What follows from the definitions. The functions do nothing, and their contracts hold of all numbers.

ghost use Rattle.std.specs.Prelude.{◌≡◌, ◌≢◌, ◌≤◌, ℕ, List, [], Some, AllPairs, Contains, map};
ghost use Rattle.message_identifiers.specs.Lookups.{name_of, number_of};
ghost use Rattle.message_identifiers.specs.Nearness.{closest, distance, near_numbers, text_numbers};
ghost use Rattle.message_identifiers.specs.Table.{Row, table};

/// Lemma: no number stands twice in the table, and no name.
pub fn rows_are_distinct()
    ensures numbers { AllPairs (λ a b. a ≢ b) (map (λ (r : Row). r.number) table) }
    ensures names { AllPairs (λ a b. a ≢ b) (map (λ (r : Row). r.name) table) }
{}

/// Lemma: the name of a number stands for that number.
pub fn each_name_is_read_as_its_number()
    ensures { (n : ℕ) (name : List ℕ) → name_of n ≡ Some name → number_of name ≡ Some n }
{}

/// Lemma: where no text identifier differs in one digit, none is closer than the one that is taken as the closest.
pub fn none_is_closer()
    ensures { (n k : ℕ) → near_numbers n ≡ [] → Contains text_numbers k → distance n (closest n) ≤ distance n k }
{}
