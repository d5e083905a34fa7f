//! Lemmas of the lines on which an event does not bear, as the contracts of calls that do nothing.

ghost use Rattle.std.specs.Prelude.{◌≡◌, ◌≤◌, ℕ, false, Some, Ok, length};
ghost use Rattle.kept_tables.specs.Same.{SamePart};
ghost use Rattle.mirror.specs.declared.line_key.LineKey.{LineKey};
ghost use Rattle.centre_past.specs.Facts.{facts};
ghost use Rattle.centre_events.specs.InFlight.{in_flight};
ghost use Rattle.centre_past.specs.Legal.{Legal};
ghost use Rattle.centre_events.specs.Past.{Past, After};
ghost use Rattle.centre_past.specs.Reach.{bears, reach_of, numbers_where};
ghost use Rattle.centre_events.specs.Reported.{names_warning};
ghost use Rattle.centre_events.specs.Verdict.{verdict};
ghost use Rattle.centre_events.specs.declared.entry.Entry.{Entry};
ghost use Rattle.centre_events.specs.declared.in_flight.InFlight.{InFlight};
ghost use Rattle.centre_events.specs.declared.settings.Settings.{Settings};

#[tactic(auto, using(crate::proofs::OutsideLemmas::outside))]
fn outside()
    ensures { (settings : Settings) (past : Past) → Legal settings past → (e : Entry) → verdict settings past e.event ≡ Ok e.answer → (k : LineKey) → bears (reach_of past e.event e.answer) k ≡ false → SamePart (facts past k) (facts (After e past) k) }
{}

#[tactic(auto, using(crate::proofs::NamingLemmas::reach_counts))]
fn reach_counts()
    ensures { (settings : Settings) (past : Past) → Legal settings past → (b : ℕ) (f : InFlight) → in_flight past b ≡ Some f → length (numbers_where past (names_warning f)) ≤ 1 }
{}
