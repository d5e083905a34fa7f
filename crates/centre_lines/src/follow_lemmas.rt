//! Lemmas of what is kept after an event, as the contracts of calls that do nothing.

ghost use Rattle.std.specs.Prelude.{◌≡◌, List, ℕ, Option, Some, Ok, true, find, map, nat_eq};
ghost use Rattle.std.specs.Option.{option_map};
ghost use Rattle.common.specs.declared.cell.Cell.{Cell};
ghost use Rattle.coverage_plan.specs.Plan.{State};
ghost use Rattle.kept_tables.specs.Changes.{Begins};
ghost use Rattle.kept_tables.specs.Consistent.{Owned};
ghost use Rattle.common.specs.Order.{each_once};
ghost use Rattle.kept_tables.specs.View.{key_of, key_eq, spot_eq};
ghost use Rattle.kept_tables.specs.declared.spot.Spot.{Spot};
ghost use Rattle.warning_book.specs.Book.{is_so, warning_of};
ghost use Rattle.warning_book.specs.declared.kind.Kind.{Kind};
ghost use Rattle.warning_book.specs.declared.warning.Warning.{Warning};
ghost use Rattle.kept_tables.specs.Tables.{Tables};
ghost use Rattle.mirror.specs.Table.{down_at};
ghost use Rattle.mirror.specs.declared.line_key.LineKey.{LineKey};
ghost use Rattle.centre_events.specs.Down.{is_down};
ghost use Rattle.centre_past.specs.Links.{up_before};
ghost use Rattle.centre_lines.specs.Following.{SameLines, Happens, Bears, change_of, down_after, entry_of, facts_then, flight_before, keys_of};
ghost use Rattle.centre_events.specs.Kept.{IsRegisterOf, AreAreasOf};
ghost use Rattle.centre_past.specs.Facts.{facts};
ghost use Rattle.centre_past.specs.Legal.{Legal};
ghost use Rattle.centre_events.specs.Past.{Past, After};
ghost use Rattle.centre_events.specs.Stepping.{WasLine};
ghost use Rattle.centre_events.specs.Verdict.{verdict};
ghost use Rattle.centre_events.specs.Warnings.{book_of, warnings_of, has_key};
ghost use Rattle.centre_events.specs.declared.entry.Entry.{Entry};
ghost use Rattle.centre_events.specs.declared.settings.Settings.{Settings};
ghost use Rattle.centre_lines.specs.declared.line_before.LineBefore.{LineBefore};

fn owned()
    ensures { (settings : Settings) (past : Past) → Legal settings past → (ws : List Warning) → ((n m s : ℕ) → is_so n (has_key m s) (warnings_of past) ≡ true → option_map (λ w. w.number) (find (has_key m s) ws) ≡ Some n) → Owned (λ m s. option_map (λ w. w.number) (find (has_key m s) ws)) (facts past) }
{}

#[tactic(auto, using(crate::proofs::WasLemmas::was_line))]
fn was_line()
    ensures { (settings : Settings) (past : Past) → Legal settings past → (e : Entry) → verdict settings past e.event ≡ Ok e.answer → (b : ℕ) (c : Cell) (n : ℕ) (w : Warning) → warning_of (book_of (After e past)) n ≡ Some w → WasLine past b c w (facts past (key_of b c n)).line }
{}

fn then_is()
    ensures { (settings : Settings) (past : Past) → Legal settings past → (desk : ℕ) (h : Happens) → verdict settings past h.event ≡ Ok h.answer → h.up ≡ up_before past h.event → h.flight ≡ flight_before past h.event → (p : State) (t : Tables) → IsRegisterOf (After (entry_of desk h) past) p.register → AreAreasOf (After (entry_of desk h) past) p.areas → p.book ≡ book_of (After (entry_of desk h) past) → ((k : Kind) (b : ℕ) (c : Cell) → down_at t.lines k b c ≡ is_down (After (entry_of desk h) past) k b c) → (k : LineKey) → facts_then h p t k (facts past k).line ≡ facts (After (entry_of desk h) past) k }
{}

fn keys_once()
    ensures { (ps : List Spot) (ns : List ℕ) → each_once spot_eq ps ≡ true → each_once nat_eq ns ≡ true → each_once key_eq (keys_of ps ns) ≡ true }
{}

fn begins()
    ensures { (p : State) (t : Tables) (h : Happens) (spots : List Spot) (earlier : List LineBefore) (x : Bears p t h spots earlier) (u : Tables) → SameLines t u → ((k : Kind) (b : ℕ) (c : Cell) → down_at u.lines k b c ≡ down_after h.event h.answer spots k b c (down_at t.lines k b c)) → Begins u (map (change_of h p u) earlier) }
{}
