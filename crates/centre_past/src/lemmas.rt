//! Lemmas of the state that a centre keeps, as the contracts of calls that do nothing.

ghost use Rattle.std.specs.Prelude.{◌≡◌, List, ℕ, ◌+◌, Bool, Option, Some, true, length, map};
ghost use Rattle.std.specs.List.{list_any};
ghost use Rattle.areas.specs.declared.area.Area.{Area};
ghost use Rattle.cell_register.specs.Register.{State};
ghost use Rattle.common.specs.declared.cell.Cell.{Cell};
ghost use Rattle.mirror.specs.Line.{state_of};
ghost use Rattle.mirror.specs.declared.line.Line.{Line};
ghost use Rattle.warning_book.specs.Book.{warning_of};
ghost use Rattle.warning_book.specs.declared.warning.Warning.{Warning};
ghost use Rattle.centre_events.specs.Counts.{count_at};
ghost use Rattle.centre_events.specs.Down.{is_down};
ghost use Rattle.centre_events.specs.Facts.{IsLineOf, key_state, line_of};
ghost use Rattle.centre_past.specs.Facts.{facts_of};
ghost use Rattle.centre_past.specs.Legal.{Legal};
ghost use Rattle.centre_past.specs.Lists.{failed_rows};
ghost use Rattle.centre_past.specs.Numbers.{number};
ghost use Rattle.coverage_board.specs.declared.way.Way.TheVariants as way;
ghost use Rattle.centre_events.specs.Kept.{IsRegisterOf, AreAreasOf};
ghost use Rattle.centre_events.specs.Past.{Past, After, position};
ghost use Rattle.centre_events.specs.Presence.{effect_at};
ghost use Rattle.centre_events.specs.Warnings.{book_of, is_version, kind_in};
ghost use Rattle.centre_events.specs.Stepping.{stepped, updates_once, WasLine};
ghost use Rattle.centre_past.specs.Links.{AreLinksOf, links_after};
ghost use Rattle.centre_past.specs.State.{facts_from};
ghost use Rattle.centre_events.specs.declared.entry.Entry.{Entry};
ghost use Rattle.centre_events.specs.declared.settings.Settings.{Settings};
ghost use Rattle.centre_past.specs.declared.link.Link.{Link};

#[tactic(auto, using(crate::proofs::LinkLemmas::links_with))]
fn links_with()
    ensures { (settings : Settings) (e : Entry) (before : Past) (ls : List Link) → Legal settings (After e before) → AreLinksOf before ls → AreLinksOf (After e before) (links_after e.event e.answer (position before + 1) ls) }
{}

#[tactic(auto, using(crate::proofs::FactsLemmas::facts_same))]
fn facts_same()
    ensures { (past : Past) (r : State) (l : List Area) (down : Bool) (b : ℕ) (c : Cell) (line : Line) (o : Option Warning) → IsRegisterOf past r → AreAreasOf past l → down ≡ is_down past (kind_in o) b c → IsLineOf past b c line o → facts_from r l down b c line o ≡ facts_of past b c o }
{}

#[tactic(auto, using(crate::proofs::StepLemmas::line_after))]
fn line_after()
    ensures { (e : Entry) (past : Past) (b : ℕ) (c : Cell) (w : Warning) (line : Line) → updates_once w.versions ≡ true → WasLine past b c w line → stepped (λ s. effect_at b c w.message_id s e past) (λ s. count_at b c w.message_id s e past) line (map (λ v. v.serial) w.versions) ≡ line_of (After e past) b c w }
{}

#[tactic(auto, using(crate::proofs::VersionLemmas::legal_updates))]
fn legal_updates()
    ensures { (settings : Settings) (past : Past) → Legal settings past → (n : ℕ) (w : Warning) → warning_of (book_of past) n ≡ Some w → updates_once w.versions ≡ true }
{}

#[tactic(auto, using(crate::proofs::VersionLemmas::version_state_is))]
fn version_state_is()
    ensures { (past : Past) (b : ℕ) (c : Cell) (w : Warning) (s : ℕ) → updates_once w.versions ≡ true → list_any (is_version s) w.versions ≡ true → state_of (line_of past b c w) s ≡ key_state past b c w.message_id s }
{}

#[tactic(auto, using(crate::proofs::ListLemmas::failed_counted))]
fn failed_counted()
    ensures { (settings : Settings) (past : Past) → Legal settings past → (w : Warning) → length (failed_rows past w) ≡ number past w way.Failed }
{}
