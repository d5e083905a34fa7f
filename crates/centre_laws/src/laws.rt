//! What the entries of a journal come to, said in other words than the contracts of `accept` say it, as the contracts of
//! calls that do nothing.

ghost use Rattle.std.specs.Prelude.{◌≡◌, ◌&&◌, Bool, List, ℕ, true, false, Some, None, nat_eq};
ghost use Rattle.std.specs.List.{list_any};
ghost use Rattle.common.specs.Cell.{cell_eq};
ghost use Rattle.common.specs.Order.{each_once};
ghost use Rattle.common.specs.declared.cell.Cell.{Cell};
ghost use Rattle.mirror.specs.declared.presence.Presence.TheVariants.{Absent};
ghost use Rattle.centre_past.specs.Beginning.{AreTheCells, CountsNoOther, AreTheBscs, CountsNoOtherBsc};
ghost use Rattle.centre_events.specs.Counts.{count};
ghost use Rattle.centre_events.specs.Down.{is_down};
ghost use Rattle.centre_events.specs.Effects.{is_among};
ghost use Rattle.centre_events.specs.InFlight.{in_flight, id_of, cells_of};
ghost use Rattle.centre_past.specs.Issued.{IsBookOf};
ghost use Rattle.centre_events.specs.Known.{is_known};
ghost use Rattle.centre_past.specs.Legal.{Legal};
ghost use Rattle.centre_events.specs.Links.{bscs, is_bsc};
ghost use Rattle.centre_events.specs.Past.{Past};
ghost use Rattle.centre_events.specs.Pending.{all_actions};
ghost use Rattle.centre_events.specs.Places.{cells};
ghost use Rattle.centre_events.specs.Presence.{presence, hold, is_held};
ghost use Rattle.centre_events.specs.Reported.{names_serial};
ghost use Rattle.centre_events.specs.Warnings.{is_key};
ghost use Rattle.order_maker.specs.declared.action.Action.{Action};
ghost use Rattle.warning_book.specs.declared.kind.Kind.{Kind};
ghost use Rattle.centre_events.specs.declared.in_flight.InFlight.{InFlight};
ghost use Rattle.centre_events.specs.declared.settings.Settings.{Settings};

/// Lemma: after every legal history the book has the warnings that were issued and not forgotten, in the order of issue.
/// A warning is active where its last Issue, Stop or Forget is the Issue. Its areas are those of its Issue, with each
/// Widen and without each Narrow. Its versions are its Issue and its Updates, with the serial numbers that these were
/// answered. An Issue was answered the next number, and a serial number with its scope, update number 0, and the least
/// code that no warning in the book with its message identifier had. An Update was answered the serial number with the
/// next update number.
#[tactic(auto, using(crate::proofs::IssuedLemmas::book_is_as_entered))]
pub fn book_is_as_entered()
    ensures { (settings : Settings) (past : Past) → Legal settings past → IsBookOf past }
{}

/// Lemma: cells that are registered nowhere, and in which nothing is on air, count in no number, stand in no order and in
/// no table. So each of these is the same over any list of cells, each once, that leaves out only such cells.
#[tactic(auto, using(centre_past::proofs::BeginningLemmas::counts_no_other))]
pub fn counts_no_other_cell()
    ensures { (settings : Settings) (past : Past) (cs : List Cell) → Legal settings past → AreTheCells past cs → CountsNoOther past cs }
{}

/// Lemma: BSCs at which no cell is registered, and nothing is on air, add nothing to the numbers of a board. Nothing is
/// pending for them, and no key is reported of them.
#[tactic(auto, using(centre_past::proofs::BeginningLemmas::counts_no_other_bsc))]
pub fn counts_no_other_bsc()
    ensures { (settings : Settings) (past : Past) (bs : List ℕ) → Legal settings past → AreTheBscs past bs → CountsNoOtherBsc past bs }
{}

/// Lemma: of a BSC that is not registered nothing is in flight, down, on air or held back, and no broadcast is reported.
#[tactic(auto, using(centre_past::proofs::MarkLemmas::unknown_bsc_flight, centre_past::proofs::MarkLemmas::unknown_bsc_down, centre_past::proofs::MarkLemmas::unknown_bsc_presence, centre_past::proofs::MarkLemmas::unknown_bsc_hold, centre_past::proofs::MarkLemmas::unknown_bsc_count))]
pub(crate) fn unknown_bsc()
    ensures flight { (settings : Settings) (past : Past) → Legal settings past → (b : ℕ) → is_bsc past b ≡ false → in_flight past b ≡ None }
    ensures down { (settings : Settings) (past : Past) → Legal settings past → (k : Kind) (b : ℕ) (c : Cell) → is_bsc past b ≡ false → is_down past k b c ≡ false }
    ensures presence { (settings : Settings) (past : Past) → Legal settings past → (b : ℕ) (c : Cell) (m s : ℕ) → is_bsc past b ≡ false → presence past b c m s ≡ Absent }
    ensures hold { (settings : Settings) (past : Past) → Legal settings past → (b : ℕ) (c : Cell) (m s : ℕ) → is_bsc past b ≡ false → hold past b c m s ≡ None }
    ensures count { (settings : Settings) (past : Past) → Legal settings past → (b : ℕ) (c : Cell) (m s : ℕ) → is_bsc past b ≡ false → count past b c m s ≡ 0 }
{}

/// Lemma: a cell that is down, held back or known at a BSC, or of which it reported a broadcast, was registered once.
#[tactic(auto, using(centre_past::proofs::MarkLemmas::known_cell, centre_past::proofs::MarkLemmas::down_cell, centre_past::proofs::MarkLemmas::held_cell, centre_past::proofs::MarkLemmas::counted_cell))]
pub(crate) fn known_cell()
    ensures known { (settings : Settings) (past : Past) → Legal settings past → (b : ℕ) (c : Cell) → is_known past b c ≡ true → is_among c (cells past) ≡ true }
    ensures down { (settings : Settings) (past : Past) → Legal settings past → (k : Kind) (b : ℕ) (c : Cell) → is_down past k b c ≡ true → is_among c (cells past) ≡ true }
    ensures held { (settings : Settings) (past : Past) → Legal settings past → (b : ℕ) (c : Cell) (m s : ℕ) → is_held past b c m s ≡ true → is_among c (cells past) ≡ true }
    ensures counted { (settings : Settings) (past : Past) → Legal settings past → (b : ℕ) (c : Cell) (m s : ℕ) → nat_eq (count past b c m s) 0 ≡ false → is_among c (cells past) ≡ true }
{}

/// Lemma: a BSC at which a cell is known is registered, and so is one of those that ever were.
#[tactic(auto, using(centre_past::proofs::MarkLemmas::known_bsc, centre_past::proofs::MarkLemmas::known_at))]
pub(crate) fn known_bsc()
    ensures registered { (settings : Settings) (past : Past) → Legal settings past → (b : ℕ) (c : Cell) → is_known past b c ≡ true → is_bsc past b ≡ true }
    ensures listed { (settings : Settings) (past : Past) → Legal settings past → (b : ℕ) (c : Cell) → is_known past b c ≡ true → list_any (nat_eq b) (bscs past) ≡ true }
{}

/// Lemma: what is in flight to a BSC names keys of the book alone.
#[tactic(auto, using(centre_past::proofs::KeyLemmas::flight_key))]
pub(crate) fn flight_key()
    ensures { (settings : Settings) (past : Past) → Legal settings past → (b : ℕ) (f : InFlight) (s : ℕ) → in_flight past b ≡ Some f → names_serial f s ≡ true → is_key past (id_of f) s ≡ true }
{}

/// Lemma: a key that no warning in the book has is nowhere on air, and nowhere held back, and no broadcast of it is
/// reported.
#[tactic(auto, using(centre_past::proofs::KeyLemmas::unknown_key_presence, centre_past::proofs::KeyLemmas::unknown_key_hold, centre_past::proofs::KeyLemmas::unknown_key_count))]
pub(crate) fn unknown_key()
    ensures presence { (settings : Settings) (past : Past) → Legal settings past → (b : ℕ) (c : Cell) (m s : ℕ) → is_key past m s ≡ false → presence past b c m s ≡ Absent }
    ensures hold { (settings : Settings) (past : Past) → Legal settings past → (b : ℕ) (c : Cell) (m s : ℕ) → is_key past m s ≡ false → hold past b c m s ≡ None }
    ensures count { (settings : Settings) (past : Past) → Legal settings past → (b : ℕ) (c : Cell) (m s : ℕ) → is_key past m s ≡ false → count past b c m s ≡ 0 }
{}

/// Lemma: no two actions of a BSC are for one cell, message identifier and serial number.
pub(crate) fn actions_once()
    ensures keys { (settings : Settings) (past : Past) → Legal settings past → (b : ℕ) → each_once (λ (x y : Action). cell_eq x.cell y.cell && (nat_eq x.message_id y.message_id && nat_eq x.serial y.serial)) (all_actions past b) ≡ true }
    ensures actions { (settings : Settings) (past : Past) → Legal settings past → (b : ℕ) (same : Action → Action → Bool) → ((x y : Action) → same x y ≡ true → x ≡ y) → each_once same (all_actions past b) ≡ true }
{}

/// Lemma: what is in flight to a BSC names each of its cells once.
#[tactic(auto, using(centre_past::proofs::OnceLemmas::flight_once))]
pub(crate) fn flight_once()
    ensures { (settings : Settings) (past : Past) → Legal settings past → (b : ℕ) (f : InFlight) → in_flight past b ≡ Some f → each_once cell_eq (cells_of f) ≡ true }
{}
