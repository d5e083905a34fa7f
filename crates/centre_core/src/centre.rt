//! The centre: its journal, what is kept beside it, and the questions that are answered from there.

use crate::base::Base;
use crate::before_entry::BeforeEntry;
use crate::entering::{enter, make, with_entry};
use crate::journal::{Journal, tell_over};
use crate::looking::{prepare_edit, prepare_other};
use crate::rebuilding::kept_of;
use crate::telling::{tell_areas, tell_listed, tell_order, tell_tables};
use areas::Selectors;
use cell_register::BscId;
use centre_answers::{lists, questions};
use centre_events::answer::Answer;
use centre_events::entry::Entry;
use centre_events::event::Event;
use centre_events::in_flight::InFlight;
use centre_events::network::Network;
use centre_events::refusal::Refusal;
use centre_events::settings::Settings;
use centre_past::kept::Kept;
use centre_past::link_state::LinkState;
use centre_past::links::{flight_in, up_before};
use centre_past::lists::{
    AreaRows, BscRows, CellRows, CentreStatus, FailedRows, PlanCounts, WarningRows, WarningSheet,
};
use centre_past::meter::Meter;
use centre_past::reported::ReportedKeys;
use centre_past::telling::{tell_known, tell_lines};
use common::{Cell, Name};
use coverage_board::Numbers;
use coverage_plan::Edit;
use order_maker::Orders;
use std::alloc::{AllocError, Global};
use std::marker::Model;
use warning_book::WarningId;

/// A cell broadcast centre. Contracts see its settings, which are its network and the greatest number of entries of its
/// journal, the entries that were folded away and its journal, the oldest entry first in both, whether it is stale, how
/// often its lines were read or set, how often entries of its journal were read, and what is counted apart. `checkpoint`
/// folds the entries of the journal into a base: what they come to is kept a second time, and they are let go.
///
/// A centre is stale after memory ran out while an event was entered: its base and its journal are as they were, and what
/// is kept beside them is of no use until `rebuild` made it anew. While it is stale, every call but `position`, `entry`,
/// `is_full`, `is_stale`, `meter`, `status` and `rebuild` answers `Stale`.
pub struct Centre {
    alloc: Global,
    settings: Settings,
    base: Base,
    journal: Journal,
    stale: bool,
    kept: Kept,
}

/// Written out, so that no crate above proves anew how its parts are dropped.
impl Drop for Centre {
    fn drop(self) {
        let Centre {
            alloc: _alloc,
            settings: _settings,
            base: _base,
            journal: _journal,
            stale: _stale,
            kept: _kept,
        } = self;
    }
}

impl Model for Centre {
    ghost use Rattle.std.specs.Prelude.{◌+◌, ◌-◌};
    ghost use Rattle.centre_past.specs.Legal.{CentreState};
    ghost use Rattle.centre_core.specs.Centre.{IsCentre};

    ghost Value = { CentreState };

    ghost view = { λ c. record { known = record { settings = c.settings; folded = c.journal.folded; journal = c.journal.entries; stale = c.stale }; lines = c.kept.tables.lines.meter - c.base.begun; entries = c.journal.reads; apart = c.base.begun + c.base.kept.tables.lines.meter } };

    ghost invariant = { λ c. IsCentre c.settings c.journal.folded c.journal.entries c.stale c.base.kept c.kept };
}

impl Centre {
    ghost use Rattle.std.specs.Prelude.{◌≡◌, ◌<◌, ◌≤◌, ◌-◌, ◌+◌, ◌*◌, ◌&&◌, not, ◌++◌, ◌∷◌, [], ◌⊎◌, ⊤, length, nat_le, reverse, slice_get, true, false, Ok, Err, None, Some, IfOk, IfErr, IfSome, IsSome, OnOk, OnErr, if◌then◌else◌};
    ghost use Rattle.std.specs.Borrow.{sem, follows_so};
    ghost use Rattle.std.specs.Option.{option_copied};
    ghost use mathlib.Core.Option.{none};
    ghost use Rattle.mirror.specs.Table.{counted};
    ghost use Rattle.centre_core.specs.Centre.{ComesFrom, Leaves, Refuses, all_reach};
    ghost use Rattle.centre_core.specs.contracts.centre.Centre.{the_row};
    ghost use Rattle.centre_past.specs.Alike.{SaysTheSame};
    ghost use Rattle.centre_past.specs.Fits.{AnswerFits, IsCarried};
    ghost use Rattle.centre_events.specs.Folding.{base_of};
    ghost use Rattle.centre_events.specs.Cover.{is_area};
    ghost use Rattle.centre_events.specs.InFlight.{in_flight};
    ghost use Rattle.common.specs.Order.{is_ascending};
    ghost use Rattle.centre_core.specs.Journal.{counted_by};
    ghost use Rattle.centre_events.specs.Kept.{is_edit};
    ghost use Rattle.centre_past.specs.Legal.{Lawful, all_entries, new_centre, past};
    ghost use Rattle.centre_past.specs.LinkStates.{has_pending, link_state};
    ghost use Rattle.centre_events.specs.Links.{is_bsc, is_up};
    ghost use Rattle.centre_past.specs.Lists.{area_rows, area_selectors, bsc_rows, cell_rows, failed_of, plan_counts, sheet_of, status, warning_lt, warning_rows};
    ghost use Rattle.centre_past.specs.Numbers.{board, area_board};
    ghost use Rattle.centre_events.specs.Pending.{pending};
    ghost use Rattle.centre_events.specs.Places.{place};
    ghost use Rattle.centre_past.specs.Reach.{reach};
    ghost use Rattle.centre_past.specs.Table.{table};
    ghost use Rattle.centre_events.specs.Verdict.{is_full, verdict};
    ghost use Rattle.centre_events.specs.declared.event.Event.TheVariants as event;

    /// A centre of the network, without entries, whose journal holds so many at most.
    pub fn new(alloc: Global, network: Network, journal_limit: u32) -> Centre
        requires { journal_limit ≤ 4000000 }
        ensures { result ≡ record { known = new_centre network journal_limit; lines = 0; entries = 0; apart = 0 } }
    {
        Centre {
            alloc,
            settings: Settings {
                network,
                limit: journal_limit,
            },
            base: Base::new(alloc),
            journal: Journal::new(alloc),
            stale: false,
            kept: Kept::new(alloc),
        }
    }

    /// Takes an edit, while the centre is whole.
    fn accept_edit(&mut self, desk: u32, edit: Edit) -> Result<Answer, Refusal>
        requires whole { self.old.known.stale ≡ false }
        ensures settings { self.new.known.settings ≡ self.old.known.settings }
        ensures answer { IfOk result (λ a. verdict self.old.known.settings (past self.old.known) (event.Edit edit) ≡ Ok a) }
        ensures entry { IfOk result (λ a. self.new.known ≡ record self.old.known { journal = self.old.known.journal ++ record { desk = desk; event = event.Edit edit; answer = a } ∷ [] }) }
        ensures refusal { IfErr result (Refuses self.old.known (event.Edit edit)) }
        ensures left { IfErr result (λ r. Leaves self.old.known r self.new.known) }
        ensures lines { self.new.lines ≤ self.old.lines + 4 * reach (past self.old.known) (event.Edit edit) (verdict self.old.known.settings (past self.old.known) (event.Edit edit)) }
        ensures least { self.old.lines ≤ self.new.lines }
        ensures entries { self.new.entries ≡ self.old.entries }
        ensures apart { self.new.apart ≡ self.old.apart }
    {
        let reached = prepare_edit(
            self.alloc,
            self.settings,
            &mut self.journal,
            &mut self.kept,
            &edit,
        )?;
        let answer = make(&mut self.kept, &edit)?;
        self.stale = true;
        let (entry, answer) = with_entry(self.alloc, desk, Event::Edit(edit), answer)?;
        let place = self.journal.position() + 1;
        let before = BeforeEntry {
            place,
            up: false,
            reached,
        };
        enter(self.alloc, &mut self.journal, &mut self.kept, before, entry)?;
        self.stale = false;
        Ok(answer)
    }

    /// Takes an event that is no edit, while the centre is whole.
    fn accept_other(&mut self, desk: u32, event: Event) -> Result<Answer, Refusal>
        requires whole { self.old.known.stale ≡ false }
        requires other { is_edit event ≡ false }
        ensures settings { self.new.known.settings ≡ self.old.known.settings }
        ensures answer { IfOk result (λ a. verdict self.old.known.settings (past self.old.known) event ≡ Ok a) }
        ensures entry { IfOk result (λ a. self.new.known ≡ record self.old.known { journal = self.old.known.journal ++ record { desk = desk; event = event; answer = a } ∷ [] }) }
        ensures refusal { IfErr result (Refuses self.old.known event) }
        ensures left { IfErr result (λ r. Leaves self.old.known r self.new.known) }
        ensures lines { self.new.lines ≤ self.old.lines + 4 * reach (past self.old.known) event (verdict self.old.known.settings (past self.old.known) event) }
        ensures least { self.old.lines ≤ self.new.lines }
        ensures entries { self.new.entries ≡ self.old.entries }
        ensures apart { self.new.apart ≡ self.old.apart }
    {
        let found = match prepare_other(
            self.alloc,
            self.settings,
            &mut self.journal,
            &mut self.kept,
            &event,
        ) {
            Ok(found) => found,
            Err(refusal) => {
                drop(event);
                return Err(refusal);
            }
        };
        let (entry, given) = with_entry(self.alloc, desk, event, found.answer)?;
        let up = up_before(&self.kept.links, &entry.event);
        let place = self.journal.position() + 1;
        let before = BeforeEntry {
            place,
            up,
            reached: found.reached,
        };
        self.stale = true;
        enter(self.alloc, &mut self.journal, &mut self.kept, before, entry)?;
        self.stale = false;
        Ok(given)
    }

    /// Takes an event that the desk submits. An accepted event becomes one entry of the journal; a refused one becomes none.
    /// The refusal is the first, in the order of their numbers, whose cause holds. `Memory` is the last of them: nothing
    /// that decides a refusal takes memory, so `Memory` comes only where no other refusal holds. After it the centre may be
    /// stale; after any other refusal it is as it was. `Stale` comes from a stale centre alone, and from it nothing else.
    pub fn accept(&mut self, desk: u32, event: Event) -> Result<Answer, Refusal>
        ensures settings { self.new.known.settings ≡ self.old.known.settings }
        ensures answer { IfOk result (λ a. verdict self.old.known.settings (past self.old.known) event ≡ Ok a) }
        ensures whole { OnOk result (self.old.known.stale ≡ false) }
        ensures entry { IfOk result (λ a. self.new.known ≡ record self.old.known { journal = self.old.known.journal ++ record { desk = desk; event = event; answer = a } ∷ [] }) }
        ensures refusal { IfErr result (Refuses self.old.known event) }
        ensures source { IfErr result (ComesFrom self.old.known event) }
        ensures left { IfErr result (λ r. Leaves self.old.known r self.new.known) }
        ensures legal { Lawful self.new.known.settings (past self.new.known) }
        ensures fits { IfOk result AnswerFits }
        ensures carried { IfOk result IsCarried }
        ensures lines { self.new.lines ≤ self.old.lines + 4 * reach (past self.old.known) event (verdict self.old.known.settings (past self.old.known) event) }
        ensures least { self.old.lines ≤ self.new.lines }
        ensures entries { self.new.entries ≡ self.old.entries }
        ensures apart { self.new.apart ≡ self.old.apart }
    {
        self.tell_soundness();
        if self.stale {
            drop(event);
            return Err(Refusal::Stale);
        }
        match event {
            Event::Edit(edit) => self.accept_edit(desk, edit),
            other => self.accept_other(desk, other),
        }
    }

    /// Whether memory ran out while an event was entered, and the centre wasn't rebuilt since.
    pub fn is_stale(&self) -> bool
        ensures { result ≡ self.now.known.stale }
    {
        self.stale
    }

    /// Makes what is kept beside the journal anew from the base and the entries, and so a stale centre whole. Each entry is
    /// read once. The count of lines begins again, at most four for each on which the entries bear; that of entries goes on.
    /// The copy of the base is counted apart. Where memory runs out the centre is as it was, but for reads and that copy.
    pub fn rebuild(&mut self) -> Result<(), AllocError>
        ensures rebuilt { OnOk result (self.new.known ≡ record self.old.known { stale = false }) }
        ensures unchanged { OnErr result (self.new ≡ record self.old { entries = self.new.entries; apart = self.new.apart }) }
        ensures entries { OnOk result (self.new.entries ≡ counted_by (length self.old.known.journal) self.old.entries) }
        ensures most { OnErr result (self.new.entries ≤ counted_by (length self.old.known.journal) self.old.entries) }
        ensures lines { OnOk result (self.new.lines ≤ 4 * all_reach (past self.old.known)) }
    {
        let kept = kept_of(self.alloc, &mut self.base, &mut self.journal)?;
        self.kept = kept;
        self.base.begin();
        self.stale = false;
        Ok(())
    }

    /// Folds the entries of the journal into the base, gives their memory back, and answers how many there were. Questions are
    /// answered as before, and events but where the journal was full. `Stale`, then `Memory`: then nothing has changed.
    pub fn checkpoint(&mut self) -> Result<u64, Refusal>
        ensures folded { IfOk result (λ n. (n ≡ length self.old.known.journal) × (self.new.known ≡ record self.old.known { folded = all_entries self.old.known; journal = [] })) }
        ensures same { OnOk result (base_of (past self.new.known) ≡ base_of (past self.old.known)) }
        ensures says { OnOk result (SaysTheSame (past self.new.known) (past self.old.known)) }
        ensures whole { OnOk result (self.old.known.stale ≡ false) }
        ensures refusal { IfErr result (λ r. ((r ≡ Refusal.Stale) × (self.old.known.stale ≡ true)) ⊎ ((r ≡ Refusal.Memory) × (self.old.known.stale ≡ false))) }
        ensures unchanged { OnErr result (self.new ≡ self.old) }
        ensures lines { self.new.lines ≡ self.old.lines }
        ensures entries { self.new.entries ≡ self.old.entries }
    {
        if self.stale {
            return Err(Refusal::Stale);
        }
        self.base.fold(self.alloc, &mut self.kept)?;
        let count = self.journal.len();
        self.journal.clear(self.alloc);
        Ok(count)
    }

    /// How often lines were read or set since the centre was made or rebuilt, without what is counted apart, and how often
    /// entries were read since it was made. At its greatest value a count stays.
    pub fn meter(&self) -> Meter
        ensures lines { result.lines ≡ self.now.lines }
        ensures entries { result.entries ≡ self.now.entries }
    {
        Meter {
            lines: self.base.lines_of(&self.kept),
            entries: self.journal.entries(),
        }
    }

    /// The pending orders of the BSC: writes and replaces before kills, then by message identifier, serial number and that
    /// which is replaced, none first. `Stale`, `NoSuchBsc`, then `Memory`, which comes only where an order is pending.
    pub fn pending_of(&self, b: BscId) -> Result<Orders, Refusal>
        ensures orders { IfOk result (λ orders. (orders ≡ pending (past self.now.known) b) × (is_bsc (past self.now.known) b ≡ true)) }
        ensures whole { OnOk result (self.now.known.stale ≡ false) }
        ensures refusal { IfErr result (λ r. ((r ≡ Refusal.Stale) × (self.now.known.stale ≡ true)) ⊎ ((self.now.known.stale ≡ false) × (((r ≡ Refusal.Memory) × (is_bsc (past self.now.known) b ≡ true) × (has_pending (past self.now.known) b ≡ true)) ⊎ ((r ≡ Refusal.NoSuchBsc) × (is_bsc (past self.now.known) b ≡ false))))) }
    {
        if self.stale {
            return Err(Refusal::Stale);
        }
        tell_over(&self.journal);
        if !self.kept.plan.register().has_bsc(b) {
            return Err(Refusal::NoSuchBsc);
        }
        Ok(questions::pending(self.alloc, &self.kept.tables, b)?)
    }

    /// What is in flight to the BSC: sent, and neither answered nor lost with its link. `Stale`, then `NoSuchBsc`.
    pub fn in_flight_of(&self, b: BscId) -> Result<Option<&InFlight>, Refusal>
        ensures flight { IfOk result (λ flight. (option_copied flight ≡ in_flight (past self.now.known) b) × (is_bsc (past self.now.known) b ≡ true)) }
        ensures whole { OnOk result (self.now.known.stale ≡ false) }
        ensures refusal { IfErr result (λ r. ((r ≡ Refusal.Stale) × (self.now.known.stale ≡ true)) ⊎ ((self.now.known.stale ≡ false) × ((r ≡ Refusal.NoSuchBsc) × (is_bsc (past self.now.known) b ≡ false)))) }
    {
        if self.stale {
            return Err(Refusal::Stale);
        }
        tell_over(&self.journal);
        if !self.kept.plan.register().has_bsc(b) {
            return Err(Refusal::NoSuchBsc);
        }
        Ok(flight_in(&self.kept.links, b))
    }

    /// What is told of the BSC's link. It takes no memory. `Stale`, then `NoSuchBsc`.
    pub fn link_of(&self, b: BscId) -> Result<LinkState, Refusal>
        ensures link { IfOk result (λ l. (l ≡ link_state (past self.now.known) b) × (is_bsc (past self.now.known) b ≡ true)) }
        ensures whole { OnOk result (self.now.known.stale ≡ false) }
        ensures refusal { IfErr result (λ r. ((r ≡ Refusal.Stale) × (self.now.known.stale ≡ true)) ⊎ ((self.now.known.stale ≡ false) × ((r ≡ Refusal.NoSuchBsc) × (is_bsc (past self.now.known) b ≡ false)))) }
    {
        if self.stale {
            return Err(Refusal::Stale);
        }
        tell_over(&self.journal);
        if !self.kept.plan.register().has_bsc(b) {
            return Err(Refusal::NoSuchBsc);
        }
        Ok(questions::link_state(&self.kept, b))
    }

    /// Whether the link of the BSC is up, and no order is pending for it. Less is looked up for it than for `link_of`. It is not so of any
    /// BSC where the centre is stale. It takes no memory.
    pub fn is_quiet(&self, b: BscId) -> bool
        ensures quiet { result ≡ (not self.now.known.stale && (is_up (past self.now.known) b && not (has_pending (past self.now.known) b))) }
        ensures there { result ≡ true → is_bsc (past self.now.known) b ≡ true }
    {
        if self.stale {
            return false;
        }
        tell_over(&self.journal);
        questions::is_quiet(&self.kept, b)
    }

    /// The BSC at which the cell is registered, if it is. `Stale`.
    pub fn place_of(&self, cell: Cell) -> Result<Option<BscId>, Refusal>
        ensures place { IfOk result (λ p. (p ≡ place (past self.now.known) cell) × (self.now.known.stale ≡ false)) }
        ensures refusal { IfErr result (λ r. (r ≡ Refusal.Stale) × (self.now.known.stale ≡ true)) }
    {
        if self.stale {
            return Err(Refusal::Stale);
        }
        tell_over(&self.journal);
        Ok(self.kept.plan.register().bsc_of(cell))
    }

    /// What the BSC has reported: each of its keys that is on air, or may be, by cell, message identifier and serial
    /// number. `Stale`, then `NoSuchBsc`, then `Memory`.
    pub fn table_of(&mut self, b: BscId) -> Result<ReportedKeys, Refusal>
        ensures table { IfOk result (λ keys. (keys ≡ table (past self.old.known) b) × (is_bsc (past self.old.known) b ≡ true)) }
        ensures whole { OnOk result (self.old.known.stale ≡ false) }
        ensures refusal { IfErr result (λ r. ((r ≡ Refusal.Stale) × (self.old.known.stale ≡ true)) ⊎ ((self.old.known.stale ≡ false) × (((r ≡ Refusal.Memory) × (is_bsc (past self.old.known) b ≡ true)) ⊎ ((r ≡ Refusal.NoSuchBsc) × (is_bsc (past self.old.known) b ≡ false))))) }
        ensures unchanged { self.new.known ≡ self.old.known }
        ensures entries { self.new.entries ≡ self.old.entries }
        ensures apart { self.new.apart ≡ self.old.apart }
        ensures least { self.old.lines ≤ self.new.lines }
    {
        if self.stale {
            return Err(Refusal::Stale);
        }
        tell_over(&self.journal);
        if !self.kept.plan.register().has_bsc(b) {
            return Err(Refusal::NoSuchBsc);
        }
        tell_lines(self.kept.tables.lines());
        tell_known();
        Ok(questions::table(
            self.alloc,
            self.kept.plan.register(),
            self.kept.plan.book(),
            &mut self.kept.tables,
            b,
        )?)
    }

    /// The numbers of the warning. `Stale`, then `NoSuchWarning`.
    pub fn board_total(&self, warning: WarningId) -> Result<Numbers, Refusal>
        ensures numbers { IfOk result (λ numbers. board (past self.now.known) warning ≡ Some numbers) }
        ensures whole { OnOk result (self.now.known.stale ≡ false) }
        ensures refusal { IfErr result (λ r. ((r ≡ Refusal.Stale) × (self.now.known.stale ≡ true)) ⊎ ((self.now.known.stale ≡ false) × ((r ≡ Refusal.NoSuchWarning) × (board (past self.now.known) warning ≡ None)))) }
    {
        if self.stale {
            return Err(Refusal::Stale);
        }
        tell_over(&self.journal);
        match questions::board(&self.kept.tables, self.kept.plan.book(), warning) {
            Some(numbers) => Ok(numbers),
            None => Err(Refusal::NoSuchWarning),
        }
    }

    /// The numbers of the warning and one of its areas. `Stale`, then `NoSuchArea`, `NoSuchWarning`, `AreaNotThere`.
    pub fn board_area(&self, warning: WarningId, area: &Name) -> Result<Numbers, Refusal>
        ensures numbers { IfOk result (λ numbers. area_board (past self.now.known) warning area.now ≡ Ok numbers) }
        ensures whole { OnOk result (self.now.known.stale ≡ false) }
        ensures refusal { IfErr result (λ r. ((r ≡ Refusal.Stale) × (self.now.known.stale ≡ true)) ⊎ ((self.now.known.stale ≡ false) × (area_board (past self.now.known) warning area.now ≡ Err r))) }
    {
        if self.stale {
            return Err(Refusal::Stale);
        }
        tell_over(&self.journal);
        questions::area_board(
            self.kept.plan.areas(),
            self.kept.plan.book(),
            &self.kept.tables,
            warning,
            area,
        )
    }

    /// The registered BSCs, in ascending order: of each how many cells are registered there, whether its link is up and its
    /// latest generation, what is in flight to it, and how many orders are pending for it. `Stale`, then `Memory`.
    pub fn bscs(&self) -> Result<BscRows, Refusal>
        ensures rows { IfOk result (λ rows. rows ≡ bsc_rows (past self.now.known)) }
        ensures whole { OnOk result (self.now.known.stale ≡ false) }
        ensures refusal { IfErr result (λ r. ((r ≡ Refusal.Stale) × (self.now.known.stale ≡ true)) ⊎ ((self.now.known.stale ≡ false) × (r ≡ Refusal.Memory))) }
    {
        if self.stale {
            return Err(Refusal::Stale);
        }
        tell_over(&self.journal);
        Ok(lists::bscs::bscs(self.alloc, &self.kept)?)
    }

    /// The cells that are registered at the BSC, in ascending order: of each for which kinds of warnings it is down there
    /// (TS 48.049, 8.1.3). `Stale`, then `NoSuchBsc`, then `Memory`.
    pub fn cells_of(&self, b: BscId) -> Result<CellRows, Refusal>
        ensures rows { IfOk result (λ rows. (rows ≡ cell_rows (past self.now.known) b) × (is_bsc (past self.now.known) b ≡ true)) }
        ensures whole { OnOk result (self.now.known.stale ≡ false) }
        ensures refusal { IfErr result (λ r. ((r ≡ Refusal.Stale) × (self.now.known.stale ≡ true)) ⊎ ((self.now.known.stale ≡ false) × (((r ≡ Refusal.Memory) × (is_bsc (past self.now.known) b ≡ true)) ⊎ ((r ≡ Refusal.NoSuchBsc) × (is_bsc (past self.now.known) b ≡ false))))) }
    {
        if self.stale {
            return Err(Refusal::Stale);
        }
        tell_over(&self.journal);
        if !self.kept.plan.register().has_bsc(b) {
            return Err(Refusal::NoSuchBsc);
        }
        Ok(lists::cells::cells(self.alloc, &self.kept, b)?)
    }

    /// The areas, in the order of the octets of their names: of each how many selectors it has. `Stale`, then `Memory`.
    pub fn areas(&self) -> Result<AreaRows, Refusal>
        ensures rows { IfOk result (λ rows. rows ≡ area_rows (past self.now.known)) }
        ensures whole { OnOk result (self.now.known.stale ≡ false) }
        ensures refusal { IfErr result (λ r. ((r ≡ Refusal.Stale) × (self.now.known.stale ≡ true)) ⊎ ((self.now.known.stale ≡ false) × (r ≡ Refusal.Memory))) }
    {
        if self.stale {
            return Err(Refusal::Stale);
        }
        tell_over(&self.journal);
        Ok(lists::named_areas::areas(self.alloc, self.kept.plan.areas())?)
    }

    /// The selectors of the area, by location area, the whole of it first. `Stale`, then `NoSuchArea`, then `Memory`.
    pub fn selectors_of(&self, area: &Name) -> Result<Selectors, Refusal>
        ensures selectors { IfOk result (λ all. (all ≡ area_selectors (past self.now.known) area.now) × (is_area (past self.now.known) area.now ≡ true)) }
        ensures whole { OnOk result (self.now.known.stale ≡ false) }
        ensures refusal { IfErr result (λ r. ((r ≡ Refusal.Stale) × (self.now.known.stale ≡ true)) ⊎ ((self.now.known.stale ≡ false) × (((r ≡ Refusal.Memory) × (is_area (past self.now.known) area.now ≡ true)) ⊎ ((r ≡ Refusal.NoSuchArea) × (is_area (past self.now.known) area.now ≡ false))))) }
    {
        if self.stale {
            return Err(Refusal::Stale);
        }
        tell_over(&self.journal);
        tell_areas();
        if !self.kept.plan.areas().has_area(area) {
            return Err(Refusal::NoSuchArea);
        }
        Ok(lists::named_areas::selectors(self.alloc, self.kept.plan.areas(), area)?)
    }

    /// The warnings in the book, in ascending order of their numbers: of each its message identifier, its current serial
    /// number, whether it is active, its kind, its areas and its numbers on the board. `Stale`, then `Memory`.
    pub fn warnings(&self) -> Result<WarningRows, Refusal>
        ensures rows { IfOk result (λ rows. rows ≡ warning_rows (past self.now.known)) }
        ensures order { IfOk result (λ rows. is_ascending warning_lt rows ≡ true) }
        ensures whole { OnOk result (self.now.known.stale ≡ false) }
        ensures refusal { IfErr result (λ r. ((r ≡ Refusal.Stale) × (self.now.known.stale ≡ true)) ⊎ ((self.now.known.stale ≡ false) × (r ≡ Refusal.Memory))) }
    {
        if self.stale {
            return Err(Refusal::Stale);
        }
        tell_over(&self.journal);
        tell_tables();
        tell_order();
        Ok(lists::warnings::warnings(self.alloc, &self.kept.tables, self.kept.plan.book())?)
    }

    /// The warning, with what its current version broadcasts. `Stale`, then `NoSuchWarning`, then `Memory`.
    pub fn warning_of(&self, number: WarningId) -> Result<WarningSheet, Refusal>
        ensures sheet { IfOk result (λ sheet. sheet_of (past self.now.known) number ≡ Some sheet) }
        ensures whole { OnOk result (self.now.known.stale ≡ false) }
        ensures refusal { IfErr result (λ r. ((r ≡ Refusal.Stale) × (self.now.known.stale ≡ true)) ⊎ ((self.now.known.stale ≡ false) × (((r ≡ Refusal.Memory) × IsSome (sheet_of (past self.now.known) number)) ⊎ ((r ≡ Refusal.NoSuchWarning) × (sheet_of (past self.now.known) number ≡ None))))) }
    {
        if self.stale {
            return Err(Refusal::Stale);
        }
        self.board_total(number)?;
        tell_over(&self.journal);
        tell_tables();
        tell_listed();
        let tables = &self.kept.tables;
        let Ok(found) = lists::warnings::warning(self.alloc, tables, self.kept.plan.book(), number)
        else {
            return Err(Refusal::Memory);
        };
        match found {
            Some(sheet) => Ok(sheet),
            None => Err(Refusal::NoSuchWarning),
        }
    }

    /// The registered cells in which the warning failed, in ascending order.
    fn failed_rows(&mut self, number: WarningId) -> Result<FailedRows, Refusal>
        ensures rows { IfOk result (λ rows. failed_of (past self.old.known) number ≡ Some rows) }
        ensures whole { OnOk result (self.old.known.stale ≡ false) }
        ensures refusal { IfErr result (λ r. ((r ≡ Refusal.Stale) × (self.old.known.stale ≡ true)) ⊎ ((self.old.known.stale ≡ false) × (((r ≡ Refusal.Memory) × IsSome (failed_of (past self.old.known) number)) ⊎ ((r ≡ Refusal.NoSuchWarning) × (failed_of (past self.old.known) number ≡ None))))) }
        ensures unchanged { self.new.known ≡ self.old.known }
        ensures entries { self.new.entries ≡ self.old.entries }
        ensures apart { self.new.apart ≡ self.old.apart }
        ensures least { self.old.lines ≤ self.new.lines }
    {
        if self.stale {
            return Err(Refusal::Stale);
        }
        self.board_total(number)?;
        tell_over(&self.journal);
        tell_tables();
        tell_listed();
        let Ok(found) = lists::failed::failed(
            self.alloc,
            self.kept.plan.register(),
            self.kept.plan.areas(),
            self.kept.plan.book(),
            &mut self.kept.tables,
            number,
        ) else {
            return Err(Refusal::Memory);
        };
        match found {
            Some(rows) => Ok(rows),
            None => Err(Refusal::NoSuchWarning),
        }
    }

    /// The registered cells in which the warning failed, in order, as many as the board says: of each its BSC, and whether it
    /// is down there, or with which cause the BSC refused (TS 48.049, 8.2.13). `Stale`, `NoSuchWarning`, then `Memory`.
    pub fn failed_of(&mut self, number: WarningId) -> Result<FailedRows, Refusal>
        ensures rows { IfOk result (λ rows. failed_of (past self.old.known) number ≡ Some rows) }
        ensures count { IfOk result (λ rows. IfSome (board (past self.old.known) number) (λ n. length rows ≡ n.failed)) }
        ensures whole { OnOk result (self.old.known.stale ≡ false) }
        ensures refusal { IfErr result (λ r. ((r ≡ Refusal.Stale) × (self.old.known.stale ≡ true)) ⊎ ((self.old.known.stale ≡ false) × (((r ≡ Refusal.Memory) × IsSome (failed_of (past self.old.known) number)) ⊎ ((r ≡ Refusal.NoSuchWarning) × (failed_of (past self.old.known) number ≡ None))))) }
        ensures unchanged { self.new.known ≡ self.old.known }
        ensures entries { self.new.entries ≡ self.old.entries }
        ensures apart { self.new.apart ≡ self.old.apart }
        ensures least { self.old.lines ≤ self.new.lines }
    {
        tell_over(&self.journal);
        self.failed_rows(number)
    }

    /// How many there are of each thing; `None` where the centre is stale.
    fn counts(&self) -> Option<PlanCounts>
        ensures { result ≡ (if self.now.known.stale then None else Some (plan_counts (past self.now.known))) }
    {
        if self.is_stale() {
            return None;
        }
        tell_over(&self.journal);
        Some(lists::counts::plan_counts(&self.kept))
    }

    /// How the centre stands: how many entries there were, how many of them were folded, how many the journal may have,
    /// whether it is stale, and, where it isn't, how many there are of each thing. It takes no memory; never `Stale`.
    pub fn status(&self) -> CentreStatus
        ensures { result ≡ status self.now.known }
    {
        CentreStatus {
            entries: self.position(),
            folded: self.journal.folded(),
            limit: self.settings.limit,
            is_stale: self.stale,
            counts: self.counts(),
        }
    }

    /// The number of entries, those that were folded away counted.
    pub fn position(&self) -> u64
        ensures { result ≡ length (all_entries self.now.known) }
    {
        self.journal.position()
    }

    /// Whether the journal is full, or the last position reached: a whole centre refuses every event then, by `JournalFull`.
    pub fn is_full(&self) -> bool
        ensures { result ≡ is_full self.now.known.settings (past self.now.known) }
    {
        self.journal.is_full(self.settings.limit)
    }

    /// The entry of that number, from 1; `None` where it was folded away, and past the last. Each call is counted.
    pub fn entry(&mut self, n: u64) -> Option<&Entry>
        ensures* after { sem 𝓛 (follows_so the_row the_row self.entry.ghost_name none (λ _ _. ⊤) (λ c. c ≡ record self.old { entries = counted self.old.entries })) }
        ensures value { option_copied result ≡ (if nat_le n (length self.old.known.folded) then None else slice_get self.old.known.journal (n - length self.old.known.folded - 1)) }
    {
        self.journal.read(n)
    }

    /// Tells what always holds of a centre.
    pub fn tell_soundness(&self)
        ensures legal { Lawful self.now.known.settings (past self.now.known) }
        ensures long { length self.now.known.journal ≤ self.now.known.settings.limit }
        ensures few { self.now.known.settings.limit ≤ 4000000 }
    {
        let _ = &self.settings;
    }
}
