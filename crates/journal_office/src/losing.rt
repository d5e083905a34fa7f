//! The links that were up at the end of a kept file are lost at a start.

ghost use Rattle.std.specs.Prelude.{◌≡◌, [], ◌∷◌, OnOk};
ghost use Rattle.centre_past.specs.Legal.{past};
ghost use Rattle.journal_office.specs.Losses.{EntersInto, FoldsInto, LosesEach, LosesLinks, row_losses};

use crate::link_peers::NoPeers;
use crate::office_journal::put_all;
use crate::start::{Start, not_taken};
use centre_events::event::Event;
use centre_past::lists::BscRow;
use centre_questions::question::Question;
use centre_questions::seen_value::SeenValue;
use journal_file::{NotTaken, Writing};
use journal_keeper::KeepFault;
use office::desk::Desk;
use office::held::Held;
use std::sync::Wait;
use std::sync::ledger::Ledger;

/// Why a link isn't lost.
fn keep_fault(fault: NotTaken) -> KeepFault {
    match fault {
        NotTaken::Memory => KeepFault::Memory,
        NotTaken::BadLine => KeepFault::Entry,
    }
}

impl<L: Ledger, R: Wait> Start<'_, L, R> {
    /// Folds the journal where that is due, and puts the line of that.
    fn fold_into(
        &self,
        held: &mut Held<L>,
        desk: &mut Desk<L>,
        writing: &mut Writing,
    ) -> Result<(), KeepFault>
        ensures { OnOk result (FoldsInto held.old.centre writing.old held.new.centre writing.new) }
    {
        if held.unfolded() < self.every {
            return Ok(());
        }
        match self.fold(held, desk) {
            Ok(()) => {
                writing.put_fold()?;
                Ok(())
            }
            Err(fault) => Err(keep_fault(fault)),
        }
    }

    /// Enters an event, and puts its line.
    #[tactic(auto, using(crate::proofs::LosingLemmas::entered_if))]
    fn enter_into(
        &self,
        held: &mut Held<L>,
        desk: &mut Desk<L>,
        event: Event,
        writing: &mut Writing,
    ) -> Result<(), KeepFault>
        ensures { OnOk result (EntersInto event held.old.centre writing.old held.new.centre writing.new) }
    {
        let place = held.position();
        match self.submit(held, desk, event) {
            Ok(()) => {}
            Err(fault) => return Err(keep_fault(fault)),
        }
        let entries = held.entries(place, 1)?;
        let result = put_all(self.rt, self.alloc, &NoPeers, &entries, writing);
        drop(entries);
        result
    }

    /// Enters the loss of the BSC's link where that is up, and folds the journal before it where that is due.
    #[tactic(auto, using(crate::proofs::LosingLemmas::lost_none, crate::proofs::LosingLemmas::lost_one))]
    fn lose(
        &self,
        held: &mut Held<L>,
        desk: &mut Desk<L>,
        row: &BscRow,
        writing: &mut Writing,
    ) -> Result<(), KeepFault>
        ensures { OnOk result (LosesEach (row_losses (row.now ∷ [])) held.old.centre writing.old held.new.centre writing.new) }
    {
        if !row.is_up {
            return Ok(());
        }
        self.fold_into(held, desk, writing)?;
        self.enter_into(held, desk, Event::LinkDown(row.bsc, row.last), writing)
    }

    /// Enters the loss of each link that is up by these rows.
    fn lose_each(
        &self,
        held: &mut Held<L>,
        desk: &mut Desk<L>,
        rows: &[BscRow],
        writing: &mut Writing,
    ) -> Result<(), KeepFault>
        ensures { OnOk result (LosesEach (row_losses rows.now) held.old.centre writing.old held.new.centre writing.new) }
    {
        for row in rows {
            self.lose(held, desk, row, writing)?;
        }
        Ok(())
    }

    /// Enters the loss of each link that is up, since nobody knows what became of it, and puts the lines of that. The journal is folded
    /// before a loss where that is due. `Memory` where memory ran out; `Entry` where a loss is refused or has no line, which no contract
    /// excludes. At an `Err` some of the losses may be entered.
    #[tactic(auto, using(crate::proofs::LosingLemmas::links_if))]
    pub fn lose_links(
        &self,
        held: &mut Held<L>,
        desk: &mut Desk<L>,
        writing: &mut Writing,
    ) -> Result<(), KeepFault>
        ensures { OnOk result (LosesLinks held.old.centre writing.old held.new.centre writing.new) }
    {
        let seen = match held.look(desk, Question::Bscs) {
            Ok(seen) => seen,
            Err(refusal) => return Err(keep_fault(not_taken(refusal))),
        };
        let result = match &seen.value {
            SeenValue::Bscs(rows) => self.lose_each(held, desk, rows.as_slice(), writing),
            _ => Err(KeepFault::Entry),
        };
        drop(seen);
        result
    }
}
