//! In which cells of a BSC messages don't rise.

ghost use Rattle.std.specs.Prelude.{◌≡◌, [], OnOk, OnErr};
ghost use Rattle.broadcast_watch.specs.Silences.{Hears, Sets, kept, restarted, silent_count, spells_at};

use crate::cell_set::CellSet;
use crate::counted::Counted;
use crate::hearing::spells_after;
use crate::message_key::MessageKey;
use crate::spell::Spell;
use crate::spells::Spells;
use crate::versions::is_among;
use common::Cell;
use link_rules::Version;
use std::alloc::{AllocError, Global};
use std::collections::BTreeMap;
use std::marker::Model;

/// Which numbers of broadcasts of a BSC stand still, while a message is on air. It is told of replies to queries for active warnings, and
/// has of each message one spell at most for each cell in which the last such reply said that it is on air.
#[derive(Drop)]
pub struct Silences {
    messages: BTreeMap<MessageKey, Spells>,
}

impl Model for Silences {
    ghost use Rattle.broadcast_watch.specs.Silences.{Messages};

    ghost Value = { Messages };

    ghost view = { λ s. s.messages.entries };
}

/// Takes out the spells of these cells, of each message.
fn take_cells(messages: &mut BTreeMap<MessageKey, Spells>, cells: &CellSet)
    ensures { messages.new.entries ≡ restarted cells.now messages.old.entries }
{
    messages.retain(|_, spells| {
        spells.leave_out(cells);
        true
    });
}

/// Takes out all messages but these versions.
fn keep_only(messages: &mut BTreeMap<MessageKey, Spells>, versions: &[Version])
    ensures { messages.new.entries ≡ kept versions.now messages.old.entries }
{
    messages.retain(|key, _| is_among(versions, key.version()));
}

impl Silences {
    /// No reply was heard.
    pub fn new(alloc: Global) -> Silences
        ensures { result ≡ [] }
    {
        Silences {
            messages: BTreeMap::new(alloc),
        }
    }

    /// Nothing is known of the version.
    fn take_out(&mut self, version: Version)
        ensures { Sets version [] self.old self.new }
    {
        self.messages.remove(&MessageKey::of(version));
    }

    /// Puts in the spells of a version of which nothing is known.
    #[tactic(auto, using(crate::proofs::SilenceLemmas::sets_none))]
    fn put(&mut self, version: Version, spells: Vec<Spell>) -> Result<(), AllocError>
        requires { spells_at version self.old ≡ [] }
        ensures put { OnOk result (Sets version spells.items self.old self.new) }
        ensures lost { OnErr result (self.new ≡ self.old) }
    {
        if spells.is_empty() {
            return Ok(());
        }
        let spells = Spells::from_vec(spells);
        self.messages.insert(MessageKey::of(version), spells)?;
        Ok(())
    }

    /// The BSC answered a query for a version on air, in the cells from the first to the last, with these numbers, of which one that isn't
    /// judged is `None`. A number that stood still for more than `limit` has its cell silent; `limit` and `now` are in milliseconds.
    /// Where memory runs out, what is known of the version is forgotten.
    #[tactic(auto, using(crate::proofs::SilenceLemmas::none_at, crate::proofs::SilenceLemmas::sets_again))]
    pub fn hear(
        &mut self,
        alloc: Global,
        version: Version,
        first: Cell,
        last: Cell,
        counted: &[Counted],
        limit: u64,
        now: u64,
    ) -> Result<(), AllocError>
        ensures heard { OnOk result (Hears limit now version first last counted.now self.old self.new) }
        ensures lost { OnErr result (Sets version [] self.old self.new) }
    {
        let spells = spells_after(
            alloc,
            self.spells(version),
            first,
            last,
            counted,
            limit,
            now,
        );
        self.take_out(version);
        self.put(version, spells?)
    }

    /// A RESTART took what was on air in these cells off the air: their numbers begin anew. Where memory runs out, all is forgotten.
    pub fn restart(&mut self, alloc: Global, cells: &[Cell]) -> Result<(), AllocError>
        ensures restarted { OnOk result (self.new ≡ restarted cells.now self.old) }
        ensures lost { OnErr result (self.new ≡ []) }
    {
        match CellSet::of(alloc, cells) {
            Ok(set) => {
                take_cells(&mut self.messages, &set);
                Ok(())
            }
            Err(error) => {
                self.forget();
                Err(error)
            }
        }
    }

    /// Forgets all: nothing is on air at the BSC any more.
    pub fn forget(&mut self)
        ensures { self.new ≡ [] }
    {
        self.messages.clear();
    }

    /// Forgets all versions but these.
    pub fn keep(&mut self, versions: &[Version])
        ensures { self.new ≡ kept versions.now self.old }
    {
        keep_only(&mut self.messages, versions);
    }

    /// What is known of the cells of a version.
    pub fn spells(&self, version: Version) -> &[Spell]
        ensures { result.now ≡ spells_at version self.now }
    {
        match self.messages.get(&MessageKey::of(version)) {
            Some(spells) => spells.as_slice(),
            None => &[],
        }
    }

    /// In how many cells the version is silent.
    pub fn silent_count(&self, version: Version) -> usize
        ensures { result ≡ silent_count version self.now }
    {
        match self.messages.get(&MessageKey::of(version)) {
            Some(spells) => spells.silent_count(),
            None => 0,
        }
    }
}
