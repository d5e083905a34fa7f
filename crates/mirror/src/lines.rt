//! The lines that aren't blank, by warning.

ghost use Rattle.std.specs.Prelude.{◌≡◌, None, Some, [], length, slice_get, IfOk, IfSome, OnErr, OnOk};
ghost use Rattle.std.specs.BTreeMap.{insert_entry, is_at};
ghost use Rattle.std.specs.List.Sorted.{IsStrictlySortedBy};
ghost use Rattle.std.specs.Map.{keys_of, lookup, remove_entry};
ghost use Rattle.std.specs.Option.{is_some, option_map};
ghost use Rattle.mirror.specs.Held.{is_held_line};
ghost use Rattle.mirror.specs.Index.{IsSet};
ghost use Rattle.mirror.specs.Line.{blank_line};
ghost use Rattle.mirror.specs.Lines.{kept_at, line_of, lines_at};
ghost use Rattle.mirror.specs.Order.{slot_of, warning_slot_cmp};
ghost use Rattle.mirror.specs.Table.{is_slot};

use crate::line::Line;
use crate::line_key::LineKey;
use crate::warning_slot::WarningSlot;
use indexmap::IndexMap;
use std::alloc::{AllocError, Global};
use std::collections::BTreeSet;
use std::marker::Model;

/// The lines that aren't blank. A line is found by its hash; the slots stand in order for the sweeps of one warning.
#[derive(Drop)]
pub(crate) struct Lines {
    order: BTreeSet<WarningSlot>,
    kept: IndexMap<WarningSlot, Line>,
}

impl Model for Lines {
    ghost use Rattle.std.specs.Prelude.{List};
    ghost use Rattle.mirror.specs.Lines.{AreSlotsOf, lines_at};
    ghost use Rattle.mirror.specs.Order.{Slot};
    ghost use Rattle.mirror.specs.declared.line.Line.{Line};

    ghost Value = { List (Slot × Line) };

    ghost view = { λ t. lines_at t.order.keys t.kept.entries };

    ghost invariant = { λ t. AreSlotsOf t.order.keys t.kept.entries };
}

/// The place of the slot's line, if one is kept.
fn place_of(kept: &IndexMap<WarningSlot, Line>, slot: &WarningSlot) -> Option<usize>
    ensures found { IfSome result (λ place. slice_get kept.now.entries place ≡ Some (slot.now, line_of kept.now.entries slot.now)) }
    ensures kept { IfSome result (λ place. kept_at kept.now.entries slot.now ≡ Some (line_of kept.now.entries slot.now)) }
{
    let (place, _, _) = kept.get_full(slot)?;
    Some(place)
}

/// Gives memory back where lines take a quarter of it, or less. Where there is no memory to put them in anew, all stays.
fn give_back(kept: &mut IndexMap<WarningSlot, Line>)
    ensures { kept.new.entries ≡ kept.old.entries }
{
    let len = kept.len();
    if len <= kept.capacity() / 4 {
        kept.shrink_to(len * 2);
    }
}

impl Lines {
    pub(crate) fn new(alloc: Global) -> Lines
        ensures { result ≡ [] }
    {
        Lines {
            order: BTreeSet::new(alloc),
            kept: IndexMap::new(alloc),
        }
    }

    /// The same lines, in memory of their own.
    pub(crate) fn copied(&self) -> Result<Lines, AllocError>
        ensures { IfOk result (λ copy. copy ≡ self.now) }
    {
        Ok(Lines {
            order: self.order.clone()?,
            kept: self.kept.clone()?,
        })
    }

    /// How many lines there are.
    pub(crate) fn count(&self) -> usize
        ensures { result ≡ length self.now }
    {
        self.order.len()
    }

    /// A lemma, not a test: it returns nothing, and its clause says that the lines stand in order.
    pub(crate) fn tell_order(&self)
        ensures { IsStrictlySortedBy warning_slot_cmp (keys_of self.now) }
    {
        let _ = self.order.len();
    }

    /// The slots of the lines, in ascending order.
    pub(crate) fn slots(&self) -> &BTreeSet<WarningSlot>
        ensures slots { result.now.keys ≡ keys_of self.now }
        ensures lines { lines_at (keys_of self.now) self.now ≡ self.now }
    {
        &self.order
    }

    /// The line at the slot: blank where none is kept.
    #[inline(always)]
    pub(crate) fn line_of(&self, slot: &WarningSlot) -> Line
        ensures { result ≡ line_of self.now slot.now }
    {
        match self.kept.get(slot) {
            Some(line) => *line,
            None => Line::blank(),
        }
    }

    /// Puts the line in. The result says whether one was kept, and whether that one was held. Where memory runs out nothing
    /// changes. Memory is taken only where none was kept. One that was kept is changed in its place.
    pub(crate) fn insert(&mut self, key: LineKey, line: &Line) -> Result<Option<bool>, AllocError>
        ensures old { IfOk result (λ old. old ≡ option_map is_held_line (lookup (is_slot key.bsc key.cell key.warning) self.old)) }
        ensures set { OnOk result (IsSet key line.now self.old self.new) }
        ensures entries { OnOk result (self.new ≡ insert_entry warning_slot_cmp self.old (slot_of key.bsc key.cell key.warning) line.now) }
        ensures unchanged { OnErr result (self.new ≡ self.old) }
        ensures grows { OnErr result (lookup (is_slot key.bsc key.cell key.warning) self.old ≡ None) }
    {
        let LineKey { bsc, cell, warning } = key;
        let slot = WarningSlot::of(key);
        let Some(place) = place_of(&self.kept, &slot) else {
            return self.put(LineKey { bsc, cell, warning }, line);
        };
        // A lemma: `len` also ensures that the slots are in order.
        let _ = self.order.len();
        let (_, kept) = self.kept.pair_mut(place);
        let was = kept.is_held();
        *kept = *line;
        Ok(Some(was))
    }

    /// The same. It is called seldom, mostly for a line of which nothing was kept, and isn't inlined, so that its caller stays
    /// short.
    #[inline(never)]
    fn put(&mut self, key: LineKey, line: &Line) -> Result<Option<bool>, AllocError>
        ensures old { IfOk result (λ old. old ≡ option_map is_held_line (lookup (is_slot key.bsc key.cell key.warning) self.old)) }
        ensures set { OnOk result (IsSet key line.now self.old self.new) }
        ensures entries { OnOk result (self.new ≡ insert_entry warning_slot_cmp self.old (slot_of key.bsc key.cell key.warning) line.now) }
        ensures unchanged { OnErr result (self.new ≡ self.old) }
        ensures grows { OnErr result (lookup (is_slot key.bsc key.cell key.warning) self.old ≡ None) }
    {
        let LineKey { bsc, cell, warning } = key;
        let old = self.kept.insert(WarningSlot::of(key), *line)?;
        if let Some(was) = old {
            // A lemma: `len` also ensures that the slots are in order. This one is among them already.
            let _ = self.order.len();
            return Ok(Some(was.is_held()));
        }
        let slot = WarningSlot::of(LineKey { bsc, cell, warning });
        match self.order.insert(slot) {
            Ok(_) => Ok(None),
            Err(refused) => {
                // The line was put in already, so it is taken out again; that takes no memory.
                self.kept.swap_remove(&refused.value);
                Err(AllocError)
            }
        }
    }

    /// Takes the line out. The result says whether it was kept. Memory that few lines take then is given back.
    pub(crate) fn remove(&mut self, key: LineKey) -> bool
        ensures kept { result ≡ is_some (lookup (is_slot key.bsc key.cell key.warning) self.old) }
        ensures set { IsSet key blank_line self.old self.new }
        ensures entries { self.new ≡ remove_entry (is_at (warning_slot_cmp (slot_of key.bsc key.cell key.warning))) self.old }
    {
        let slot = WarningSlot::of(key);
        if self.kept.swap_remove(&slot).is_none() {
            return false;
        }
        self.order.remove(&slot);
        give_back(&mut self.kept);
        true
    }
}
