//! A list of spells.

ghost use Rattle.std.specs.Prelude.{◌≡◌, count_by};
ghost use Rattle.std.specs.List.{filter};
ghost use Rattle.broadcast_watch.specs.Spells.{is_elsewhere, is_silent};

use crate::cell_set::CellSet;
use crate::spell::Spell;
use std::marker::Model;

/// Spells, one at most for each cell.
#[derive(Debug, Drop)]
pub struct Spells {
    spells: Vec<Spell>,
    /// How many of them are of silent cells.
    silent: usize,
}

impl Model for Spells {
    ghost use Rattle.std.specs.Prelude.{◌≡◌, List, count_by};
    ghost use Rattle.broadcast_watch.specs.Spells.{is_silent};
    ghost use Rattle.broadcast_watch.specs.declared.spell.Spell.{Spell};

    ghost Value = { List Spell };

    ghost view = { λ s. s.spells.items };

    ghost invariant = { λ s. s.silent ≡ count_by is_silent s.spells.items };
}

/// How many of the spells are of silent cells.
fn count_silent(spells: &[Spell]) -> usize
    ensures { result ≡ count_by is_silent spells.now }
{
    spells.iter().filter(|spell| spell.is_silent).count()
}

/// Whether the spell is of none of these cells.
fn is_elsewhere(cells: &CellSet, spell: &Spell) -> bool
    ensures { result ≡ is_elsewhere cells.now spell.now }
{
    !cells.has(spell.cell)
}

/// Takes out the spells of these cells.
fn take_out(spells: &mut Vec<Spell>, cells: &CellSet)
    ensures { spells.new.items ≡ filter (is_elsewhere cells.now) spells.old.items }
{
    spells.retain(|spell| is_elsewhere(cells, spell));
}

impl Spells {
    /// The spells of the vector, which is moved.
    pub fn from_vec(spells: Vec<Spell>) -> Spells
        ensures { result ≡ spells.items }
    {
        let silent = count_silent(&spells);
        Spells { spells, silent }
    }

    pub fn as_slice(&self) -> &[Spell]
        ensures { result.now ≡ self.now }
    {
        &self.spells
    }

    /// How many of them are of silent cells.
    pub fn silent_count(&self) -> usize
        ensures { result ≡ count_by is_silent self.now }
    {
        self.silent
    }

    /// Takes out those of these cells.
    pub(crate) fn leave_out(&mut self, cells: &CellSet)
        ensures { self.new ≡ filter (is_elsewhere cells.now) self.old }
    {
        take_out(&mut self.spells, cells);
        self.silent = count_silent(&self.spells);
    }
}
