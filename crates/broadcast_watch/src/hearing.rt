//! What a reply to a query says of the cells of one message.

ghost use Rattle.std.specs.Prelude.{◌≡◌, ◌++◌, IfOk, OnOk, find};
ghost use Rattle.std.specs.List.{filter, flat_map};
ghost use Rattle.std.specs.Option.{option_copied};
ghost use Rattle.broadcast_watch.specs.Spells.{is_of_cell, is_outside, next_spell, spells_after, spells_of};

use crate::counted::Counted;
use crate::spell::Spell;
use common::Cell;
use std::alloc::{AllocError, Global};

/// The number that a reply gives of a cell, by the spell that there was.
fn next_spell(limit: u64, now: u64, cell: Cell, count: u16, old: Option<&Spell>) -> Spell
    ensures { result ≡ next_spell limit now cell count (option_copied old.entry) }
{
    match old {
        Some(old) if old.count == count => Spell {
            cell,
            count,
            since: old.since,
            is_silent: limit < now.saturating_sub(old.since),
        },
        _ => Spell {
            cell,
            count,
            since: now,
            is_silent: false,
        },
    }
}

fn is_of_cell(cell: Cell, spell: &Spell) -> bool
    ensures { result ≡ is_of_cell cell spell.now }
{
    spell.cell.lac == cell.lac && spell.cell.ci == cell.ci
}

/// The spell of the cell, if there is one.
fn spell_of(spells: &[Spell], cell: Cell) -> Option<&Spell>
    ensures { option_copied result ≡ find (is_of_cell cell) spells.now }
{
    spells.iter().find(|spell| is_of_cell(cell, spell))
}

/// Appends the spell of a cell in a reply, where its number is judged.
fn push_spell(
    spells: &mut Vec<Spell>,
    old: &[Spell],
    counted: Counted,
    limit: u64,
    now: u64,
) -> Result<(), AllocError>
    ensures { OnOk result (spells.new.items ≡ spells.old.items ++ spells_of limit now old.now counted) }
{
    let Counted { cell, count } = counted;
    match count {
        None => Ok(()),
        Some(count) => {
            let before = spell_of(old, cell);
            spells.push(next_spell(limit, now, cell, count, before))?;
            Ok(())
        }
    }
}

/// Appends the spells of the cells in a reply.
fn push_spells(
    spells: &mut Vec<Spell>,
    old: &[Spell],
    counted: &[Counted],
    limit: u64,
    now: u64,
) -> Result<(), AllocError>
    ensures { OnOk result (spells.new.items ≡ spells.old.items ++ flat_map (spells_of limit now old.now) counted.now) }
{
    for one in counted {
        push_spell(spells, old, *one, limit, now)?;
    }
    Ok(())
}

fn is_outside(first: Cell, last: Cell, spell: &Spell) -> bool
    ensures { result ≡ is_outside first last spell.now }
{
    spell.cell.is_before(&first) || last.is_before(&spell.cell)
}

/// Takes out the spells of the cells from the first to the last.
fn take_between(spells: &mut Vec<Spell>, first: Cell, last: Cell)
    ensures { spells.new.items ≡ filter (λ s. is_outside first last s) spells.old.items }
{
    spells.retain(|spell| is_outside(first, last, spell));
}

/// The spells of the cells that the query didn't ask for.
fn outside(alloc: Global, old: &[Spell], first: Cell, last: Cell) -> Result<Vec<Spell>, AllocError>
    ensures { IfOk result (λ spells. spells.items ≡ filter (λ s. is_outside first last s) old.now) }
{
    let mut spells = Vec::from_slice(alloc, old)?;
    take_between(&mut spells, first, last);
    Ok(spells)
}

/// All spells after a reply to a query for the cells from the first to the last.
pub(crate) fn spells_after(
    alloc: Global,
    old: &[Spell],
    first: Cell,
    last: Cell,
    counted: &[Counted],
    limit: u64,
    now: u64,
) -> Result<Vec<Spell>, AllocError>
    ensures { IfOk result (λ spells. spells.items ≡ spells_after limit now first last counted.now old.now) }
{
    let mut spells = outside(alloc, old, first, last)?;
    push_spells(&mut spells, old, counted, limit, now)?;
    Ok(spells)
}
