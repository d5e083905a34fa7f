//! The lines that were said last.

ghost use Rattle.std.specs.Prelude.{◌≡◌, ◌⊎◌, ◌-◌, ◌++◌, ◌∷◌, [], IfOk, OnOk, drop, length};
ghost use Rattle.std.specs.List.{flat_map};
ghost use Rattle.server_errors.specs.Queues.{one_more};
ghost use Rattle.server_errors.specs.SaidLines.{before_held, lines_staying, said_after, said_line, unheld_text};

use crate::said::Said;
use std::alloc::{AllocError, Global};

/// The most lines that are held.
const MOST_HELD: usize = 1_000;

/// The lines that were said last.
#[derive(Drop)]
pub(crate) struct Recent {
    lines: Vec<String>,
    /// How many were said.
    count: u64,
}

/// Puts the lines behind the text.
fn push_said(text: &mut Vec<u8>, lines: &[String]) -> Result<(), AllocError>
    ensures { OnOk result (text.new.items ≡ text.old.items ++ flat_map said_line lines.now) }
{
    for line in lines {
        text.extend_from_slice(b"said ")?;
        text.extend_from_slice(line.as_bytes())?;
    }
    Ok(())
}

/// Puts behind the text how many lines are held no more, where there are any.
fn push_unheld(alloc: Global, text: &mut Vec<u8>, count: u64) -> Result<(), AllocError>
    ensures { OnOk result (text.new.items ≡ text.old.items ++ unheld_text count) }
{
    if count == 0 {
        return Ok(());
    }
    let line = format!(in alloc; "said {count} lines more\n")?;
    text.extend_from_slice(line.as_bytes())
}

/// The items behind the first ones.
fn behind<T>(items: &[T], count: u64) -> &[T]
    ensures { result.now ≡ drop count items.now }
{
    match usize::try_from(count) {
        Ok(count) if count <= items.len() => &items[count..],
        _ => &[],
    }
}

impl Recent {
    pub(crate) fn new(alloc: Global) -> Recent
        ensures lines { result.lines.items ≡ [] }
        ensures count { result.count ≡ 0 }
    {
        Recent {
            lines: Vec::new(alloc),
            count: 0,
        }
    }

    /// Lets the first line go, where one more would be too many.
    fn make_room(&mut self)
        ensures lines { self.new.lines.items ≡ lines_staying self.old.lines.items }
        ensures count { self.new.count ≡ self.old.count }
    {
        if self.lines.len() >= MOST_HELD {
            drop(self.lines.remove(0));
        }
    }

    /// One more was said. Where there is no memory for it, it isn't held, and doesn't count.
    pub(crate) fn push(&mut self, line: String)
        ensures { ((self.new.lines.items ≡ lines_staying self.old.lines.items ++ line ∷ []) × (self.new.count ≡ one_more self.old.count))
            ⊎ ((self.new.lines.items ≡ lines_staying self.old.lines.items) × (self.new.count ≡ self.old.count)) }
    {
        self.make_room();
        if self.lines.push(line).is_ok() {
            self.count = self.count.saturating_add(1);
        }
    }

    /// How many were said.
    pub(crate) fn count(&self) -> u64
        ensures { result ≡ self.now.count }
    {
        self.count
    }

    /// The number of the last line that is held no more.
    fn before_held(&self) -> u64
        ensures { result ≡ before_held self.now }
    {
        self.count.saturating_sub(self.lines.len() as u64)
    }

    /// What is shown of the lines behind that number.
    pub(crate) fn after(&self, alloc: Global, place: u64) -> Result<Said, AllocError>
        ensures text { IfOk result (λ said. said.text.items ≡ said_after self.now place) }
        ensures place { IfOk result (λ said. said.place ≡ self.now.count) }
    {
        let before = self.before_held();
        let mut text = Vec::new(alloc);
        push_unheld(alloc, &mut text, before.saturating_sub(place))?;
        push_said(
            &mut text,
            behind(self.lines.as_slice(), place.saturating_sub(before)),
        )?;
        Ok(Said {
            place: self.count,
            text,
        })
    }
}
