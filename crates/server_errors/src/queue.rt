//! The lines that wait to be said.

ghost use Rattle.std.specs.Prelude.{◌≡◌, ◌⊎◌, ◌++◌, ◌∷◌, [], false, true, length, nat_eq};
ghost use Rattle.server_errors.specs.Queues.{one_more};

use crate::line::Line;
use std::alloc::Global;
use std::mem;

/// The most lines that wait to be said.
const MOST_LINES: usize = 10_000;

/// The lines that wait to be said.
#[derive(Drop)]
pub(crate) struct Queue {
    alloc: Global,
    lines: Vec<Line>,
    /// How many lines were left out since the last that was said.
    left_out: u64,
    /// No line more is to be said.
    is_closing: bool,
}

impl Queue {
    pub(crate) fn new(alloc: Global) -> Queue
        ensures lines { result.lines.items ≡ [] }
        ensures count { result.left_out ≡ 0 }
        ensures open { result.is_closing ≡ false }
    {
        Queue {
            alloc,
            lines: Vec::new(alloc),
            left_out: 0,
            is_closing: false,
        }
    }

    /// Puts a line at the end. It is left out where too many wait, or there is no memory.
    pub(crate) fn push(&mut self, line: Line)
        ensures put { ((self.new.lines.items ≡ self.old.lines.items ++ line ∷ []) × (self.new.left_out ≡ self.old.left_out))
            ⊎ ((self.new.lines.items ≡ self.old.lines.items) × (self.new.left_out ≡ one_more self.old.left_out)) }
        ensures closing { self.new.is_closing ≡ self.old.is_closing }
    {
        if self.lines.len() >= MOST_LINES || self.lines.push(line).is_err() {
            self.left_out = self.left_out.saturating_add(1);
        }
    }

    /// Takes all lines out, and how many were left out.
    pub(crate) fn take(&mut self) -> (Vec<Line>, u64)
        ensures lines { result.0.items ≡ self.old.lines.items }
        ensures count { result.1 ≡ self.old.left_out }
        ensures none { (self.new.lines.items ≡ []) × (self.new.left_out ≡ 0) }
        ensures closing { self.new.is_closing ≡ self.old.is_closing }
    {
        let lines = mem::replace(&mut self.lines, Vec::new(self.alloc));
        (lines, mem::replace(&mut self.left_out, 0))
    }

    pub(crate) fn is_empty(&self) -> bool
        ensures { result ≡ nat_eq (length self.now.lines.items) 0 }
    {
        self.lines.is_empty()
    }

    /// No line more is to be said.
    pub(crate) fn close(&mut self)
        ensures { self.new ≡ record self.old { is_closing = true } }
    {
        self.is_closing = true;
    }

    pub(crate) fn is_closing(&self) -> bool
        ensures { result ≡ self.now.is_closing }
    {
        self.is_closing
    }
}
