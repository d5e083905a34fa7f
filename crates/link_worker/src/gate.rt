//! Where a caller may hold a link or cut it.

use crate::load::Load;
use crate::passage::Passage;
use cell_register::BscId;
use office::receipt::Receipt;
use std::sync::Wait;

/// A step of a link at which its gate is asked.
#[derive(Clone, Copy, Debug, PartialEq, Eq)]
pub enum Step {
    /// An order or a query is in the journal, and its frame is to be written.
    BeforeWrite,
    /// A report was submitted, and the next frame is to be taken.
    AfterReport,
}

/// What both sides of a link ask at each step, and tell what passes there. It may wait before it answers, which holds the link.
///
/// It may tell at which steps it cuts the link of which BSC. A gate that tells nothing may do so at each.
pub trait Gate {
    ghost use Rattle.std.specs.Prelude.{◌≡◌, ℕ, false};
    ghost use Rattle.link_worker.specs.Passages.{step_of};
    ghost use Rattle.link_worker.specs.declared.gate.Step.{Step};

    ghost may_cut: { Self → ℕ → Step → Type 0 } = { λ _ _ _. Unit {0} };

    /// A report was read, and is submitted next. It may wait until the report may come in, which isn't lost.
    fn before_report<R: Wait>(&self, _rt: &R, _load: Load) {}

    /// A report was entered: this is its receipt. No lock is held, and `pass` is asked next.
    fn entered<R: Wait>(&self, _rt: &R, _receipt: &Receipt) {}

    /// Whether the link of the BSC goes on. Where it doesn't, the side that asks ends.
    fn pass<R: Wait>(&self, rt: &R, b: BscId, passage: Passage<'_>) -> bool
        ensures cut { result ≡ false → may_cut self.now b (step_of passage.entry) };
}

/// A gate that lets everything pass.
#[derive(Clone, Copy, Debug)]
pub struct OpenGate;

impl Gate for OpenGate {
    ghost use Rattle.std.specs.Prelude.{◌≡◌, true};

    ghost may_cut = { λ _ _ _. ⊥ };

    fn pass<R: Wait>(&self, _rt: &R, _b: BscId, _passage: Passage<'_>) -> bool
        ensures { result ≡ true }
    {
        true
    }
}
