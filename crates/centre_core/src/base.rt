//! What the folded entries of a centre come to.

ghost use Rattle.std.specs.Prelude.{◌≡◌, ◌-◌, IfOk, OnErr, OnOk};
ghost use Rattle.centre_events.specs.Base.{empty_base};
ghost use Rattle.centre_events.specs.Past.{From, Past};
ghost use Rattle.centre_past.specs.IsKept.{IsKept, OnlyReadsIn};

use centre_past::kept::Kept;
use std::alloc::{AllocError, Global};
use std::marker::Model;

/// What the entries come to that were folded away, and where the count of lines begins. It lends nothing: it is only copied.
///
/// A copy of what is kept has the same meter, once each line that is copied was counted. So nothing that is read of a copy,
/// or of the base, can be hidden. What a checkpoint or a rebuild copies isn't to be counted as read: the count of lines
/// begins so much later.
pub(crate) struct Base {
    kept: Kept,
    begun: u64,
}

/// Written out, so that a centre doesn't prove anew how its parts are dropped.
impl Drop for Base {
    fn drop(self) {
        let Base {
            kept: _kept,
            begun: _begun,
        } = self;
    }
}

impl Model for Base {
    ghost use Rattle.centre_core.specs.Centre.{BaseState};

    ghost Value = { BaseState };

    ghost view = { λ b. record { kept = b.kept; begun = b.begun } };
}

impl Base {
    /// Of a centre without entries.
    pub(crate) fn new(alloc: Global) -> Base
        ensures kept { IsKept (From empty_base) result.kept }
        ensures meter { result.kept.tables.lines.meter ≡ 0 }
        ensures begun { result.begun ≡ 0 }
    {
        Base {
            kept: Kept::new(alloc),
            begun: 0,
        }
    }

    /// How often lines were read or set of what is kept, without those that were copied for the base or from it.
    pub(crate) fn lines_of(&self, kept: &Kept) -> u64
        ensures { result ≡ kept.now.tables.lines.meter - self.now.begun }
    {
        kept.tables.meter().saturating_sub(self.begun)
    }

    /// Makes what is kept the base, in memory of its own. The copy isn't counted in the lines.
    pub(crate) fn fold(&mut self, alloc: Global, kept: &mut Kept) -> Result<(), AllocError>
        ensures base { (past : Past) → IsKept past kept.old → OnOk result (IsKept past self.new.kept) }
        ensures reads { OnOk result (OnlyReadsIn kept.old kept.new) }
        ensures lines { kept.new.tables.lines.meter - self.new.begun ≡ kept.old.tables.lines.meter - self.old.begun }
        ensures unchanged { OnErr result (self.new ≡ self.old) }
        ensures uncounted { OnErr result (kept.new ≡ kept.old) }
    {
        let lines = self.lines_of(kept);
        let copy = kept.copied(alloc)?;
        self.begun = kept.tables.meter().saturating_sub(lines);
        self.kept = copy;
        Ok(())
    }

    /// A copy of the base. The base counts each line that is copied, and the copy has the same meter.
    pub(crate) fn copied(&mut self, alloc: Global) -> Result<Kept, AllocError>
        ensures copy { (past : Past) → IsKept past self.old.kept → IfOk result (IsKept past) }
        ensures base { (past : Past) → IsKept past self.old.kept → IsKept past self.new.kept }
        ensures meter { IfOk result (λ copy. copy.tables.lines.meter ≡ self.new.kept.tables.lines.meter) }
        ensures begun { self.new.begun ≡ self.old.begun }
    {
        self.kept.copied(alloc)
    }

    /// Has the count of lines begin with the meter of the base, which a copy of it has.
    pub(crate) fn begin(&mut self)
        ensures { self.new ≡ record self.old { begun = self.old.kept.tables.lines.meter } }
    {
        self.begun = self.kept.tables.meter();
    }
}
