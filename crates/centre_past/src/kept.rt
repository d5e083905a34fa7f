//! What a centre keeps beside its journal.

use crate::kept_links::KeptLinks;
use coverage_plan::Plan;
use kept_tables::KeptTables;
use std::alloc::{AllocError, Global};

/// What the entries of a journal come to: the plan, the links with what is in flight over them, and the lines with what is
/// pending and counted for them.
pub struct Kept {
    pub plan: Plan,
    pub links: KeptLinks,
    pub tables: KeptTables,
}

/// Written out, so that no crate above proves anew how its parts are dropped.
impl Drop for Kept {
    fn drop(self) {
        let Kept {
            plan: _plan,
            links: _links,
            tables: _tables,
        } = self;
    }
}

impl Kept {
    ghost use Rattle.std.specs.Prelude.{◌≡◌, length, IfOk, OnErr, OnOk};
    ghost use Rattle.mirror.specs.Table.{counted_all};
    ghost use Rattle.centre_events.specs.Base.{empty_base};
    ghost use Rattle.centre_past.specs.Copying.{IsCopy};
    ghost use Rattle.centre_past.specs.IsKept.{IsKept, OnlyReadsIn};
    ghost use Rattle.centre_events.specs.Past.{From, Past};

    /// Of a centre without entries.
    pub fn new(alloc: Global) -> Kept
        ensures kept { IsKept (From empty_base) result }
        ensures meter { result.tables.lines.meter ≡ 0 }
    {
        Kept {
            plan: Plan::new(alloc),
            links: KeptLinks::new(alloc),
            tables: KeptTables::new(alloc),
        }
    }

    /// The same, in memory of its own, with the same meter. It is what the past says wherever this is. Each line that is
    /// copied is counted first; none where memory runs out.
    pub fn copied(&mut self, alloc: Global) -> Result<Kept, AllocError>
        ensures copy { IfOk result (λ copy. IsCopy self.new copy) }
        ensures kept { (past : Past) → IsKept past self.old → IfOk result (IsKept past) }
        ensures reads { OnOk result (OnlyReadsIn self.old self.new) }
        ensures counted { OnOk result (self.new.tables.lines.meter ≡ counted_all (length self.old.tables.lines.lines) self.old.tables.lines.meter) }
        ensures unchanged { OnErr result (self.new ≡ self.old) }
    {
        Ok(Kept {
            plan: self.plan.copied()?,
            links: self.links.copied(alloc)?,
            tables: self.tables.copied()?,
        })
    }
}
