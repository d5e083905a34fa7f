//! A list of messages that are to be broadcast.

ghost use Rattle.std.specs.Prelude.{◌≡◌};

use crate::plan_item::PlanItem;
use std::marker::Model;

/// Messages that the plan wants, by cell, and in a cell by warning.
#[derive(Debug, Drop)]
pub struct PlanItems {
    items: Vec<PlanItem>,
}

impl Model for PlanItems {
    ghost use Rattle.std.specs.Prelude.{List};
    ghost use Rattle.coverage_plan.specs.declared.plan_item.PlanItem.{PlanItem};

    ghost Value = { List PlanItem };

    ghost view = { λ s. s.items.items };
}

impl PlanItems {
    /// The items of the vector, which is moved.
    pub fn from_vec(items: Vec<PlanItem>) -> PlanItems
        ensures { result ≡ items.items }
    {
        PlanItems { items }
    }

    pub fn as_slice(&self) -> &[PlanItem]
        ensures { result.now ≡ self.now }
    {
        &self.items
    }

    /// The items as a vector, which is moved and not copied.
    pub fn into_vec(self) -> Vec<PlanItem>
        ensures { result.items ≡ self }
    {
        let PlanItems { items } = self;
        items
    }
}
