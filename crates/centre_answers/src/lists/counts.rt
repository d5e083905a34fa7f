//! How many things a centre has.

ghost use Rattle.std.specs.Prelude.{◌≡◌, count_by};
ghost use Rattle.centre_events.specs.Past.{Past};
ghost use Rattle.centre_past.specs.IsKept.{IsKept};
ghost use Rattle.centre_past.specs.Lists.{plan_counts};
ghost use Rattle.centre_past.specs.Links.{link_in, up_of};

use cell_register::BscId;
use centre_past::kept::Kept;
use centre_past::kept_links::KeptLinks;
use centre_past::links::is_up;
use centre_past::lists::PlanCounts;
use warning_book::Warning;

/// How many of the BSCs have a link that is up.
fn links_up(links: &KeptLinks, bscs: &[BscId]) -> usize
    ensures { result ≡ count_by (λ b. up_of (link_in links.now b)) bscs.now }
{
    bscs.iter().filter(|b| is_up(links, **b)).count()
}

/// How many of the warnings are active.
fn active_count(warnings: &[Warning]) -> usize
    ensures { result ≡ count_by (λ w. w.active) warnings.now }
{
    let mut count = 0;
    for warning in warnings {
        if warning.is_active() {
            count += 1;
        }
    }
    count
}

/// How many there are of each thing. It takes no memory.
pub fn plan_counts(kept: &Kept) -> PlanCounts
    ensures { (past : Past) → IsKept past kept.now → result ≡ plan_counts past }
{
    kept.plan.tell_soundness();
    let register = kept.plan.register();
    let book = kept.plan.book();
    PlanCounts {
        bscs: register.bscs().len(),
        links_up: links_up(&kept.links, register.bscs()),
        cells: register.cell_count(),
        areas: kept.plan.areas().as_slice().len(),
        warnings: book.len(),
        active: active_count(book.as_slice()),
    }
}
