//! What stands above the warnings or the BSCs that stand so.

ghost use Rattle.std.specs.Prelude.{◌≡◌, ◌++◌, OnOk};
ghost use Rattle.status_pages.specs.WarningParts.{section_class, section_front, section_title, standing_class};

use crate::standing::Standing;
use std::alloc::{AllocError, Global};

pub(crate) fn standing_class(standing: Standing) -> &'static str
    ensures { result.now ≡ standing_class standing }
{
    match standing {
        Standing::Pressing | Standing::Unreached | Standing::Silent | Standing::Wrong => "bad",
        Standing::UnderWay => "busy",
        Standing::InOrder => "good",
        Standing::Stopped => "off",
    }
}

/// Appends where a section begins.
#[tactic(auto, unfolding(crate::specs::WarningParts::section_class))]
fn push_section_class(
    alloc: Global,
    out: &mut Vec<u8>,
    standing: Standing,
) -> Result<(), AllocError>
    ensures { OnOk result (out.new.items ≡ out.old.items ++ section_class standing) }
{
    let class = standing_class(standing);
    let text = format!(in alloc; "<section class=\"{class}\">")?;
    out.extend_from_slice(text.as_bytes())
}

/// Appends what a section is called, and how many there are.
#[tactic(auto, unfolding(crate::specs::WarningParts::section_title))]
fn push_section_title(
    alloc: Global,
    out: &mut Vec<u8>,
    title: &str,
    count: u64,
) -> Result<(), AllocError>
    ensures { OnOk result (out.new.items ≡ out.old.items ++ section_title title.now count) }
{
    let text = format!(in alloc; "<h2>{title} <b>{count}</b></h2><div>")?;
    out.extend_from_slice(text.as_bytes())
}

/// Appends what stands above the warnings or the BSCs of a section.
#[tactic(auto, unfolding(crate::specs::WarningParts::section_front))]
pub(crate) fn push_section_front(
    alloc: Global,
    out: &mut Vec<u8>,
    standing: Standing,
    title: &str,
    count: u64,
) -> Result<(), AllocError>
    ensures { OnOk result (out.new.items ≡ out.old.items ++ section_front standing title.now count) }
{
    push_section_class(alloc, out, standing)?;
    push_section_title(alloc, out, title, count)
}
