//! Events of links.

ghost use Rattle.std.specs.Prelude.{◌≡◌, ◌+◌, Some, None, OnOk, IfErr};
ghost use Rattle.common.specs.Checks.{first_refusal};
ghost use Rattle.centre_events.specs.Kept.{IsRegisterOf};
ghost use Rattle.centre_events.specs.Past.{Past, position};
ghost use Rattle.centre_past.specs.EditCauses.{own_causes};
ghost use Rattle.centre_past.specs.Links.{AreLinksOf};
ghost use Rattle.coverage_plan.specs.declared.edit.Edit.TheVariants as edit;
ghost use Rattle.centre_answers.specs.Reused.{IsFirst};
ghost use Rattle.centre_events.specs.Verdict.{retry, link_up, link_checks, link_down};

use crate::events::Verdict;
use cell_register::{BscId, Register};
use centre_events::answer::Answer;
use centre_events::refusal::Refusal;
use centre_past::kept_links::KeptLinks;
use centre_past::links::{generation as last_link, is_up};

/// Retry: orders again what a BSC refused.
pub(crate) fn retry(register: &Register, b: BscId) -> Verdict
    ensures { (past : Past) → IsRegisterOf past register.now → result ≡ retry past b }
{
    if !register.has_bsc(b) {
        return Err(Refusal::NoSuchBsc);
    }
    Ok(Answer::Done)
}

/// LinkUp: the link of a BSC has come up. Its generation is the number of its entry, which is to be this one.
pub(crate) fn link_up(register: &Register, b: BscId, place: u64) -> Verdict
    ensures { (past : Past) → IsRegisterOf past register.now → place ≡ position past + 1 → result ≡ link_up past b }
{
    if !register.has_bsc(b) {
        return Err(Refusal::NoSuchBsc);
    }
    Ok(Answer::Link(place))
}

/// Whether the link of this generation is the latest of its BSC, and up.
pub(crate) fn check_link(
    links: &KeptLinks,
    register: &Register,
    b: BscId,
    generation: u64,
) -> Result<(), Refusal>
    ensures free { (past : Past) → IsRegisterOf past register.now → AreLinksOf past links.now → OnOk result (first_refusal (link_checks past b generation) ≡ None) }
    ensures refusal { (past : Past) → IsRegisterOf past register.now → AreLinksOf past links.now → IfErr result (λ e. first_refusal (link_checks past b generation) ≡ Some e) }
{
    if !register.has_bsc(b) {
        return Err(Refusal::NoSuchBsc);
    }
    let last = last_link(links, b);
    if generation != last {
        return Err(Refusal::StaleLink { now: last });
    }
    if !is_up(links, b) {
        return Err(Refusal::LinkNotUp);
    }
    Ok(())
}

/// Whether the link of the BSC is down, so that the BSC can be taken out.
pub(crate) fn check_down(links: &KeptLinks, b: BscId) -> Result<(), Refusal>
    ensures { (past : Past) → AreLinksOf past links.now → IsFirst (own_causes past (edit.RemoveBsc b)) result }
{
    if is_up(links, b) {
        return Err(Refusal::LinkIsUp);
    }
    Ok(())
}

/// LinkDown: the link of this generation is lost.
pub(crate) fn link_down(
    links: &KeptLinks,
    register: &Register,
    b: BscId,
    generation: u64,
) -> Verdict
    ensures { (past : Past) → IsRegisterOf past register.now → AreLinksOf past links.now → result ≡ link_down past b generation }
{
    check_link(links, register, b, generation)?;
    Ok(Answer::Done)
}
