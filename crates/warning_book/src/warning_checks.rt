//! The checks of an edit, on a warning that is there.

ghost use Rattle.std.specs.Prelude.{◌≡◌, Some, None, IfErr, OnOk};
ghost use Rattle.common.specs.Checks.{first_refusal};
ghost use Rattle.warning_book.specs.Checks.{warning_there_checks, warning_widen_checks, warning_narrow_checks, warning_forget_checks};

use crate::refusal::{Limit, Refusal};
use crate::warning::Warning;
use common::Name;

/// Whether the warning was not stopped.
pub(crate) fn check_active(warning: &Warning) -> Result<(), Refusal>
    ensures accepted { OnOk result (first_refusal (warning_there_checks warning.now) ≡ None) }
    ensures refused { IfErr result (λ e. first_refusal (warning_there_checks warning.now) ≡ Some e) }
{
    if !warning.active {
        return Err(Refusal::NotActive);
    }
    Ok(())
}

/// Whether the warning may name one more area.
pub(crate) fn check_widen(warning: &Warning, a: &Name) -> Result<(), Refusal>
    ensures accepted { OnOk result (first_refusal (warning_widen_checks a.now warning.now) ≡ None) }
    ensures refused { IfErr result (λ e. first_refusal (warning_widen_checks a.now warning.now) ≡ Some e) }
{
    if !warning.active {
        return Err(Refusal::NotActive);
    }
    if warning.areas.has(a) {
        return Err(Refusal::AreaThere);
    }
    if warning.areas.len() >= 16 {
        return Err(Refusal::Limit {
            which: Limit::WarningAreas,
        });
    }
    Ok(())
}

/// Whether the area may be taken out of those of the warning.
pub(crate) fn check_narrow(warning: &Warning, a: &Name) -> Result<(), Refusal>
    ensures accepted { OnOk result (first_refusal (warning_narrow_checks a.now warning.now) ≡ None) }
    ensures refused { IfErr result (λ e. first_refusal (warning_narrow_checks a.now warning.now) ≡ Some e) }
{
    if !warning.active {
        return Err(Refusal::NotActive);
    }
    if !warning.areas.has(a) {
        return Err(Refusal::AreaNotThere);
    }
    if warning.areas.len() <= 1 {
        return Err(Refusal::LastArea);
    }
    Ok(())
}

/// Whether the warning may be forgotten.
pub(crate) fn check_forget(warning: &Warning) -> Result<(), Refusal>
    ensures accepted { OnOk result (first_refusal (warning_forget_checks warning.now) ≡ None) }
    ensures refused { IfErr result (λ e. first_refusal (warning_forget_checks warning.now) ≡ Some e) }
{
    if warning.active {
        return Err(Refusal::StillActive);
    }
    Ok(())
}
