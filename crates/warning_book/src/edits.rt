//! The edits of a list of warnings that nothing forbids.

ghost use Rattle.std.specs.Prelude.{◌≡◌, ◌++◌, ◌∷◌, [], Some, true, false, bytes_eq, find, IfOk, IfErr, OnOk, OnErr};
ghost use Rattle.std.specs.List.{list_any};
ghost use Rattle.std.specs.Option.{option_map, option_and_then};
ghost use Rattle.common.specs.Order.{each_once, is_ascending};
ghost use Rattle.serials.specs.Serials.{next_of};
ghost use Rattle.warning_book.specs.Book.{has_number, has_none, names, number_lt, current_of, is_so, new_warning, updated, widened, narrowed, stopped, edited, without};
ghost use Rattle.warning_book.specs.declared.refusal.Refusal.TheVariants as refusal;

use crate::content::Content;
use crate::lookups::place_of;
use crate::notice::Notice;
use crate::refusal::Refusal;
use crate::version::Version;
use crate::versions::Versions;
use crate::warning::Warning;
use crate::warning_areas::WarningAreas;
use crate::warning_id::WarningId;
use common::Name;
use serials::Serial;
use std::alloc::{AllocError, Global};

/// Puts a new warning last.
pub(crate) fn issue(
    alloc: Global,
    warnings: &mut Vec<Warning>,
    number: WarningId,
    notice: &Notice,
    areas: &[Name],
    serial: Serial,
) -> Result<(), AllocError>
    requires { each_once bytes_eq areas.now ≡ true }
    ensures issued { OnOk result (warnings.new.items ≡ warnings.old.items ++ new_warning number notice.now areas.now serial ∷ []) }
    ensures unchanged { OnErr result (warnings.new.items ≡ warnings.old.items) }
{
    let content = notice.content.copied(alloc)?;
    let mut versions = Versions::new(alloc);
    versions.push(Version { serial, content })?;
    let warning = Warning {
        number,
        message_id: notice.message_id,
        versions,
        areas: WarningAreas::copied(alloc, areas)?,
        active: true,
    };
    warnings.push(warning)?;
    Ok(())
}

/// Makes the content the warning's current version, and answers its serial number.
fn update_one(alloc: Global, warning: &mut Warning, content: &Content) -> Result<Serial, Refusal>
    requires { has_none warning.old ≡ false }
    ensures serial { IfOk result (λ s. option_map next_of (current_of warning.old) ≡ Some s) }
    ensures updated { OnOk result (warning.new ≡ updated content.now warning.old) }
    ensures memory { IfErr result (λ e. e ≡ refusal.Memory) }
    ensures unchanged { OnErr result (warning.new ≡ warning.old) }
{
    let Some(serial) = warning.next_serial() else {
        return Err(Refusal::NoSuchWarning);
    };
    let content = content.copied(alloc)?;
    warning.versions.follow(Version { serial, content })?;
    Ok(serial)
}

/// Makes the content the current version of the warning of that number, and answers its serial number.
pub(crate) fn update(
    alloc: Global,
    warnings: &mut Vec<Warning>,
    number: WarningId,
    content: &Content,
) -> Result<Serial, Refusal>
    requires ordered { is_ascending number_lt warnings.old.items ≡ true }
    requires there { list_any (has_number number) warnings.old.items ≡ true }
    requires some { is_so number has_none warnings.old.items ≡ false }
    ensures serial { IfOk result (λ s. option_map next_of (option_and_then current_of (find (has_number number) warnings.old.items)) ≡ Some s) }
    ensures updated { OnOk result (warnings.new.items ≡ edited number (updated content.now) warnings.old.items) }
    ensures memory { IfErr result (λ e. e ≡ refusal.Memory) }
    ensures unchanged { OnErr result (warnings.new.items ≡ warnings.old.items) }
{
    let place = place_of(warnings.as_slice(), number);
    if place >= warnings.len() {
        return Err(Refusal::NoSuchWarning);
    }
    let warning = &mut warnings[place];
    let serial = update_one(alloc, warning, content)?;
    Ok(serial)
}

fn widen_one(alloc: Global, warning: &mut Warning, a: &Name) -> Result<(), AllocError>
    requires { names a.now warning.old ≡ false }
    ensures widened { OnOk result (warning.new ≡ widened a.now warning.old) }
    ensures unchanged { OnErr result (warning.new ≡ warning.old) }
{
    warning.areas.add(a.copied(alloc)?)?;
    Ok(())
}

/// Puts the area last among those of the warning of that number.
pub(crate) fn widen(
    alloc: Global,
    warnings: &mut Vec<Warning>,
    number: WarningId,
    a: &Name,
) -> Result<(), AllocError>
    requires ordered { is_ascending number_lt warnings.old.items ≡ true }
    requires new { is_so number (names a.now) warnings.old.items ≡ false }
    ensures widened { OnOk result (warnings.new.items ≡ edited number (widened a.now) warnings.old.items) }
    ensures unchanged { OnErr result (warnings.new.items ≡ warnings.old.items) }
{
    let place = place_of(warnings.as_slice(), number);
    if place < warnings.len() {
        let warning = &mut warnings[place];
        widen_one(alloc, warning, a)?;
    }
    Ok(())
}

fn narrow_one(warning: &mut Warning, a: &Name)
    ensures { warning.new ≡ narrowed a.now warning.old }
{
    warning.areas.cut(a);
}

/// Takes the area out of those of the warning of that number; the rest keep their order.
pub(crate) fn narrow(warnings: &mut Vec<Warning>, number: WarningId, a: &Name)
    requires ordered { is_ascending number_lt warnings.old.items ≡ true }
    ensures { warnings.new.items ≡ edited number (narrowed a.now) warnings.old.items }
{
    let place = place_of(warnings.as_slice(), number);
    if place < warnings.len() {
        let warning = &mut warnings[place];
        narrow_one(warning, a);
    }
}

fn stop_one(warning: &mut Warning)
    ensures { warning.new ≡ stopped warning.old }
{
    warning.active = false;
}

/// Stops the warning of that number.
pub(crate) fn stop(warnings: &mut Vec<Warning>, number: WarningId)
    requires ordered { is_ascending number_lt warnings.old.items ≡ true }
    ensures { warnings.new.items ≡ edited number stopped warnings.old.items }
{
    let place = place_of(warnings.as_slice(), number);
    if place < warnings.len() {
        let warning = &mut warnings[place];
        stop_one(warning);
    }
}

/// Takes the warning of that number out.
pub(crate) fn forget(warnings: &mut Vec<Warning>, number: WarningId)
    ensures { warnings.new.items ≡ without number warnings.old.items }
{
    warnings.retain(|warning| warning.number != number);
}
