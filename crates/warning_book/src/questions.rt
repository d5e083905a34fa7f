//! What a list of warnings tells of an area, a message identifier or a serial number.

ghost use Rattle.std.specs.Prelude.{◌≡◌, ◌++◌, ◌∷◌, [], true, find, nat_eq, IfOk, OnOk, if◌then◌else◌};
ghost use Rattle.std.specs.List.{list_any};
ghost use Rattle.std.specs.Option.{option_map, option_copied};
ghost use Rattle.warning_book.specs.Book.{names, names_one_of, numbers, naming, naming_one_of, versions_if, content_of, codes_if, codes_of};
ghost use Rattle.warning_book.specs.Classes.{have_classes};
ghost use Rattle.warning_book.specs.ClassedNames.{names_of};

use crate::classed_name::ClassedName;
use crate::classes::Classes;
use crate::content::Content;
use crate::version::Version;
use crate::warning::Warning;
use crate::warning_id::WarningId;
use common::Name;
use serials::Serial;
use std::alloc::{AllocError, Global};

/// Whether one of the warnings names the area.
pub(crate) fn names_area(warnings: &[Warning], a: &Name) -> bool
    ensures { result ≡ list_any (names a.now) warnings.now }
{
    warnings.iter().any(|warning| warning.areas.has(a))
}

/// The numbers of the warnings, in order.
pub(crate) fn numbers(alloc: Global, warnings: &[Warning]) -> Result<Vec<WarningId>, AllocError>
    ensures { IfOk result (λ v. v.items ≡ numbers warnings.now) }
{
    let mut all = Vec::new(alloc);
    for warning in warnings {
        all.push(warning.number)?;
    }
    Ok(all)
}

/// Puts the number last if the warning names the area.
fn put_naming(found: &mut Vec<WarningId>, warning: &Warning, a: &Name) -> Result<(), AllocError>
    ensures { OnOk result (found.new.items ≡ found.old.items ++ (if names a.now warning.now then warning.now.number ∷ [] else [])) }
{
    if warning.areas.has(a) {
        found.push(warning.number)?;
    }
    Ok(())
}

/// The numbers of the warnings that name the area, in order.
#[tactic(auto, using(crate::proofs::QuestionLemmas::naming_more))]
pub(crate) fn naming(
    alloc: Global,
    warnings: &[Warning],
    a: &Name,
) -> Result<Vec<WarningId>, AllocError>
    ensures { IfOk result (λ v. v.items ≡ naming a.now warnings.now) }
{
    let mut found = Vec::new(alloc);
    for warning in warnings {
        put_naming(&mut found, warning, a)?;
    }
    Ok(found)
}

/// The names with their classes.
fn classed_names<'a>(alloc: Global, names: &'a [Name]) -> Result<Vec<ClassedName<'a>>, AllocError>
    ensures { IfOk result (λ all. names_of all.items ≡ names.now) }
{
    let mut all = Vec::with_capacity(alloc, names.len())?;
    for name in names {
        all.push(ClassedName::of(name))?;
    }
    Ok(all)
}

/// Whether the warning names one of the areas.
fn names_one_classed(warning: &Warning, areas: &[ClassedName<'_>]) -> bool
    ensures { result ≡ list_any (λ a. names a.name.now warning.now) areas.now }
{
    areas.iter().any(|a| warning.areas.has_classed(a))
}

/// The same, where the classes are those of the areas: most warnings that name none are so told at once.
#[tactic(auto, using(crate::proofs::QuestionLemmas::names_classed))]
fn names_one_of(warning: &Warning, areas: &[ClassedName<'_>], classes: Classes) -> bool
    requires { have_classes classes.digits (names_of areas.now) ≡ true }
    ensures { result ≡ names_one_of (names_of areas.now) warning.now }
{
    warning.areas.may_have_one_of(classes) && names_one_classed(warning, areas)
}

/// Puts the number last if the warning names one of the areas. The classes are theirs.
fn put_naming_one_of(
    found: &mut Vec<WarningId>,
    warning: &Warning,
    areas: &[ClassedName<'_>],
    classes: Classes,
) -> Result<(), AllocError>
    requires { have_classes classes.digits (names_of areas.now) ≡ true }
    ensures { OnOk result (found.new.items ≡ found.old.items ++ (if names_one_of (names_of areas.now) warning.now then warning.now.number ∷ [] else [])) }
{
    if names_one_of(warning, areas, classes) {
        found.push(warning.number)?;
    }
    Ok(())
}

/// The numbers of the warnings that name one of the areas, in order.
#[tactic(auto, using(crate::proofs::QuestionLemmas::naming_one_of_more))]
pub(crate) fn naming_one_of(
    alloc: Global,
    warnings: &[Warning],
    areas: &[Name],
) -> Result<Vec<WarningId>, AllocError>
    ensures { IfOk result (λ v. v.items ≡ naming_one_of areas.now warnings.now) }
{
    let classes = Classes::of(areas);
    let asked = classed_names(alloc, areas)?;
    let mut found = Vec::new(alloc);
    for warning in warnings {
        put_naming_one_of(&mut found, warning, asked.as_slice(), classes)?;
    }
    Ok(found)
}

/// Puts the code of the warning last if it has the message identifier.
fn put_code(codes: &mut Vec<u16>, warning: &Warning, message_id: u16) -> Result<(), AllocError>
    ensures { OnOk result (codes.new.items ≡ codes.old.items ++ codes_if message_id warning.now) }
{
    if warning.message_id == message_id {
        if let Some(serial) = warning.serial() {
            codes.push(serial.code())?;
        }
    }
    Ok(())
}

/// The codes of the warnings with this message identifier, in order.
#[tactic(auto, using(crate::proofs::QuestionLemmas::codes_more))]
pub(crate) fn codes_of(
    alloc: Global,
    warnings: &[Warning],
    message_id: u16,
) -> Result<Vec<u16>, AllocError>
    ensures { IfOk result (λ v. v.items ≡ codes_of message_id warnings.now) }
{
    let mut codes = Vec::new(alloc);
    for warning in warnings {
        put_code(&mut codes, warning, message_id)?;
    }
    Ok(codes)
}

/// The content of the first of the versions that has the serial number.
fn content_among(versions: &[Version], serial: Serial) -> Option<&Content>
    ensures { option_copied result ≡ option_map (λ v. v.content) (find (λ v. nat_eq v.serial serial) versions.now) }
{
    versions
        .iter()
        .find(|version| version.serial == serial)
        .map(|version| &version.content)
}

/// The content of the warning's version that has the serial number; none where the message identifier is another.
fn content_in(warning: &Warning, message_id: u16, serial: Serial) -> Option<&Content>
    ensures { option_copied result ≡ option_map (λ v. v.content) (find (λ v. nat_eq v.serial serial) (versions_if message_id warning.now)) }
{
    if warning.message_id != message_id {
        return None;
    }
    content_among(warning.versions.as_slice(), serial)
}

/// The content that a message identifier and a serial number stand for.
pub(crate) fn content_of(warnings: &[Warning], message_id: u16, serial: Serial) -> Option<&Content>
    ensures { option_copied result ≡ content_of message_id serial warnings.now }
{
    for warning in warnings {
        if let Some(content) = content_in(warning, message_id, serial) {
            return Some(content);
        }
    }
    None
}
