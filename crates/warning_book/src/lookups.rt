//! What a list of warnings tells of one of them. They stand in the order of their numbers, so that a warning is found by
//! halves.

ghost use Rattle.std.specs.Prelude.{◌≡◌, true, false, ltb, find};
ghost use Rattle.std.specs.List.{position_or_len};
ghost use Rattle.std.specs.List.Sorted.{IsPartitionPoint};
ghost use Rattle.std.specs.Option.{option_map, option_and_then, option_copied};
ghost use Rattle.common.specs.Order.{is_ascending};
ghost use Rattle.warning_book.specs.Book.{has_number, number_lt, current_of, is_of_other_kind, is_so, areas_of, versions_of};

use crate::content::Content;
use crate::version::Version;
use crate::warning::Warning;
use crate::warning_id::WarningId;
use common::Name;
use serials::Serial;

/// Where the warnings of that number and of greater ones begin.
fn start_of(warnings: &[Warning], number: WarningId) -> usize
    requires { is_ascending number_lt warnings.now ≡ true }
    ensures { IsPartitionPoint (λ w. ltb w.number number ≡ true) (λ w. ltb w.number number ≡ false) warnings.now result }
{
    warnings.partition_point(|warning| warning.number.number() < number.number())
}

/// Where the warning of that number stands if none was forgotten between the first and this one.
fn likely_place(warnings: &[Warning], number: WarningId) -> usize {
    match warnings.first() {
        Some(first) => number.number().saturating_sub(first.number.number()) as usize,
        None => 0,
    }
}

/// Where the warning of that number stands, found by halves; past the last where there is none.
fn searched_place(warnings: &[Warning], number: WarningId) -> usize
    requires { is_ascending number_lt warnings.now ≡ true }
    ensures { result ≡ position_or_len (has_number number) warnings.now }
{
    let place = start_of(warnings, number);
    match warnings.get(place) {
        Some(warning) if warning.number == number => place,
        _ => warnings.len(),
    }
}

/// Where the warning of that number stands; past the last where there is none. It is first looked for where it likely is.
#[tactic(auto, using(crate::proofs::SearchLemmas::found_there))]
#[inline(always)]
pub(crate) fn place_of(warnings: &[Warning], number: WarningId) -> usize
    requires { is_ascending number_lt warnings.now ≡ true }
    ensures { result ≡ position_or_len (has_number number) warnings.now }
{
    let place = likely_place(warnings, number);
    match warnings.get(place) {
        Some(likely) if likely.number == number => place,
        _ => searched_place(warnings, number),
    }
}

/// The warning of that number.
#[inline(always)]
pub(crate) fn find(warnings: &[Warning], number: WarningId) -> Option<&Warning>
    requires { is_ascending number_lt warnings.now ≡ true }
    ensures { option_copied result ≡ find (has_number number) warnings.now }
{
    warnings.get(place_of(warnings, number))
}

/// Whether the warning is there and active.
#[tactic(auto, using(crate::specs::Laws::found_so, crate::proofs::FoundLemmas::so_absent))]
pub(crate) fn is_active(warnings: &[Warning], number: WarningId) -> bool
    requires { is_ascending number_lt warnings.now ≡ true }
    ensures { result ≡ is_so number (λ w. w.active) warnings.now }
{
    match find(warnings, number) {
        Some(warning) => warning.active,
        None => false,
    }
}

/// Whether the warning is there, and the content is for one of the other kind.
#[tactic(auto, using(crate::specs::Laws::found_so, crate::proofs::FoundLemmas::so_absent))]
pub(crate) fn is_of_other_kind(warnings: &[Warning], number: WarningId, content: &Content) -> bool
    requires { is_ascending number_lt warnings.now ≡ true }
    ensures { result ≡ is_so number (is_of_other_kind content.now) warnings.now }
{
    match find(warnings, number) {
        Some(warning) => content.kind() != warning.kind(),
        None => false,
    }
}

/// The serial number of the warning's current version.
pub(crate) fn current(warnings: &[Warning], number: WarningId) -> Option<Serial>
    requires { is_ascending number_lt warnings.now ≡ true }
    ensures { result ≡ option_and_then current_of (find (has_number number) warnings.now) }
{
    find(warnings, number).and_then(|warning| warning.serial())
}

/// The warning's message identifier.
pub(crate) fn message_id(warnings: &[Warning], number: WarningId) -> Option<u16>
    requires { is_ascending number_lt warnings.now ≡ true }
    ensures { result ≡ option_map (λ w. w.message_id) (find (has_number number) warnings.now) }
{
    find(warnings, number).map(|warning| warning.message_id)
}

/// The areas of the warning; none where it isn't there.
#[tactic(auto, using(crate::proofs::FoundLemmas::areas_found, crate::proofs::FoundLemmas::areas_absent))]
pub(crate) fn areas_of(warnings: &[Warning], number: WarningId) -> &[Name]
    requires { is_ascending number_lt warnings.now ≡ true }
    ensures { result.now ≡ areas_of number warnings.now }
{
    match find(warnings, number) {
        Some(warning) => warning.areas.as_slice(),
        None => &[],
    }
}

/// The versions of the warning; none where it isn't there.
#[tactic(auto, using(crate::proofs::FoundLemmas::versions_found, crate::proofs::FoundLemmas::versions_absent))]
pub(crate) fn versions_of(warnings: &[Warning], number: WarningId) -> &[Version]
    requires { is_ascending number_lt warnings.now ≡ true }
    ensures { result.now ≡ versions_of number warnings.now }
{
    match find(warnings, number) {
        Some(warning) => warning.versions.as_slice(),
        None => &[],
    }
}
