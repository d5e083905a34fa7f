//! Which emergency messages a BSC has reported.

ghost use Rattle.std.specs.Prelude.{◌≡◌, ◌||◌, IfOk, OnOk};
ghost use Rattle.std.specs.List.{IsDistinct, list_any};
ghost use Rattle.link_resets.specs.Frames.{is_emergency, is_key_of, is_of_emergency, is_version, same_key};
ghost use Rattle.link_resets.specs.declared.emergency_key.EmergencyKey.{EmergencyKey as AKey};
ghost use Rattle.warning_book.specs.Content.{is_same_kind};
ghost use Rattle.warning_book.specs.declared.kind.Kind.TheVariants as a_kind;

use crate::emergency_key::EmergencyKey;
use centre_past::lists::WarningRow;
use centre_past::reported::ReportedKey;
use serials::Serial;
use std::alloc::{AllocError, Global};
use warning_book::Kind;

/// Whether the serial number differs at most in its update number from that of a current version, if there is one.
fn is_version(serial: Serial, current: Option<Serial>) -> bool
    ensures { result ≡ is_version serial current }
{
    match current {
        Some(current) => {
            serial.scope().number() == current.scope().number() && serial.code() == current.code()
        }
        None => false,
    }
}

/// Whether it is the kind of emergency warnings.
fn is_of_emergencies(kind: Kind) -> bool
    ensures { result ≡ is_same_kind kind a_kind.Emergency }
{
    match kind {
        Kind::Emergency => true,
        Kind::Cbs => false,
    }
}

/// Whether the key is that of a version of the warning, and this is an emergency warning.
fn is_of_emergency(warning: &WarningRow, key: ReportedKey) -> bool
    ensures { result ≡ is_of_emergency warning.now key }
{
    is_of_emergencies(warning.kind)
        && warning.message_id == key.message_id
        && is_version(key.serial, warning.serial)
}

/// Whether the key is that of a version of one of the warnings, and this is an emergency warning. Its message identifier doesn't say
/// it, since a warning of either kind may have any.
fn is_emergency(warnings: &[WarningRow], key: ReportedKey) -> bool
    ensures { result ≡ is_emergency warnings.now key }
{
    warnings.iter().any(|warning| is_of_emergency(warning, key))
}

/// Whether the key is among the others.
fn is_known(found: &[EmergencyKey], key: EmergencyKey) -> bool
    ensures { result ≡ list_any (same_key key) found.now }
{
    found.iter().any(|other| same_key(key, *other))
}

/// Puts the key behind the others, where it isn't among them.
#[tactic(auto, using(crate::proofs::KeyLemmas::known_key, crate::proofs::KeyLemmas::any_more, crate::proofs::KeyLemmas::once_more))]
fn add_key(found: &mut Vec<EmergencyKey>, key: EmergencyKey) -> Result<(), AllocError>
    requires { IsDistinct same_key found.old.items }
    ensures found { OnOk result ((k : AKey) → list_any (same_key k) found.new.items ≡ list_any (same_key k) found.old.items || same_key k key) }
    ensures once { OnOk result (IsDistinct same_key found.new.items) }
{
    if is_known(found.as_slice(), key) {
        return Ok(());
    }
    found.push(key)?;
    Ok(())
}

/// Whether the two are the same emergency message.
fn same_key(key: EmergencyKey, other: EmergencyKey) -> bool
    ensures { result ≡ same_key key other }
{
    key.message_id == other.message_id && key.serial == other.serial
}

#[tactic(auto, using(crate::proofs::KeyLemmas::once_none))]
/// The emergency messages that a BSC has reported, each once. `keys` is what it has reported, `warnings` are those in the book.
pub fn emergency_keys(
    alloc: Global,
    keys: &[ReportedKey],
    warnings: &[WarningRow],
) -> Result<Vec<EmergencyKey>, AllocError>
    ensures reported { IfOk result (λ found. (k : AKey) → list_any (same_key k) found.items ≡ list_any (is_key_of warnings.now k) keys.now) }
    ensures once { IfOk result (λ found. IsDistinct same_key found.items) }
{
    let mut found = Vec::new(alloc);
    for reported in keys {
        if is_emergency(warnings, *reported) {
            let key = EmergencyKey {
                message_id: reported.message_id,
                serial: reported.serial.to_u16(),
            };
            add_key(&mut found, key)?;
        }
    }
    Ok(found)
}
