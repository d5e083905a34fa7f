//! For which versions queries are due, and when.

ghost use Rattle.std.specs.Prelude.{◌≡◌, ◌≤◌, OnErr, OnOk};
ghost use Rattle.std.specs.List.{filter, list_any};
ghost use Rattle.std.specs.Vec.{vec_capacity, vec_len};
ghost use Rattle.link_rules.specs.QueryPaces.{among, due_first, is_of, with_due, with_new, without};

use crate::version::Version;
use crate::version_due::VersionDue;
use std::alloc::AllocError;

/// Whether the version is there.
fn has(all: &[VersionDue], version: Version) -> bool
    ensures { result ≡ list_any (is_of version) all.now }
{
    all.iter().any(|other| other.version.is_same(&version))
}

/// Whether it is one of these.
pub(crate) fn is_one_of(versions: &[Version], version: Version) -> bool
    ensures { result ≡ among versions.now version }
{
    versions.iter().any(|other| other.is_same(&version))
}

/// Takes out the version.
fn take_out(all: &mut Vec<VersionDue>, version: Version)
    ensures left { all.new.items ≡ without version all.old.items }
    ensures capacity { vec_capacity all.new ≡ vec_capacity all.old }
    ensures bound { vec_len all.new ≤ vec_len all.old }
{
    all.retain(|other| !other.version.is_same(&version));
}

/// Has a query for the version due then, the last of all. At an `Err` nothing changed.
pub(crate) fn put(all: &mut Vec<VersionDue>, version: Version, due: u64) -> Result<(), AllocError>
    ensures put { OnOk result (all.new.items ≡ with_due version due all.old.items) }
    ensures unchanged { OnErr result (all.new.items ≡ all.old.items) }
{
    all.try_reserve(1)?;
    take_out(all, version);
    all.push_reserved(VersionDue { version, due });
    Ok(())
}

/// Has a query for the version due then, where it isn't there. At an `Err` nothing changed.
pub(crate) fn put_new(
    all: &mut Vec<VersionDue>,
    version: Version,
    due: u64,
) -> Result<(), AllocError>
    ensures put { OnOk result (all.new.items ≡ with_new version due all.old.items) }
    ensures unchanged { OnErr result (all.new.items ≡ all.old.items) }
{
    if has(all.as_slice(), version) {
        return Ok(());
    }
    all.push(VersionDue { version, due })?;
    Ok(())
}

/// Takes out all but these versions.
pub(crate) fn keep_only(all: &mut Vec<VersionDue>, versions: &[Version])
    ensures { all.new.items ≡ filter (λ other. among versions.now other.version) all.old.items }
{
    all.retain(|other| is_one_of(versions, other.version));
}

/// The first version for which a query is due.
pub(crate) fn first_due(all: &[VersionDue], now: u64) -> Option<Version>
    ensures { result ≡ due_first now all.now }
{
    for other in all {
        if other.due <= now {
            return Some(other.version);
        }
    }
    None
}
