//! Versions of warnings, as BSCs know them.

ghost use Rattle.std.specs.Prelude.{◌≡◌};
ghost use Rattle.broadcast_watch.specs.Versions.{is_among, is_version};

use link_rules::Version;

/// Whether the two are one.
pub(crate) fn is_version(version: Version, other: Version) -> bool
    ensures { result ≡ is_version version other }
{
    other.message_id == version.message_id && other.serial == version.serial
}

/// Whether the version is one of these.
pub(crate) fn is_among(versions: &[Version], version: Version) -> bool
    ensures { result ≡ is_among versions.now version }
{
    versions.iter().any(|other| is_version(version, *other))
}
