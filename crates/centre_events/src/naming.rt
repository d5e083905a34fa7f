//! Whether what is in flight names a version of a warning.

ghost use Rattle.std.specs.Prelude.{◌≡◌};
ghost use Rattle.std.specs.List.{list_any};
ghost use Rattle.centre_events.specs.Reported.{names_serial};

use crate::in_flight::InFlight;
use order_maker::OrderKind;
use serials::Serial;
use warning_book::Version;

/// Whether what is in flight writes, replaces, kills or asks for the version of that serial number.
pub fn names_serial(flight: &InFlight, serial: Serial) -> bool
    ensures { result ≡ names_serial flight.now serial }
{
    match flight {
        InFlight::Order(order) => match order.kind {
            OrderKind::Replace { old } => order.serial == serial || old == serial,
            OrderKind::Write | OrderKind::Kill => order.serial == serial,
        },
        InFlight::Query { serial: asked, .. } => *asked == serial,
    }
}

/// Whether it names one of the versions.
pub fn names_one(flight: &InFlight, versions: &[Version]) -> bool
    ensures { result ≡ list_any (λ v. names_serial flight.now v.serial) versions.now }
{
    versions
        .iter()
        .any(|version| names_serial(flight, version.serial))
}
