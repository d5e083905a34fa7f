//! Which warnings are emergencies, and which are tests.

ghost use Rattle.std.specs.Prelude.{◌≡◌};
ghost use Rattle.status_pages.specs.Kinds.{is_emergency, is_emergency_kind, is_stopped_test, is_test_id};

use centre_past::lists::WarningRow;
use warning_book::Kind;

fn is_emergency_kind(kind: Kind) -> bool
    ensures { result ≡ is_emergency_kind kind }
{
    match kind {
        Kind::Emergency => true,
        Kind::Cbs => false,
    }
}

/// Whether the message identifier is that of a test or an exercise (TS 23.041, 9.4.1.2.2).
fn is_test_id(id: u16) -> bool
    ensures { result ≡ is_test_id id }
{
    id == 4355 || id == 4380 || id == 4381 || id == 4393 || id == 4394 || id == 4398 || id == 4399
}

/// Whether the warning is a test or an exercise that was stopped.
pub(crate) fn is_stopped_test(warning: &WarningRow) -> bool
    ensures { result ≡ is_stopped_test warning.now }
{
    !warning.is_active && is_test_id(warning.message_id)
}

/// Whether the warning is an emergency, and no such test.
pub(crate) fn is_emergency(warning: &WarningRow) -> bool
    ensures { result ≡ is_emergency warning.now }
{
    is_emergency_kind(warning.kind) && !is_stopped_test(warning)
}
