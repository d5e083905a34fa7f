//! Why a link ended, by what its two sides know.

ghost use Rattle.std.specs.Prelude.{◌≡◌};
ghost use Rattle.server_ports.specs.Causes.{cause_of, knows_why, said_of, shut_end};

use crate::broken::Broken;
use crate::link_end::LinkEnd;
use crate::shut::Shut;
use crate::side_end::SideEnd;
use link_worker::End;

/// Why this program ended it.
fn shut_end(shut: Shut) -> LinkEnd
    ensures { result ≡ shut_end shut }
{
    match shut {
        Shut::Replaced => LinkEnd::Replaced,
        Shut::Cut => LinkEnd::Cut,
        Shut::Unanswered { seconds } => LinkEnd::Unanswered { seconds },
        Shut::ResetUnanswered { seconds } => LinkEnd::ResetUnanswered { seconds },
        Shut::Silent { seconds } => LinkEnd::Silent { seconds },
        Shut::Unnamed => LinkEnd::Unnamed,
        Shut::NotReset => LinkEnd::NotReset,
    }
}

/// What the end of one side says. Of a link that isn't up any more for the centre, it is that the operator cut it: nobody else ends
/// a link there while its sides go on.
fn said_of(side: SideEnd) -> LinkEnd
    ensures { result ≡ said_of side }
{
    match (side.end, side.broken) {
        (End::ReadFault | End::WriteFault, Some(Broken::Closed)) => LinkEnd::Side(End::PeerEnded),
        (End::ReadFault | End::WriteFault, Some(Broken::Reset)) => LinkEnd::Reset,
        (End::ReadFault | End::WriteFault, Some(Broken::TimedOut)) => LinkEnd::TimedOut,
        (End::Superseded, _) => LinkEnd::Cut,
        (end, _) => LinkEnd::Side(end),
    }
}

/// Whether the side that reads ended by what the BSC did or sent, or since the centre refused it; and not since the link had
/// ended.
fn knows_why(read: SideEnd) -> bool
    ensures { result ≡ knows_why read }
{
    match (read.end, read.broken) {
        (End::GateShut | End::Superseded, _) => false,
        (End::ReadFault, None | Some(Broken::Otherwise)) => false,
        _ => true,
    }
}

/// What ended a link. `shut` is why this program ended it, `read` how its read side ended, and `written` how its write side had
/// ended before that. Where a write had failed and the read side knows why, that is the cause.
pub fn cause_of(shut: Option<Shut>, read: SideEnd, written: Option<SideEnd>) -> LinkEnd
    ensures { result ≡ cause_of shut read written }
{
    match (shut, written) {
        (Some(shut), _) => shut_end(shut),
        (None, None) => said_of(read),
        (None, Some(written)) => {
            if written.end == End::WriteFault && knows_why(read) {
                said_of(read)
            } else {
                said_of(written)
            }
        }
    }
}
