//! How often messages were broadcast: what a reply says of it, and what an event makes of what is kept (TS 48.049,
//! 8.2.10).

ghost use Rattle.std.specs.Prelude.{◌≡◌, true};
ghost use Rattle.std.specs.Option.{option_copied};
ghost use Rattle.centre_events.specs.Counts.{number_in, number_of, edit_count};
ghost use Rattle.centre_events.specs.Lookups.{AreCountsPlacedIn, ArePlacesOf};

use crate::answer::Answer;
use crate::count_places::CountPlaces;
use crate::effects::{is_given, is_of_warning};
use crate::lookups::{number_among, numbers_of};
use crate::reply_places::ReplyPlaces;
use cbsp_ie::Counts;
use cbsp_messages::Message;
use cell_register::BscId;
use common::Cell;
use coverage_plan::Edit;
use serials::Serial;
use warning_book::Warning;

/// The last number that the list gives of the cell, where there is such a list.
fn number_in(
    network: [u8; 3],
    list: Option<&Counts>,
    places: Option<&CountPlaces>,
    c: Cell,
) -> Option<u16>
    requires { AreCountsPlacedIn network (option_copied list) (option_copied places) }
    ensures { result ≡ number_in network (option_copied list.entry) c }
{
    match list {
        Some(list) => number_among(network, list.entries(), places, c),
        None => None,
    }
}

/// The number that is taken from a reply of the cell, where `old` is the serial number of the version that was on air, and
/// the places are those of the reply's entries. The centre's network is these three octets (TS 24.008, 10.5.1.3).
pub(crate) fn number_of(
    network: [u8; 3],
    message: &Message,
    places: &ReplyPlaces,
    old: Option<u16>,
    c: Cell,
) -> Option<u16>
    requires { ArePlacesOf network message.now places.now }
    ensures { result ≡ number_of network message.now old c }
{
    match old {
        Some(_) => number_in(network, numbers_of(message), places.counts.as_ref(), c),
        None => None,
    }
}

/// What an edit sets of a key of the BSC, from the warnings in the book before it.
pub(crate) fn edit_count(
    b: BscId,
    message_id: u16,
    serial: Serial,
    edit: &Edit,
    answer: &Answer,
    warnings: &[Warning],
) -> Option<u16>
    ensures { result ≡ edit_count b message_id serial edit.now answer.now warnings.now }
{
    match edit {
        Edit::RemoveBsc(other) if *other == b => Some(0),
        Edit::Update(number, _) if is_given(*number, message_id, serial, answer, warnings) => {
            Some(0)
        }
        Edit::Forget(number) if is_of_warning(*number, message_id, serial, warnings) => Some(0),
        _ => None,
    }
}
