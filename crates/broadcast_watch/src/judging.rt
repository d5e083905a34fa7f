//! Which numbers of broadcasts are judged, and how long one may stand still.

ghost use Rattle.std.specs.Prelude.{◌≡◌};
ghost use Rattle.std.specs.Option.{option_copied};
ghost use Rattle.broadcast_watch.specs.Judging.{first_marked, has_reached, info_of, is_marked, judged, should_rise, silence_of, takes_off_air};

use cbsp_ie::CountEntry;
use common::Cell;

/// The number that a BSC gives where there are that many broadcasts or more (TS 48.049, 8.2.10).
const MOST: u16 = 65_535;

/// The milliseconds of a repetition period of 1 (TS 23.041, 9.4.1.2).
const UNIT: u64 = 1_883;

/// After how many periods a number should have risen.
const PERIODS: u64 = 3;

/// Whether the entry names the cell, and its Number of Broadcasts Info isn't 0.
#[tactic(auto, unfolding(crate::specs::Judging::is_marked))]
fn is_marked(network: [u8; 3], cell: Cell, entry: &CountEntry) -> bool
    ensures { result ≡ is_marked network cell entry.now }
{
    entry.id.names(network, cell) && entry.info != 0
}

/// The first entry that names the cell and whose Number of Broadcasts Info isn't 0.
fn first_marked(network: [u8; 3], entries: &[CountEntry], cell: Cell) -> Option<&CountEntry>
    ensures { option_copied result ≡ first_marked network entries.now cell }
{
    entries.iter().find(|entry| is_marked(network, cell, entry))
}

/// The Number of Broadcasts Info of a cell in the list of a reply (TS 48.049, 8.2.10): another than 0, where one of the entries that
/// name the cell has that. The centre's network is these three octets.
pub fn info_of(network: [u8; 3], entries: &[CountEntry], cell: Cell) -> u8
    ensures { result ≡ info_of network entries.now cell }
{
    match first_marked(network, entries, cell) {
        Some(entry) => entry.info,
        None => 0,
    }
}

/// Whether the message was broadcast as often as was asked; 0 asks for no end.
fn has_reached(asked: u16, count: u16) -> bool
    ensures { result ≡ has_reached asked count }
{
    asked != 0 && asked <= count
}

/// Whether the number should rise while the message is on air.
fn should_rise(period: u16, asked: u16, info: u8, count: u16) -> bool
    ensures { result ≡ should_rise period asked info count }
{
    period != 0 && info == 0 && count != MOST && !has_reached(asked, count)
}

/// The number of a reply, where it is judged: not that of a message without a period, nor one whose Number of Broadcasts Info isn't 0,
/// nor 65535, which can't rise, nor one that has reached the number of broadcasts that was asked for.
pub fn judged(period: u16, asked: u16, info: u8, count: Option<u16>) -> Option<u16>
    ensures { result ≡ judged period asked info count }
{
    match count {
        Some(count) if should_rise(period, asked, info, count) => Some(count),
        _ => None,
    }
}

/// For how many milliseconds the number of a message of that repetition period may stand still.
pub fn silence_of(period: u16) -> u64
    ensures { result ≡ silence_of period }
{
    u64::from(period) * UNIT * PERIODS
}

/// Whether a RESTART of that Broadcast Message Type and with that Recovery Indication takes messages with pages off the air (TS 48.049,
/// 8.2.18 and 8.2.24): it is of CBS, and data were lost.
pub fn takes_off_air(kind: u8, recovery: u8) -> bool
    ensures { result ≡ takes_off_air kind recovery }
{
    kind == 0 && recovery != 0
}
