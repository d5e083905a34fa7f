//! A console that follows the journal.

ghost use Rattle.journal_keeper.specs.Kept.{Covers};

use crate::connection::Connection;
use crate::entry_text::watch_text;
use crate::program::Program;
use journal_keeper::{KeptUpTo, Untold};
use server_operator::Operator;
use std::io::Write;
use std::os::unix::net::UnixStream;
use std::sync::Wait;
use std::sync::ledger::Ledger;

/// How many entries are handed on at once.
const MOST_ENTRIES: u64 = 100;

/// Writes the text, as what it tells is kept.
fn write_to(mut stream: &UnixStream, text: Untold<Vec<u8>>, kept: &KeptUpTo) -> bool
    requires { Covers kept.now text.place }
{
    let text = text.tell(kept);
    stream.write_all(text.as_slice()).is_ok()
}

/// Hands on the next entries behind the place, once they are kept. The answer is the place of the last; `None` where nothing more is
/// handed on.
fn hand_on<L: Ledger, P: Program, R: Wait>(
    rt: &R,
    operator: &Operator<'_, L, P>,
    stream: &UnixStream,
    place: u64,
) -> Option<u64> {
    let entries = operator.office.entries(rt, place, MOST_ENTRIES).ok()?;
    let made = watch_text(operator.alloc, place, &entries);
    drop(entries);
    let text = made.ok()?;
    let last = text.place();
    let kept = operator.server.kept(rt, last)?;
    if write_to(stream, text, &kept) {
        Some(last)
    } else {
        None
    }
}

/// Hands on the lines that were said on standard error behind that number. The answer is the number of the last; `None` where nothing
/// more is handed on.
fn hand_on_said<L: Ledger, P: Program, R: Wait>(
    rt: &R,
    operator: &Operator<'_, L, P>,
    mut stream: &UnixStream,
    place: u64,
) -> Option<u64> {
    if operator.server.said_count(rt) <= place {
        return Some(place);
    }
    let (last, text) = operator.server.said_after(rt, operator.alloc, place).ok()?;
    match stream.write_all(text.as_slice()) {
        Ok(()) => Some(last),
        Err(_) => None,
    }
}

/// Hands on the next entries, and the lines that were said. The answer is the numbers of the last ones; `None` where nothing more is
/// handed on.
fn hand_on_both<L: Ledger, P: Program, R: Wait>(
    rt: &R,
    operator: &Operator<'_, L, P>,
    stream: &UnixStream,
    place: u64,
    said: u64,
) -> Option<(u64, u64)> {
    let last = hand_on(rt, operator, stream, place)?;
    let last_said = hand_on_said(rt, operator, stream, said)?;
    Some((last, last_said))
}

/// Writes each entry of the journal to the connection as it comes, from now on, and each line that is said on standard error, until the
/// connection or the program ends. Of the entries that are there when the program is told to end none is left out.
pub(crate) fn follow<L: Ledger, P: Program, R: Wait>(
    rt: &R,
    operator: &Operator<'_, L, P>,
    connection: &Connection,
) {
    let mut place = operator.office.position(rt);
    let mut said = operator.server.said_count(rt);
    let mut interrupts = 0;
    connection.watch();
    for _ in rt.forever() {
        let progress = operator.office.wait_entries(rt, place, interrupts);
        let has_all = progress.position <= place;
        if (has_all && operator.server.is_ending(rt)) || connection.has_ended() {
            break;
        }
        // (an interruption that comes while entries are left is heard once they are handed on)
        if has_all {
            interrupts = progress.interrupts;
        }
        match hand_on_both(rt, operator, &connection.stream, place, said) {
            Some((last, last_said)) => {
                place = last;
                said = last_said;
            }
            None => break,
        }
    }
}
