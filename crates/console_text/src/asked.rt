//! What the command line asks for.

ghost use Rattle.std.specs.Prelude.{◌≡◌, ◌≤◌, map, string_bytes, IfOk, IfErr, IfSome};
ghost use Rattle.clap.specs.Words.{kind_of, subcommand_rows_of};
ghost use Rattle.console_text.specs.CommandLine.{most_entries, meets_serve, replay_rows, network_in, broadcasts_in, limit_in, Asks, ComesTo, Refuses};

use crate::no_run::NoRun;
use crate::options::{MOST_ENTRIES, command_line};
use centre_events::network::Network;
use clap::error::ErrorKind;
use clap::{ArgMatches, Error};
use hex::FromHex;
use std::alloc::Global;

/// What a script is run with.
#[derive(Clone, Copy, Debug)]
pub struct Options {
    /// The network, and how many broadcasts a message requests.
    pub network: Network,
    pub journal_limit: u32,
    ghost few: { journal_limit ≤ most_entries },
}

/// What the words ask for; the program's own is the first.
pub fn read_options<'a>(alloc: Global, words: &'a [String]) -> Result<Options, NoRun>
    ensures asked { IfOk result (λ options. Asks (map string_bytes words.now) options.network options.journal_limit) }
    ensures refused { IfErr result (Refuses (map string_bytes words.now)) }
{
    let matches = match command_line(alloc)?.try_get_matches_from(words) {
        Ok(matches) => matches,
        Err(error) => return Err(no_run(alloc, &error)),
    };
    if asks_server(&matches) {
        return Err(NoRun::Serve);
    }
    let Some(plmn) = asked_plmn(&matches) else {
        return Err(NoRun::BadPlmn);
    };
    let Some(broadcasts) = asked_broadcasts(&matches) else {
        return Err(NoRun::BadBroadcasts);
    };
    let Some(journal_limit) = asked_journal(&matches) else {
        return Err(NoRun::BadJournal);
    };
    Ok(Options {
        network: Network { plmn, broadcasts },
        journal_limit,
    })
}

/// Whether the server is asked for.
fn asks_server(matches: &ArgMatches<'_>) -> bool
    ensures { result ≡ meets_serve (subcommand_rows_of matches.now) }
{
    matches.subcommand_matches("serve").is_some()
}

/// The network code; `None` where it isn't six hexadecimal digits.
fn asked_plmn(matches: &ArgMatches<'_>) -> Option<[u8; 3]>
    ensures { result ≡ network_in (replay_rows (subcommand_rows_of matches.now)) }
{
    let replay = matches.subcommand_matches("replay")?;
    <[u8; 3] as FromHex>::from_hex(replay.get_str("plmn")?).ok()
}

/// How many broadcasts a message requests; `None` where that isn't a number from 0 to 65,535. The parser refuses other
/// values, but no contract of its names the values of a command below the first.
fn asked_broadcasts(matches: &ArgMatches<'_>) -> Option<u16>
    ensures { result ≡ broadcasts_in (replay_rows (subcommand_rows_of matches.now)) }
{
    let replay = matches.subcommand_matches("replay")?;
    replay.get_one::<u16>("broadcasts")
}

/// How many entries the journal may hold; `None` where that isn't a number from 1 to 4,000,000. The parser refuses
/// other numbers, but no contract of its names the values of a command below the first.
fn asked_journal(matches: &ArgMatches<'_>) -> Option<u32>
    ensures asked { result ≡ limit_in (replay_rows (subcommand_rows_of matches.now)) }
    ensures few { IfSome result (λ limit. limit ≤ most_entries) }
{
    let replay = matches.subcommand_matches("replay")?;
    match replay.get_one::<u32>("journal") {
        Some(limit @ 1..=MOST_ENTRIES) => Some(limit),
        _ => None,
    }
}

/// Why the parser of command lines gave no matches.
fn no_run(alloc: Global, error: &Error) -> NoRun
    ensures memory { kind_of error.now ≡ ErrorKind.OutOfMemory → result ≡ NoRun.Memory }
    ensures kind { ComesTo (kind_of error.now) result }
{
    if error.kind() == ErrorKind::OutOfMemory {
        return NoRun::Memory;
    }
    let Ok(text) = format!(in alloc; "{error}") else {
        return NoRun::Memory;
    };
    if error.use_stderr() {
        NoRun::Refused(text)
    } else {
        NoRun::Help(text)
    }
}
