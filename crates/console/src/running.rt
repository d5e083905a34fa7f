//! A run of the program.

ghost use Rattle.std.specs.Prelude.{◌≡◌, ◌≤◌, map, string_bytes};
ghost use Rattle.console.specs.Replays.{new_session};
ghost use Rattle.console.specs.Running.{Ends, IsTold, Runs};
ghost use Rattle.console_text.specs.Faults.{fault_words};

use crate::replaying::replay;
use centre_events::network::Network;
use console_text::asked::read_options;
use console_text::no_run::NoRun;
use console_text::{ReplayFault, fault_words};
use framing::{Sink, Source, write_all};
use std::alloc::Global;

/// Runs the program on the words of its command line, of which its own name is the first. The answer is its exit
/// status, and `errors` gets what is said on standard error. `None` where the words ask for the server, which is not run
/// here: nothing is read or written then.
///
/// 0: all of the input was read, or help was asked for. 1: a fault ended the run, which is said as `cbc: ` and its
/// words. 2: the command line was refused, with clap's text, or with `cbc: bad plmn`, `cbc: bad broadcasts` or
/// `cbc: bad journal` where that had none.
pub fn run<R: Source, W: Sink, E: Sink>(
    alloc: Global,
    words: &[String],
    reader: &mut R,
    writer: &mut W,
    errors: &mut E,
) -> Option<u8>
    ensures { Ends (map string_bytes words.now)
        (record { input = R.remaining reader.old; reads = R.calls reader.old; failed_reads = R.failures reader.old; output = W.written writer.old; failed_writes = W.failures writer.old; errors = E.written errors.old; unsaid = E.failures errors.old })
        (record { input = R.remaining reader.new; reads = R.calls reader.new; failed_reads = R.failures reader.new; output = W.written writer.new; failed_writes = W.failures writer.new; errors = E.written errors.new; unsaid = E.failures errors.new }) result }
{
    match read_options(alloc, words) {
        Ok(options) => {
            let (network, limit) = (options.network, options.journal_limit);
            Some(run_script(alloc, network, limit, reader, writer, errors))
        }
        Err(NoRun::Serve) => None,
        Err(NoRun::Help(text)) => match write_all(writer, text.as_bytes()) {
            Ok(()) => Some(0),
            Err(_) => {
                tell(errors, fault_words(ReplayFault::WriteFault));
                Some(1)
            }
        },
        Err(NoRun::Refused(text)) => {
            tell(errors, text.as_bytes());
            Some(2)
        }
        Err(NoRun::BadPlmn) => {
            tell(errors, b"cbc: bad plmn\n");
            Some(2)
        }
        Err(NoRun::BadBroadcasts) => {
            tell(errors, b"cbc: bad broadcasts\n");
            Some(2)
        }
        Err(NoRun::BadJournal) => {
            tell(errors, b"cbc: bad journal\n");
            Some(2)
        }
        Err(NoRun::Memory) => {
            tell(errors, fault_words(ReplayFault::Memory));
            Some(1)
        }
    }
}

/// Runs a script on a centre of the network whose journal holds `journal_limit` entries. The answer is the exit status of
/// the program: 0 where all of the input was read, or 1 where a fault ended the run, which is said as `cbc: ` and its words.
pub fn run_script<R: Source, W: Sink, E: Sink>(
    alloc: Global,
    network: Network,
    journal_limit: u32,
    reader: &mut R,
    writer: &mut W,
    errors: &mut E,
) -> u8
    requires { journal_limit ≤ 4000000 }
    ensures { Runs (new_session network journal_limit)
        (record { input = R.remaining reader.old; reads = R.calls reader.old; failed_reads = R.failures reader.old; output = W.written writer.old; failed_writes = W.failures writer.old; errors = E.written errors.old; unsaid = E.failures errors.old })
        (record { input = R.remaining reader.new; reads = R.calls reader.new; failed_reads = R.failures reader.new; output = W.written writer.new; failed_writes = W.failures writer.new; errors = E.written errors.new; unsaid = E.failures errors.new }) result }
{
    match replay(alloc, reader, writer, network, journal_limit) {
        Ok(()) => 0,
        Err(fault) => {
            tell(errors, fault_words(fault));
            1
        }
    }
}

/// Says the text. What can't be said is left out: there is nowhere to say that.
fn tell<E: Sink>(errors: &mut E, text: &[u8])
    ensures { IsTold (E.written errors.old) (E.written errors.new) (E.failures errors.old) (E.failures errors.new) text.now }
{
    let _ = write_all(errors, text);
}
