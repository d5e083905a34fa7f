//! A run of the console over octets.

ghost use Rattle.std.specs.Prelude.{◌≡◌, ◌<◌, ◌≤◌, [], true, false, length, IfOk, IfErr, OnOk};
ghost use Rattle.std.specs.Io.KnownBytes.{IsAtEnd};
ghost use Rattle.framing.specs.Source.{FailsToRead, counted, with_failure};
ghost use Rattle.console.specs.Consoles.{Reads, ReadsAndStops, is_read_fault, is_write_fault};
ghost use Rattle.console.specs.Replays.{new_session, Replays, BreaksOff};

use crate::console::Console;
use centre_events::network::Network;
use console_text::ReplayFault;
use framing::{MOST_READS, Sink, Source};
use std::alloc::Global;

/// Reads once into the piece, and answers the lines that end. The answer is whether more may come.
#[tactic(auto, using(crate::proofs::StopLemmas::reads_none))]
fn turn_over<R: Source, W: Sink>(
    console: &mut Console,
    reader: &mut R,
    writer: &mut W,
    piece: &mut [u8],
) -> Result<bool, ReplayFault>
    requires { 0 < length piece.old }
    ensures ok { OnOk result (Reads console.old console.new (R.remaining reader.old) (R.remaining reader.new) (W.written writer.old) (W.written writer.new)) }
    ensures end { IfOk result (λ more. more ≡ false → IsAtEnd (R.remaining reader.new)) }
    ensures err { IfErr result (ReadsAndStops console.old (R.remaining reader.old) (R.remaining reader.new) (W.written writer.old) (W.written writer.new)) }
    ensures calls { R.calls reader.new ≡ counted (R.calls reader.old) 1 }
    ensures read_failed { R.failures reader.new ≡ with_failure (R.failures reader.old) (is_read_fault result) }
    ensures write_failed { W.failures writer.new ≡ with_failure (W.failures writer.old) (is_write_fault result) }
{
    match reader.read(piece) {
        Ok(count) => {
            console.take_piece(&piece[..count], writer)?;
            Ok(count > 0)
        }
        Err(_) => Err(ReplayFault::ReadFault),
    }
}

/// Reads once, and answers the lines that end. The answer is whether more may come.
fn turn<R: Source, W: Sink>(
    console: &mut Console,
    reader: &mut R,
    writer: &mut W,
) -> Result<bool, ReplayFault>
    ensures ok { OnOk result (Reads console.old console.new (R.remaining reader.old) (R.remaining reader.new) (W.written writer.old) (W.written writer.new)) }
    ensures end { IfOk result (λ more. more ≡ false → IsAtEnd (R.remaining reader.new)) }
    ensures err { IfErr result (ReadsAndStops console.old (R.remaining reader.old) (R.remaining reader.new) (W.written writer.old) (W.written writer.new)) }
    ensures calls { R.calls reader.new ≡ counted (R.calls reader.old) 1 }
    ensures read_failed { R.failures reader.new ≡ with_failure (R.failures reader.old) (is_read_fault result) }
    ensures write_failed { W.failures writer.new ≡ with_failure (W.failures writer.old) (is_write_fault result) }
{
    let mut piece = [0; 4096];
    turn_over(console, reader, writer, &mut piece)
}

/// Answers the lines that the reader gives, each at once, from a console that holds no part of a line. The reads are at most
/// 1,000,000,000,000.
fn answer_all<R: Source, W: Sink>(
    console: &mut Console,
    reader: &mut R,
    writer: &mut W,
) -> Result<(), ReplayFault>
    requires { console.old.begun ≡ [] }
    ensures all { OnOk result (Replays console.old.session (R.remaining reader.old) (R.remaining reader.new) (W.written writer.old) (W.written writer.new)) }
    ensures part { IfErr result (BreaksOff console.old.session (R.remaining reader.old) (R.remaining reader.new) (W.written writer.old) (W.written writer.new)) }
    ensures read_fault { is_read_fault result ≡ true → FailsToRead (R.calls reader.old) (R.calls reader.new) (R.failures reader.old) (R.failures reader.new) }
    ensures read_failed { is_read_fault result ≡ false → R.failures reader.new ≡ R.failures reader.old }
    ensures write_fault { W.failures writer.new ≡ with_failure (W.failures writer.old) (is_write_fault result) }
{
    for _turn in 0..MOST_READS {
        if !turn(console, reader, writer)? {
            console.end_line(writer)?;
            return Ok(());
        }
    }
    Err(ReplayFault::ReadFault)
}

/// Answers the lines that the reader gives, each at once, on a centre of the network whose journal holds
/// `journal_limit` entries. The reads are at most 1,000,000,000,000.
///
/// A line ends at 0A or at the end of the input; one 0D before that is dropped. Every bad line is answered and the
/// run goes on. At an `Err` what was written is a prefix of the text of lines that were read. At `ReadFault` every line
/// that had ended is answered, at `LongLine` every line before the long one. No clause says that an answer is written before
/// the next read: the contract has what was read and written in the end.
pub fn replay<R: Source, W: Sink>(
    alloc: Global,
    reader: &mut R,
    writer: &mut W,
    network: Network,
    journal_limit: u32,
) -> Result<(), ReplayFault>
    requires { journal_limit ≤ 4000000 }
    ensures all { OnOk result (Replays (new_session network journal_limit) (R.remaining reader.old) (R.remaining reader.new) (W.written writer.old) (W.written writer.new)) }
    ensures part { IfErr result (BreaksOff (new_session network journal_limit) (R.remaining reader.old) (R.remaining reader.new) (W.written writer.old) (W.written writer.new)) }
    ensures read_fault { is_read_fault result ≡ true → FailsToRead (R.calls reader.old) (R.calls reader.new) (R.failures reader.old) (R.failures reader.new) }
    ensures read_failed { is_read_fault result ≡ false → R.failures reader.new ≡ R.failures reader.old }
    ensures write_fault { W.failures writer.new ≡ with_failure (W.failures writer.old) (is_write_fault result) }
{
    let mut console = Console::new(alloc, network, journal_limit);
    answer_all(&mut console, reader, writer)
}
