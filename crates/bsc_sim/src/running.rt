//! A conversation of a simulated BSC over a stream.

ghost use Rattle.std.specs.Prelude.{◌≡◌, ℕ, ◌∷◌, [], true, false, List, None, Option, IfErr, OnOk};
ghost use Rattle.std.specs.Io.KnownBytes.{Appends};
ghost use Rattle.framing.specs.Source.{FailsToRead, counted, with_failure};
ghost use Rattle.cbsp_messages.specs.Written.{Fits, frame_of};
ghost use Rattle.bsc_sim.specs.Bsc.{emptied};
ghost use Rattle.bsc_sim.specs.Conversation.{Breaks, Converses, Hears, HearsInPart, IsWaiting, Replies, SendsInPart, Turns, TurnsInPart, ends_by, frames_of, is_read_fault, is_write_fault, link_answer, opening};

use crate::bsc::Bsc;
use crate::choices::Choices;
use crate::end::SimEnd;
use crate::indications::restart_message;
use cbsp_messages::{Message, read, write};
use framing::{Frame, FrameFault, Framer, MOST_READS, Sink, Source, write_all};
use std::alloc::Global;

/// The types of RESET and KEEP ALIVE (3GPP TS 48.049, 8.2.3).
const RESET: u8 = 0x10;

const KEEP_ALIVE: u8 = 0x16;

/// The frame of a RESET COMPLETE of all cells: its type, the length of its body, and a Cell List of form All.
const RESET_COMPLETE: [u8; 8] = [0x11, 0x00, 0x00, 0x04, 0x04, 0x00, 0x01, 0x06];

/// The frame of a KEEP ALIVE COMPLETE.
const KEEP_ALIVE_COMPLETE: [u8; 4] = [0x17, 0x00, 0x00, 0x00];

/// Writes the octets of a frame.
#[tactic(auto, using(crate::proofs::ConversationLemmas::sent_in_part))]
fn send_frame<W: Sink>(octets: &[u8], writer: &mut W) -> Result<(), SimEnd>
    ensures ok { OnOk result (Appends (W.written writer.old) (W.written writer.new) octets.now) }
    ensures err { IfErr result (SendsInPart (octets.now ∷ []) (W.written writer.old) (W.written writer.new)) }
    ensures failed { W.failures writer.new ≡ with_failure (W.failures writer.old) (ends_by is_write_fault result) }
    ensures reads { ends_by is_read_fault result ≡ false }
{
    match write_all(writer, octets) {
        Ok(()) => Ok(()),
        Err(_) => Err(SimEnd::WriteFault),
    }
}

/// Writes the message.
fn send<W: Sink>(alloc: Global, message: Message, writer: &mut W) -> Result<(), SimEnd>
    requires { Fits message }
    ensures ok { OnOk result (Appends (W.written writer.old) (W.written writer.new) (frame_of message)) }
    ensures err { IfErr result (SendsInPart (frame_of message ∷ []) (W.written writer.old) (W.written writer.new)) }
    ensures failed { W.failures writer.new ≡ with_failure (W.failures writer.old) (ends_by is_write_fault result) }
    ensures reads { ends_by is_read_fault result ≡ false }
{
    let octets = write(alloc, &message);
    drop(message);
    let octets = octets?;
    send_frame(&octets, writer)
}

/// Takes every message off air, and writes the messages that say so.
fn open<W: Sink>(bsc: &mut Bsc, writer: &mut W) -> Result<(), SimEnd>
    ensures emptied { bsc.new ≡ emptied bsc.old }
    ensures ok { OnOk result (Appends (W.written writer.old) (W.written writer.new) (frames_of opening)) }
    ensures err { IfErr result (SendsInPart opening (W.written writer.old) (W.written writer.new)) }
    ensures failed { W.failures writer.new ≡ with_failure (W.failures writer.old) (ends_by is_write_fault result) }
    ensures reads { ends_by is_read_fault result ≡ false }
{
    bsc.clear();
    let first = restart_message(bsc.alloc(), 0, true)?;
    send(bsc.alloc(), first, writer)?;
    let second = restart_message(bsc.alloc(), 1, true)?;
    send(bsc.alloc(), second, writer)?;
    Ok(())
}

/// Reads the message of a frame, and writes the answer to it.
fn answer_message<W: Sink>(
    bsc: &mut Bsc,
    choices: &Choices,
    frame: &Frame,
    writer: &mut W,
) -> Result<(), SimEnd>
    requires { link_answer frame.now.kind ≡ None }
    ensures ok { OnOk result (Replies choices.now bsc.old (frame.now ∷ []) bsc.new (W.written writer.old) (W.written writer.new)) }
    ensures err { IfErr result (Breaks choices.now bsc.old (frame.now ∷ []) bsc.new (W.written writer.old) (W.written writer.new)) }
    ensures failed { W.failures writer.new ≡ with_failure (W.failures writer.old) (ends_by is_write_fault result) }
    ensures reads { ends_by is_read_fault result ≡ false }
{
    let message = read(bsc.alloc(), frame.kind, frame.body.as_slice())?;
    let reply = bsc.answer(&message, choices);
    drop(message);
    send(bsc.alloc(), reply?, writer)?;
    Ok(())
}

/// Writes the answer to a frame: of the link itself, or of a message.
fn answer_frame<W: Sink>(
    bsc: &mut Bsc,
    choices: &Choices,
    frame: &Frame,
    writer: &mut W,
) -> Result<(), SimEnd>
    ensures ok { OnOk result (Replies choices.now bsc.old (frame.now ∷ []) bsc.new (W.written writer.old) (W.written writer.new)) }
    ensures err { IfErr result (Breaks choices.now bsc.old (frame.now ∷ []) bsc.new (W.written writer.old) (W.written writer.new)) }
    ensures failed { W.failures writer.new ≡ with_failure (W.failures writer.old) (ends_by is_write_fault result) }
    ensures reads { ends_by is_read_fault result ≡ false }
{
    match frame.kind {
        RESET => {
            bsc.clear();
            send_frame(&RESET_COMPLETE, writer)
        }
        KEEP_ALIVE => send_frame(&KEEP_ALIVE_COMPLETE, writer),
        _ => answer_message(bsc, choices, frame, writer),
    }
}

/// Answers the frames that are ready.
fn answer_ready<W: Sink>(
    bsc: &mut Bsc,
    choices: &Choices,
    framer: &mut Framer,
    writer: &mut W,
) -> Result<(), SimEnd>
    ensures ok { OnOk result (Replies choices.now bsc.old framer.old.frames bsc.new (W.written writer.old) (W.written writer.new)) }
    ensures err { IfErr result (Breaks choices.now bsc.old framer.old.frames bsc.new (W.written writer.old) (W.written writer.new)) }
    ensures drained { OnOk result (framer.new.frames ≡ []) }
    ensures rest { framer.new.rest ≡ framer.old.rest }
    ensures failed { W.failures writer.new ≡ with_failure (W.failures writer.old) (ends_by is_write_fault result) }
    ensures reads { ends_by is_read_fault result ≡ false }
{
    while let Some(frame) = framer.next() {
        answer_frame(bsc, choices, &frame, writer)?;
    }
    Ok(())
}

/// Takes octets of the stream, and answers the frames that are whole then.
fn take_piece<W: Sink>(
    bsc: &mut Bsc,
    choices: &Choices,
    framer: &mut Framer,
    piece: &[u8],
    writer: &mut W,
) -> Result<(), SimEnd>
    requires { IsWaiting framer.old }
    ensures ok { OnOk result (Hears choices.now bsc.old framer.old.rest piece.now bsc.new framer.new.rest (W.written writer.old) (W.written writer.new)) }
    ensures waiting { OnOk result (IsWaiting framer.new) }
    ensures err { IfErr result (λ end. (left : Option (List ℕ)) → HearsInPart choices.now bsc.old framer.old.rest piece.now bsc.new left (W.written writer.old) (W.written writer.new) end) }
    ensures failed { W.failures writer.new ≡ with_failure (W.failures writer.old) (ends_by is_write_fault result) }
    ensures reads { ends_by is_read_fault result ≡ false }
{
    match framer.feed(piece) {
        Ok(()) => answer_ready(bsc, choices, framer, writer),
        Err(FrameFault::TooLong { .. }) => {
            answer_ready(bsc, choices, framer, writer)?;
            Err(SimEnd::TooLong)
        }
        Err(FrameFault::Memory) => Err(SimEnd::Memory),
    }
}

/// Reads once, and answers the frames that are whole then.
fn turn<R: Source, W: Sink>(
    bsc: &mut Bsc,
    choices: &Choices,
    framer: &mut Framer,
    reader: &mut R,
    writer: &mut W,
) -> Result<(), SimEnd>
    requires { IsWaiting framer.old }
    ensures ok { OnOk result (Turns choices.now bsc.old framer.old.rest bsc.new framer.new.rest (R.remaining reader.old) (R.remaining reader.new) (W.written writer.old) (W.written writer.new)) }
    ensures waiting { OnOk result (IsWaiting framer.new) }
    ensures err { IfErr result (TurnsInPart choices.now bsc.old framer.old.rest bsc.new (R.remaining reader.old) (R.remaining reader.new) (W.written writer.old) (W.written writer.new)) }
    ensures calls { R.calls reader.new ≡ counted (R.calls reader.old) 1 }
    ensures read_failed { R.failures reader.new ≡ with_failure (R.failures reader.old) (ends_by is_read_fault result) }
    ensures write_failed { W.failures writer.new ≡ with_failure (W.failures writer.old) (ends_by is_write_fault result) }
{
    let mut piece = [0; 4096];
    match reader.read(&mut piece) {
        Ok(0) => {
            if framer.rest() == 0 {
                return Err(SimEnd::PeerEnded);
            }
            Err(SimEnd::CutFrame)
        }
        Ok(count) => take_piece(bsc, choices, framer, &piece[..count], writer),
        Err(_) => Err(SimEnd::ReadFault),
    }
}

impl Bsc {
    /// Converses over a stream: writes two RESTARTs of all cells, for broadcast message types 0 and 1, which say that the
    /// data are lost, and from then on the answer to each message that it reads. A RESET takes every message off air, whatever
    /// cells it names, and is answered by RESET COMPLETE of all cells, and a KEEP ALIVE by KEEP ALIVE COMPLETE; nothing in these
    /// two is looked at but their types. Nothing is on air at the beginning. The reads are at most 1,000,000,000,000, and the
    /// last of them ends the conversation with `ReadFault`.
    ///
    /// A frame that can't be read ends it with `BadMessage`, and one whose body is longer than is read with `TooLong`,
    /// each after the frames before it were answered. At `WriteFault` what is written is a part of the frames that are
    /// due, at `Memory` some whole ones of them; at every other end all of them are written. Each answer is written before the
    /// next read. No clause says that: the contract has what was read and written in the end.
    pub fn run<R: Source, W: Sink>(
        &mut self,
        reader: &mut R,
        writer: &mut W,
        choices: &Choices,
    ) -> SimEnd
        ensures conversation { Converses choices.now self.old self.new (R.remaining reader.old) (R.remaining reader.new) (W.written writer.old) (W.written writer.new) result }
        ensures read_fault { is_read_fault result ≡ true → FailsToRead (R.calls reader.old) (R.calls reader.new) (R.failures reader.old) (R.failures reader.new) }
        ensures read_failed { is_read_fault result ≡ false → R.failures reader.new ≡ R.failures reader.old }
        ensures write_fault { W.failures writer.new ≡ with_failure (W.failures writer.old) (is_write_fault result) }
    {
        if let Err(end) = open(self, writer) {
            return end;
        }
        let mut framer = Framer::new(self.alloc());
        for _turn in 0..MOST_READS {
            if let Err(end) = turn(self, choices, &mut framer, reader, writer) {
                return end;
            }
        }
        SimEnd::ReadFault
    }
}
