//! The side of a link that reads.

ghost use Rattle.std.specs.Prelude.{◌≡◌, [], true, false, IfSome};
ghost use Rattle.framing.specs.Source.{FailsToRead};
ghost use Rattle.link_worker.specs.Ends.{IfShut, IsRefusedEnd, is_read_fault, report_end};
ghost use Rattle.link_worker.specs.declared.gate.Step.TheVariants as step;
ghost use Rattle.link_worker.specs.Reports.{EndsReading, stream_end};

use crate::end::End;
use crate::gate::Gate;
use crate::link::Link;
use crate::load::load_of;
use crate::passage::{Passage, report_passage};
use cbsp_messages::{Message, MessageType, read_as};
use cell_register::BscId;
use centre_events::event::Event;
use centre_events::refusal::Refusal;
use framing::{Frame, FrameFault, Framer, MOST_READS, Source};
use office::desk::Desk;
use office::office::Office;
use office::receipt::Receipt;
use std::alloc::Global;
use std::sync::Wait;
use std::sync::ledger::Ledger;

/// The most octets of a read.
const PIECE: usize = 4096;

/// Reads frames from the BSC, and submits each report at the desk, in their order; and so on until the side ends. Frames of other
/// types are passed over by their length. Before each read the desk lets go of its receipts of folded entries. The gate is asked after
/// each report (`Step::AfterReport`), and told whether it answered what was in flight (`Passage`); before each it may wait
/// (`Gate::before_report`). The reads are at most 1,000,000,000,000.
///
/// It goes on where a report answers no order in flight (`NoOrder`). It ends by any of the ends but `WriteFault`. The frames before
/// one that is too long, or that can't be read, are taken first. `Superseded` and `Refused` come of the refusal of a report over
/// this link, which `Refused` has; `Refused(Memory)` also where there was no memory for a frame or its message. `GateShut` comes
/// after a report at which the gate may cut the link.
pub fn read_side<L: Ledger, S: Source, G: Gate, R: Wait>(
    rt: &R,
    alloc: Global,
    office: &Office<L>,
    desk: &mut Desk<L>,
    b: BscId,
    generation: u64,
    reader: &mut S,
    gate: &G,
) -> End
    ensures read { EndsReading b generation [] desk.old desk.new (S.remaining reader.old) (S.remaining reader.new) result }
    ensures fault { is_read_fault result ≡ true → FailsToRead (S.calls reader.old) (S.calls reader.new) (S.failures reader.old) (S.failures reader.new) }
    ensures failed { is_read_fault result ≡ false → S.failures reader.new ≡ S.failures reader.old }
    ensures cut { IfShut (G.may_cut gate.now b step.AfterReport) result }
{
    let link = Link {
        alloc,
        office,
        bsc: b,
        generation,
        gate,
    };
    let mut framer = Framer::new(alloc);
    for _turn in 0..MOST_READS {
        office.release(rt, desk);
        if let Err(end) = link.read_once(rt, desk, &mut framer, reader) {
            return end;
        }
    }
    End::ReadFault
}

impl<'o, 'g, L: Ledger, G: Gate> Link<'o, 'g, L, G> {
    ghost use Rattle.std.specs.Prelude.{◌≡◌, [], ◌∷◌, IfOk, IfErr, OnOk};
    ghost use Rattle.centre_events.specs.declared.event.Event.TheVariants as event;
    ghost use Rattle.framing.specs.Source.{counted, with_failure};
    ghost use Rattle.link_worker.specs.Ends.{fails_to_read};
    ghost use Rattle.link_worker.specs.Passages.{IsPassageOf, report_passage, step_of};
    ghost use Rattle.link_worker.specs.Reports.{EndsReading, IsPartial, IsRefusal, IsSubmitEnd, MayGet, Reads, StopsAmong, StopsInPiece, TakesPiece, TakesReports};

    /// Reads once, and takes what was read.
    fn read_once<S: Source, R: Wait>(
        &self,
        rt: &R,
        desk: &mut Desk<L>,
        framer: &mut Framer,
        reader: &mut S,
    ) -> Result<(), End>
        requires none { framer.old.frames ≡ [] }
        requires partial { IsPartial framer.old.rest }
        ensures none { OnOk result (framer.new.frames ≡ []) }
        ensures reads { OnOk result (Reads self.now.bsc self.now.generation framer.old.rest desk.old desk.new (S.remaining reader.old) (S.remaining reader.new) framer.new.rest) }
        ensures ended { IfErr result (EndsReading self.now.bsc self.now.generation framer.old.rest desk.old desk.new (S.remaining reader.old) (S.remaining reader.new)) }
        ensures calls { S.calls reader.new ≡ counted (S.calls reader.old) 1 }
        ensures failed { S.failures reader.new ≡ with_failure (S.failures reader.old) (fails_to_read result) }
        ensures cut { IfErr result (IfShut (G.may_cut self.now.gate.now self.now.bsc step.AfterReport)) }
    {
        let mut piece = [0; PIECE];
        match reader.read(&mut piece) {
            Ok(0) => Err(end_of_stream(framer)),
            Ok(count) => self.take_piece(rt, desk, framer, &piece[..count]),
            Err(_) => Err(End::ReadFault),
        }
    }

    /// Takes the frames that end in the piece.
    fn take_piece<R: Wait>(
        &self,
        rt: &R,
        desk: &mut Desk<L>,
        framer: &mut Framer,
        piece: &[u8],
    ) -> Result<(), End>
        requires { framer.old.frames ≡ [] }
        ensures none { OnOk result (framer.new.frames ≡ []) }
        ensures taken { OnOk result (TakesPiece self.now.bsc self.now.generation framer.old.rest piece.now framer.new.rest desk.old desk.new) }
        ensures ended { IfErr result (StopsInPiece self.now.bsc self.now.generation framer.old.rest piece.now desk.old desk.new) }
        ensures cut { IfErr result (IfShut (G.may_cut self.now.gate.now self.now.bsc step.AfterReport)) }
    {
        let fed = framer.feed(piece);
        if let Err(end) = self.take_frames(rt, desk, framer) {
            return Err(end);
        }
        match fed {
            Ok(()) => Ok(()),
            Err(FrameFault::TooLong { length: _ }) => Err(End::TooLong),
            Err(FrameFault::Memory) => Err(End::Refused(Refusal::Memory)),
        }
    }

    /// Takes the frames that the framer has.
    fn take_frames<R: Wait>(
        &self,
        rt: &R,
        desk: &mut Desk<L>,
        framer: &mut Framer,
    ) -> Result<(), End>
        ensures rest { framer.new.rest ≡ framer.old.rest }
        ensures none { OnOk result (framer.new.frames ≡ []) }
        ensures taken { OnOk result (TakesReports self.now.bsc self.now.generation framer.old.frames desk.old desk.new) }
        ensures ended { IfErr result (StopsAmong self.now.bsc self.now.generation framer.old.frames desk.old desk.new) }
        ensures cut { IfErr result (IfShut (G.may_cut self.now.gate.now self.now.bsc step.AfterReport)) }
    {
        while let Some(frame) = framer.next() {
            if let Err(end) = self.take_frame(rt, desk, &frame) {
                return Err(end);
            }
        }
        Ok(())
    }

    /// Submits the report in the frame, or passes over a frame of another type.
    fn take_frame<R: Wait>(&self, rt: &R, desk: &mut Desk<L>, frame: &Frame) -> Result<(), End>
        ensures taken { OnOk result (TakesReports self.now.bsc self.now.generation (frame.now ∷ []) desk.old desk.new) }
        ensures ended { IfErr result (StopsAmong self.now.bsc self.now.generation (frame.now ∷ []) desk.old desk.new) }
        ensures cut { IfErr result (IfShut (G.may_cut self.now.gate.now self.now.bsc step.AfterReport)) }
    {
        let Some(kind) = MessageType::of_report(frame.kind) else {
            return Ok(());
        };
        match read_as(self.alloc, kind, frame.body.as_slice()) {
            Ok(message) => {
                self.wait_turn(rt, frame, &message);
                self.submit_report(rt, desk, message)
            }
            Err(fault) => Err(End::of_fault(fault)),
        }
    }

    /// Has the gate hold the link until the report in the frame may come in.
    fn wait_turn<R: Wait>(&self, rt: &R, frame: &Frame, message: &Message) {
        let octets = frame.body.as_slice().len();
        self.gate.before_report(rt, load_of(octets, message));
    }

    /// Submits a report, and asks the gate.
    fn submit_report<R: Wait>(
        &self,
        rt: &R,
        desk: &mut Desk<L>,
        message: Message,
    ) -> Result<(), End>
        ensures got { MayGet (event.Report self.now.bsc self.now.generation message) desk.old desk.new }
        ensures ended { IfErr result (IsSubmitEnd (event.Report self.now.bsc self.now.generation message) desk.old desk.new) }
        ensures cut { IfErr result (IfShut (G.may_cut self.now.gate.now self.now.bsc step.AfterReport)) }
    {
        let event = Event::Report(self.bsc, self.generation, message);
        match self.enter_report(rt, desk, event) {
            Ok(passage) => {
                if self.gate.pass(rt, self.bsc, passage) {
                    Ok(())
                } else {
                    Err(End::GateShut)
                }
            }
            Err(end) => Err(end),
        }
    }

    /// Shows the gate the receipt of a report that was entered. The answer is what passes.
    fn show_entered<R: Wait>(&self, rt: &R, receipt: &Receipt) -> Passage<'static>
        ensures { result ≡ report_passage receipt.now.answer }
    {
        self.gate.entered(rt, receipt);
        report_passage(&receipt.answer)
    }

    /// Submits a report, and shows the gate its receipt where it was entered. The answer is what the gate is told of it.
    fn enter_report<R: Wait>(
        &self,
        rt: &R,
        desk: &mut Desk<L>,
        event: Event,
    ) -> Result<Passage<'static>, End>
        ensures got { MayGet event desk.old desk.new }
        ensures told { IfOk result (IsPassageOf desk.old desk.new) }
        ensures step { IfOk result (λ p. step_of p ≡ step.AfterReport) }
        ensures refused { IfErr result (IsRefusal event desk.old desk.new) }
    {
        match self.office.submit(rt, desk, event) {
            Ok(()) => Ok(self.show_entered(rt, desk.latest())),
            Err(refusal) => match report_end(refusal) {
                Some(end) => Err(end),
                None => Ok(Passage::Report),
            },
        }
    }
}

/// What the end of the stream is, by whether a frame has begun.
fn end_of_stream(framer: &Framer) -> End
    ensures { result ≡ stream_end framer.now.rest }
{
    if framer.rest() == 0 {
        End::PeerEnded
    } else {
        End::CutFrame
    }
}

/// The end that the refusal of a report makes; none where the side goes on.
fn report_end(refusal: Refusal) -> Option<End>
    ensures end { result ≡ report_end refusal }
    ensures refused { IfSome result IsRefusedEnd }
{
    match refusal {
        Refusal::NoOrder => None,
        _ => Some(End::of(refusal)),
    }
}
