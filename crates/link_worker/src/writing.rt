//! The side of a link that writes.

ghost use Rattle.std.specs.Prelude.{◌≡◌, IfOk, IfSome};
ghost use Rattle.centre_past.specs.Fits.{AnswerFits};
ghost use Rattle.framing.specs.Source.{with_failure};
ghost use Rattle.link_worker.specs.Ends.{IfShut, IsRefusedEnd, is_write_fault, order_end, unsent_end};
ghost use Rattle.link_worker.specs.Orders.{EndsWriting, answer_frame};
ghost use Rattle.link_worker.specs.declared.gate.Step.TheVariants as step;

use crate::end::End;
use crate::gate::Gate;
use crate::link::Link;
use crate::passage::Passage;
use cbsp_messages::write;
use cell_register::BscId;
use centre_events::answer::Answer;
use centre_events::refusal::Refusal;
use framing::{Sink, write_all};
use office::desk::Desk;
use office::office::Office;
use office::receipt::Receipt;
use office::unsent::Unsent;
use std::alloc::{AllocError, Global};
use std::sync::Wait;
use std::sync::ledger::Ledger;

/// Waits until an order or a query is due at the BSC, enters it at the desk in the same hold of the office's lock, and writes the frame
/// of its message; and so on until the side ends. Before it waits, and each time entries are folded, the desk lets go of its receipts
/// of folded entries. The gate is asked before each write (`Step::BeforeWrite`), when the entry is in the journal already, and told
/// the frame (`Passage::Order`).
///
/// It goes on where nothing is to be asked for a wish (`NothingToAsk`, `NoSuchWarning`); `InFlight` and `NothingPending`, after which
/// it would go on too, don't come. It ends
/// by `WriteFault`, `Superseded`, `Refused` or `GateShut`, the last only where the gate may cut the link. `Refused` has `Stale`, the refusal of an order or a query over this link,
/// or `Memory` where there was none for a frame. After `WriteFault`, `GateShut` and `Refused(Memory)` the order of the last
/// receipt may be in flight though its frame was not written, or not all of it; it is so until the loss of the link is submitted.
pub fn write_side<L: Ledger, W: Sink, G: Gate, R: Wait>(
    rt: &R,
    alloc: Global,
    office: &Office<L>,
    desk: &mut Desk<L>,
    b: BscId,
    generation: u64,
    writer: &mut W,
    gate: &G,
) -> End
    ensures written { EndsWriting b generation desk.old desk.new (W.written writer.old) (W.written writer.new) result }
    ensures failed { W.failures writer.new ≡ with_failure (W.failures writer.old) (is_write_fault result) }
    ensures cut { IfShut (G.may_cut gate.now b step.BeforeWrite) result }
{
    let link = Link {
        alloc,
        office,
        bsc: b,
        generation,
        gate,
    };
    for _ in rt.forever() {
        if let Err(end) = link.send_one(rt, desk, writer) {
            return end;
        }
    }
    unreachable!()
}

impl<'o, 'g, L: Ledger, G: Gate> Link<'o, 'g, L, G> {
    ghost use Rattle.std.specs.Prelude.{◌≡◌, IfErr, OnOk};
    ghost use Rattle.std.specs.Io.KnownBytes.{Appends};
    ghost use Rattle.centre_past.specs.Fits.{AnswerFits};
    ghost use Rattle.link_worker.specs.Ends.{fails_to_write};
    ghost use Rattle.link_worker.specs.Orders.{EndsWriting, StopsInFrame, Writes, receipt_frame};

    /// Waits for the next order or query, enters it and writes its frame, or does nothing where nothing is to be asked. The desk lets
    /// go of receipts of folded entries meanwhile.
    fn send_one<W: Sink, R: Wait>(
        &self,
        rt: &R,
        desk: &mut Desk<L>,
        writer: &mut W,
    ) -> Result<(), End>
        ensures sent { OnOk result (Writes self.now.bsc self.now.generation desk.old desk.new (W.written writer.old) (W.written writer.new)) }
        ensures ended { IfErr result (EndsWriting self.now.bsc self.now.generation desk.old desk.new (W.written writer.old) (W.written writer.new)) }
        ensures failed { W.failures writer.new ≡ with_failure (W.failures writer.old) (fails_to_write result) }
        ensures cut { IfErr result (IfShut (G.may_cut self.now.gate.now self.now.bsc step.BeforeWrite)) }
    {
        match self.office.send_due(rt, desk, self.bsc, self.generation) {
            Ok(()) => self.write_receipt(rt, desk.latest(), writer),
            Err(unsent) => match unsent_end(unsent) {
                Some(end) => Err(end),
                None => Ok(()),
            },
        }
    }

    /// Writes the frame of the receipt's message.
    fn write_receipt<W: Sink, R: Wait>(
        &self,
        rt: &R,
        receipt: &Receipt,
        writer: &mut W,
    ) -> Result<(), End>
        requires { AnswerFits receipt.now.answer }
        ensures all { OnOk result (Appends (W.written writer.old) (W.written writer.new) (receipt_frame receipt.now)) }
        ensures part { IfErr result (StopsInFrame (W.written writer.old) (W.written writer.new) (receipt_frame receipt.now)) }
        ensures failed { W.failures writer.new ≡ with_failure (W.failures writer.old) (fails_to_write result) }
        ensures cut { IfErr result (IfShut (G.may_cut self.now.gate.now self.now.bsc step.BeforeWrite)) }
    {
        let Ok(frame) = frame_of(self.alloc, &receipt.answer) else {
            return Err(End::Refused(Refusal::Memory));
        };
        let passage = Passage::Order(frame.as_slice(), receipt.place);
        if !self.gate.pass(rt, self.bsc, passage) {
            return Err(End::GateShut);
        }
        match write_all(writer, frame.as_slice()) {
            Ok(()) => Ok(()),
            Err(_) => Err(End::WriteFault),
        }
    }
}

/// The frame of the message in an answer. An answer without a message has none.
fn frame_of(alloc: Global, answer: &Answer) -> Result<Vec<u8>, AllocError>
    requires { AnswerFits answer.now }
    ensures { IfOk result (λ frame. frame.items ≡ answer_frame answer.now) }
{
    match answer {
        Answer::Sent { order: _, message } => write(alloc, message),
        Answer::Asked {
            message_id: _,
            serial: _,
            cells: _,
            message,
        } => write(alloc, message),
        _ => Ok(Vec::new(alloc)),
    }
}

/// The end that the refusal of an order or a query makes; none where the side goes on.
fn order_end(refusal: Refusal) -> Option<End>
    ensures end { result ≡ order_end refusal }
    ensures refused { IfSome result IsRefusedEnd }
{
    match refusal {
        Refusal::InFlight
        | Refusal::NothingPending
        | Refusal::NothingToAsk
        | Refusal::NoSuchWarning => None,
        _ => Some(End::of(refusal)),
    }
}

/// The end that it makes where nothing was sent; none where the side goes on.
fn unsent_end(unsent: Unsent) -> Option<End>
    ensures end { result ≡ unsent_end unsent }
    ensures refused { IfSome result IsRefusedEnd }
{
    match unsent {
        Unsent::Ended => Some(End::Superseded),
        Unsent::StaleCentre => Some(End::Refused(Refusal::Stale)),
        Unsent::Refused(refusal) => order_end(refusal),
    }
}
