//! How answers are written.

ghost use Rattle.std.specs.Prelude.{◌≡◌, ◌≤◌, ◌++◌, [], All, IfOk, IsTrue, drop, false};
ghost use Rattle.std.specs.Io.KnownBytes.{Appends};
ghost use Rattle.office.specs.Offices.{IsSameDesk};
ghost use Rattle.office.specs.declared.receipt.Receipt.{Receipt};
ghost use Rattle.server_operator.specs.Batches.{IsTold};

use crate::batch::Batch;
use crate::operator::Operator;
use crate::server::Server;
use console_text::ReplayFault;
use office::desk::Desk;
use std::io::Write;
use std::sync::Wait;
use std::sync::ledger::Ledger;
use std::time::Clock;

/// The place of the last entry of the desk of which it has a receipt. The others are folded.
fn last_place<L: Ledger>(desk: &Desk<L>) -> u64
    ensures { All (λ (r : Receipt). r.place ≤ result) (drop desk.now.released desk.now.receipts) }
{
    desk.tell_soundness();
    if desk.receipts().is_empty() {
        return 0;
    }
    desk.latest().place
}

/// Writes the answers of the batch, and that text behind them, once all entries that there are by then are kept; the desk lets go of its
/// receipts of folded entries. The answer is whether more lines are read: `false` where the journal isn't kept any more, and then
/// nothing is written.
#[tactic(auto, using(crate::proofs::BatchLemmas::appended_none))]
pub(crate) fn deliver<L: Ledger, S: Server, R: Wait + Clock, W: Write>(
    rt: &R,
    operator: &Operator<'_, L, S>,
    writer: &mut W,
    desk: &mut Desk<L>,
    batch: &mut Batch,
    text: &[u8],
) -> Result<bool, ReplayFault>
    ensures written { IfOk result (λ goes_on. IsTrue goes_on → Appends (W.contents writer.old) (W.contents writer.new) (batch.old.answers.items ++ text.now)) }
    ensures unkept { IfOk result (λ goes_on. goes_on ≡ false → writer.new ≡ writer.old) }
    ensures none { batch.new.answers.items ≡ [] }
    ensures place { batch.new.place ≡ batch.old.place }
    ensures same { IsSameDesk desk.old desk.new }
{
    if !batch.is_written() || !text.is_empty() {
        let Some(kept) = operator.server.kept(rt, batch.place()) else {
            batch.forget();
            return Ok(false);
        };
        batch.write(writer, text, &kept)?;
        let _ = operator.office.release(rt, desk);
    }
    batch.tell(rt, operator.server);
    Ok(true)
}

/// Answers a line with that text, which is gathered, or else written behind the answers that are. The answer is whether more lines are
/// read.
#[tactic(auto, using(crate::proofs::BatchLemmas::told_gathered, crate::proofs::BatchLemmas::told_written))]
pub(crate) fn answer<L: Ledger, S: Server, R: Wait + Clock, W: Write>(
    rt: &R,
    operator: &Operator<'_, L, S>,
    writer: &mut W,
    desk: &mut Desk<L>,
    batch: &mut Batch,
    text: &[u8],
) -> Result<bool, ReplayFault>
    ensures told { IfOk result (λ goes_on. IsTrue goes_on → IsTold (W.contents writer.old) batch.old.answers.items (W.contents writer.new) batch.new.answers.items text.now) }
    ensures unkept { IfOk result (λ goes_on. goes_on ≡ false → writer.new ≡ writer.old) }
    ensures named { All (λ (r : Receipt). r.place ≤ batch.new.place) (drop desk.old.released desk.old.receipts) }
    ensures same { IsSameDesk desk.old desk.new }
{
    batch.count(last_place(desk));
    if batch.gather(text) {
        return Ok(true);
    }
    deliver(rt, operator, writer, desk, batch, text)
}
