//! What a line is answered.

use cbsp_messages::MessageFault;
use centre_events::answer::Answer;
use centre_events::refusal::Refusal;
use centre_past::reported::ReportedKeys;
use coverage_board::Numbers;
use order_maker::Orders;

/// What a line is answered.
#[derive(Drop)]
pub enum Response {
    /// The line asks for nothing.
    Silence,
    BadLine,
    BadHex,
    BadFrame,
    /// The frame is whole, and no report.
    Skipped,
    BadMessage(MessageFault),
    /// The event is the entry of this number.
    Accepted { number: u64, answer: Answer },
    Refused(Refusal),
    Board(Numbers),
    /// The generation is kept.
    Set,
    Pending(Orders),
    Table(ReportedKeys),
    /// The centre is whole.
    Rebuilt,
    /// So many entries of the journal were folded.
    Folded(u64),
}
