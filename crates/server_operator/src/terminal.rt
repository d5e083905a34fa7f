//! The lines that come in, and where their answers go.

use crate::batch::Batch;
use console_text::ReplayFault;
use office::desk::Desk;
use std::io::{BufRead, Error, ErrorKind};
use std::sync::ledger::Ledger;

/// Where lines are read and answered, and the desk of the operator.
#[derive(Drop)]
pub struct Terminal<L: Ledger, I: Drop, W: Drop> {
    pub reader: I,
    pub writer: W,
    pub desk: Option<Desk<L>>,
}

/// What a read of a line came to.
#[derive(Clone, Copy, Debug, PartialEq, Eq)]
pub(crate) enum Step {
    /// The line goes on.
    More,
    /// The line or the input has ended.
    Ended,
    /// Nothing has come for a while.
    Nothing,
}

/// What a read that failed comes to, or its fault.
fn step_of(error: &Error) -> Result<Step, ReplayFault> {
    match error.kind() {
        ErrorKind::Interrupted => Ok(Step::More),
        ErrorKind::WouldBlock => Ok(Step::Nothing),
        ErrorKind::OutOfMemory => Err(ReplayFault::Memory),
        _ => Err(ReplayFault::ReadFault),
    }
}

/// The octets up to the end of a line, with it; all of them where none ends.
fn up_to_end(piece: &[u8]) -> &[u8] {
    match piece.iter().position(|octet| *octet == b'\n') {
        Some(index) => piece.get(..=index).unwrap_or(piece),
        None => piece,
    }
}

impl<L: Ledger, I: BufRead + Drop, W: Drop> Terminal<L, I, W> {
    /// Reads once, and puts what was read of the line behind the rest of it. The batch knows whether the next read may wait.
    pub(crate) fn read_on(
        &mut self,
        batch: &mut Batch,
        line: &mut Vec<u8>,
    ) -> Result<Step, ReplayFault> {
        let (count, has_ended) = match self.reader.fill_buf() {
            Ok(piece) => {
                let front = up_to_end(piece);
                line.extend_from_slice(front)?;
                batch.may_wait = front.len() == piece.len();
                (front.len(), piece.is_empty() || front.ends_with(b"\n"))
            }
            Err(error) => return step_of(&error),
        };
        self.reader.consume(count);
        Ok(if has_ended { Step::Ended } else { Step::More })
    }
}
