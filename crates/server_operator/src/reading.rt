//! How the lines of an operator come in.

use crate::batch::Batch;
use crate::delivering::deliver;
use crate::operator::Operator;
use crate::server::Server;
use crate::terminal::{Step, Terminal};
use console_text::ReplayFault;
use console_text::lines::LONGEST_LINE;
use framing::MOST_READS;
use office::desk::Desk;
use std::io::{BufRead, Write};
use std::sync::Wait;
use std::sync::ledger::Ledger;
use std::time::Clock;

/// The most octets that are kept of a line: those that it may have, and its end.
const MOST_KEPT: usize = LONGEST_LINE + 2;

/// The line without its end: one 0A, and one 0D before that.
fn without_end(line: &[u8]) -> &[u8] {
    match line {
        [front @ .., b'\r', b'\n'] => front,
        [front @ .., b'\n'] => front,
        [front @ .., b'\r'] => front,
        _ => line,
    }
}

/// Reads to the end of a line or of the input. The answers of the batch are written before a read that may wait. The answer is whether
/// lines are answered still. Of a line that is too long no more is read.
fn read_to_end<L: Ledger, S: Server, R: Wait + Clock, I: BufRead + Drop, W: Write + Drop>(
    rt: &R,
    operator: &Operator<'_, L, S>,
    terminal: &mut Terminal<L, I, W>,
    desk: &mut Desk<L>,
    batch: &mut Batch,
    line: &mut Vec<u8>,
) -> Result<bool, ReplayFault> {
    for _turn in 0..MOST_READS {
        if batch.may_wait && !deliver(rt, operator, &mut terminal.writer, desk, batch, &[])? {
            return Ok(false);
        }
        match terminal.read_on(batch, line)? {
            Step::More => {}
            Step::Ended => break,
            Step::Nothing => {
                if operator.server.is_ending(rt) {
                    return Ok(false);
                }
            }
        }
        if line.len() > MOST_KEPT {
            break;
        }
    }
    Ok(true)
}

/// The next line without its end; `None` at the end of the input, and where no line is answered any more: that is asked each time
/// that the reader answers that nothing has come (`WouldBlock`), and where answers are to be written.
pub(crate) fn read_line<L: Ledger, S: Server, R: Wait + Clock, I: BufRead + Drop, W: Write + Drop>(
    rt: &R,
    operator: &Operator<'_, L, S>,
    terminal: &mut Terminal<L, I, W>,
    desk: &mut Desk<L>,
    batch: &mut Batch,
) -> Result<Option<Vec<u8>>, ReplayFault> {
    let mut line = Vec::new(operator.alloc);
    if !read_to_end(rt, operator, terminal, desk, batch, &mut line)? || line.is_empty() {
        return Ok(None);
    }
    let count = without_end(line.as_slice()).len();
    if count > LONGEST_LINE {
        return Err(ReplayFault::LongLine);
    }
    line.truncate(count);
    Ok(Some(line))
}
