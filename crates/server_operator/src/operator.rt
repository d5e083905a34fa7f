//! How the lines of an operator are answered, one after another.

use crate::batch::Batch;
use crate::delivering::{answer, deliver};
use crate::heard::Heard;
use crate::hearing::hear;
use crate::leaving::Leaving;
use crate::reading::read_line;
use crate::server::Server;
use crate::terminal::Terminal;
use console_text::ReplayFault;
use office::desk::Desk;
use office::office::Office;
use std::alloc::Global;
use std::io::{BufRead, Write};
use std::sync::ledger::Ledger;
use std::sync::{Mutex, Wait};
use std::time::Clock;

/// What the lines of an operator bear on.
#[derive(Drop)]
pub struct Operator<'a, L: Ledger, S> {
    pub alloc: Global,
    pub office: &'a Office<L>,
    pub server: &'a S,
    /// Whether `watch` is a line of this operator.
    pub may_watch: bool,
}

/// Reads one line and hears it, unless the server ends. The answer is how the lines end, where they do.
fn turn<L: Ledger, S: Server, R: Wait + Clock, I: BufRead + Drop, W: Write + Drop>(
    rt: &R,
    operator: &Operator<'_, L, S>,
    terminal: &mut Terminal<L, I, W>,
    desk: &mut Desk<L>,
    batch: &mut Batch,
) -> Result<Option<Leaving>, ReplayFault> {
    let Some(line) = read_line(rt, operator, terminal, desk, batch)? else {
        return Ok(Some(Leaving::Ended));
    };
    batch.tell(rt, operator.server);
    if operator.server.is_ending(rt) {
        return Ok(Some(Leaving::Ended));
    }
    let writer = &mut terminal.writer;
    let goes_on = match hear(rt, operator, desk, line.as_slice())? {
        Heard::Left(leaving) => return Ok(Some(leaving)),
        Heard::Answered(text) => answer(rt, operator, writer, desk, batch, text.as_bytes())?,
        Heard::Listed(text) => answer(rt, operator, writer, desk, batch, text.as_slice())?,
    };
    Ok(if goes_on { None } else { Some(Leaving::Ended) })
}

fn hear_lines<L: Ledger, S: Server, R: Wait + Clock, I: BufRead + Drop, W: Write + Drop>(
    rt: &R,
    operator: &Operator<'_, L, S>,
    terminal: &mut Terminal<L, I, W>,
    desk: &mut Desk<L>,
    batch: &mut Batch,
) -> Result<Leaving, ReplayFault> {
    for _ in rt.forever() {
        if let Some(leaving) = turn(rt, operator, terminal, desk, batch)? {
            return Ok(leaving);
        }
    }
    Ok(Leaving::Ended)
}

/// Answers the lines until they end, however they do: what was answered by then is written.
fn answer_lines<L: Ledger, S: Server, R: Wait + Clock, I: BufRead + Drop, W: Write + Drop>(
    rt: &R,
    operator: &Operator<'_, L, S>,
    terminal: &mut Terminal<L, I, W>,
    desk: &mut Desk<L>,
) -> Result<Leaving, ReplayFault> {
    let mut batch = Batch::new(operator.alloc);
    let ended = hear_lines(rt, operator, terminal, desk, &mut batch);
    let is_kept = deliver(rt, operator, &mut terminal.writer, desk, &mut batch, &[])?;
    if is_kept { ended } else { Ok(Leaving::Ended) }
}

/// Answers the lines of the operator, one after another, until one ends them, the input ends, or the server does: a reader that answers
/// `WouldBlock` where nothing has come for a while has the last noticed without a line. The answer is how they ended. What lines are
/// answered that had come together is written together, before a read that may wait.
pub fn operate<L: Ledger, S: Server, R: Wait + Clock, I: BufRead + Drop, W: Write + Drop>(
    rt: &R,
    operator: &Operator<'_, L, S>,
    terminal: &Mutex<Terminal<L, I, W>>,
) -> Result<Leaving, ReplayFault> {
    let mut terminal = terminal.lock(rt);
    let Some(mut desk) = terminal.desk.take() else {
        return Ok(Leaving::Ended);
    };
    let result = answer_lines(rt, operator, &mut terminal, &mut desk);
    terminal.desk = Some(desk);
    result
}
