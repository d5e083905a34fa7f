//! The end of an office.

use console_text::ReplayFault;
use office::desk::Desk;
use office::office::Office;
use server_options::ServeFault;
use std::alloc::Global;
use std::io::Write;
use std::sync::ledger::Ledger;

/// Writes how many entries there are.
fn write_settled<W: Write>(alloc: Global, writer: &mut W, entries: u64) -> Result<(), ServeFault> {
    let Ok(text) = format!(in alloc; "settled {entries}\n") else {
        return Err(ServeFault::Lines(ReplayFault::Memory));
    };
    match writer.write_all(text.as_bytes()) {
        Ok(()) => Ok(()),
        Err(_) => Err(ServeFault::Lines(ReplayFault::WriteFault)),
    }
}

/// Ends an office once its desks are handed in, and writes how many entries there are, as `settled N`.
pub fn settle<L: Ledger, W: Write>(
    alloc: Global,
    office: Office<L>,
    desks: Vec<Desk<L>>,
    writer: &mut W,
) -> Result<(), ServeFault> {
    match office.settle(desks) {
        Ok(centre) => write_settled(alloc, writer, centre.position()),
        Err(unsettled) => {
            drop(unsettled);
            Err(ServeFault::Settle)
        }
    }
}
