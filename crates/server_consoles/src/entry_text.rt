//! What is written to a console that follows the journal.

ghost use Rattle.std.specs.Prelude.{◌≡◌, ◌++◌, List, ℕ, IfOk, OnOk};
ghost use Rattle.server_consoles.specs.WatchTexts.{AreHandedOn, IsEntryText, IsWatchText, entry_text, missed_part, missed_text};

use centre_events::entry::Entry;
use journal_keeper::Untold;
use journal_text::line_of;
use office::entries::Entries;
use std::alloc::{AllocError, Global};

/// Puts an entry behind the text: its number, its desk and its line.
fn put_line(
    alloc: Global,
    text: &mut Vec<u8>,
    number: u64,
    desk: u32,
    line: &[u8],
) -> Result<(), AllocError>
    ensures { OnOk result (text.new.items ≡ text.old.items ++ entry_text number desk line.now) }
{
    let head = format!(in alloc; "entry {number} desk {desk} ")?;
    text.extend_from_slice(head.as_bytes())?;
    text.extend_from_slice(line)?;
    text.push(b'\n')?;
    Ok(())
}

/// Puts an entry behind the text. Its line is that of the kept file.
fn put_entry(
    alloc: Global,
    text: &mut Vec<u8>,
    number: u64,
    entry: &Entry,
) -> Result<(), AllocError>
    ensures { OnOk result ((added : List ℕ) × (text.new.items ≡ text.old.items ++ added) × IsEntryText number entry.now added) }
{
    match line_of(alloc, entry)? {
        Some(line) => put_line(alloc, text, number, entry.desk, line.as_slice()),
        None => put_line(alloc, text, number, entry.desk, b""),
    }
}

/// Puts the entries behind the text, whose numbers are those behind that one. The answer is the number of the last.
fn put_entries(
    alloc: Global,
    text: &mut Vec<u8>,
    number: u64,
    entries: &[Entry],
) -> Result<u64, AllocError>
    ensures { IfOk result (λ last. (added : List ℕ) × (text.new.items ≡ text.old.items ++ added) × AreHandedOn number entries.now last added) }
{
    let mut last = number;
    for entry in entries {
        last = last.saturating_add(1);
        put_entry(alloc, text, last, entry)?;
    }
    Ok(last)
}

/// Puts behind the text that so many entries were folded before they could be handed on, where there are any.
fn put_missed(alloc: Global, text: &mut Vec<u8>, count: u64) -> Result<(), AllocError>
    ensures { OnOk result (text.new.items ≡ text.old.items ++ missed_part count) }
{
    if count == 0 {
        return Ok(());
    }
    let line = format!(in alloc; "missed {count}\n")?;
    text.extend_from_slice(line.as_bytes())?;
    Ok(())
}

/// The text of entries that are handed out behind the place. It tells of entries up to the last of them.
pub fn watch_text(
    alloc: Global,
    place: u64,
    entries: &Entries,
) -> Result<Untold<Vec<u8>>, AllocError>
    ensures { IfOk result (λ made. IsWatchText place entries.now.missed entries.now.entries.items made.place made.what.items) }
{
    let mut text = Vec::new(alloc);
    put_missed(alloc, &mut text, entries.missed)?;
    let number = place.saturating_add(entries.missed);
    let last = put_entries(alloc, &mut text, number, entries.entries.as_slice())?;
    Ok(Untold::new(last, text))
}
