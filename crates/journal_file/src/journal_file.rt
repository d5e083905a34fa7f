//! A file at whose end a journal is written.

ghost use Rattle.std.specs.Prelude.{◌≡◌, ◌≤◌, Option, length, IfOk, OnOk, OnErr};
ghost use Rattle.journal_file.specs.File.{FileState, Appended, Grows, GrowsInPart, Synced};

use framing::Failed;

/// A file at whose end octets are put. It tells what stands in it and how much of that a crash leaves, where that is known: of a
/// file of the system it isn't.
pub trait JournalFile {
    ghost state: { Self → Option FileState };

    /// Puts a front of the octets at the end of the file, and answers how many octets that were.
    fn append(&mut self, octets: &[u8]) -> Result<usize, Failed>
        ensures bound { IfOk result (λ count. count ≤ length octets.now) }
        ensures appended { Appended (state self.old) (state self.new) result octets.now };

    /// Has a crash leave all that stands in the file.
    fn sync(&mut self) -> Result<(), Failed>
        ensures synced { Synced (state self.old) (state self.new) result };
}

/// Puts all the octets at the end of the file, in as many appends as it takes. At an `Err` one of these failed or took none, and
/// what was put before it is a front of the octets.
pub fn append_all<F: JournalFile>(file: &mut F, octets: &[u8]) -> Result<(), Failed>
    ensures all { OnOk result (Grows (F.state file.old) (F.state file.new) octets.now) }
    ensures part { OnErr result (GrowsInPart (F.state file.old) (F.state file.new) octets.now) }
{
    let mut rest = octets;
    while !rest.is_empty() {
        let count = file.append(rest)?;
        if count == 0 {
            return Err(Failed);
        }
        let (_, behind) = rest.split_at(count);
        rest = behind;
    }
    Ok(())
}
