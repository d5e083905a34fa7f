//! What follows of the journal of an office that is kept in a file. A function here is a theorem: it does nothing, and its contract holds.

ghost use Rattle.journal_office.specs.Entered.{FileIsReplayed};
ghost use Rattle.journal_office.specs.OfficeJournals.{AnyKeeping};

/// Whatever is put of a journal, written, synced and told, in whatever order, and wherever a write or a sync fails: at every moment a
/// crash leaves the lines that were there at the start, and then lines of the next entries of the journal, in order, none left out. Every
/// entry of which anybody was told is among them.
pub fn any_keeping()
    ensures { AnyKeeping }
{}

/// Lemma: the office's centre, behind a start that took all lines of a file, is what `replay` makes of these lines, with a checkpoint
/// where the start folded: the same events with the same answers, in the same order, as desk 1.
pub fn file_is_replayed()
    ensures { FileIsReplayed }
{}
