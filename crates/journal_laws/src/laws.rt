//! Laws of journals and their lines, each the contract of a function that does nothing.

ghost use Rattle.journal_laws.specs.Given.{AcceptedHasLine, AllEnteredHaveLines, EntriesHaveLines};
ghost use Rattle.journal_laws.specs.Replayed.{JournalIsReplayed};
ghost use Rattle.journal_laws.specs.Starts.{StartIsReplayed};

/// Lemma: an event that a lawful centre accepts has a line, however it came in: asked for by a line of the console, as the
/// report of a message that was read of a frame and that a BSC sends, as the RESTART that a server enters for a BSC, or as
/// an event of a link.
pub fn accepted_has_line()
    ensures { AcceptedHasLine }
{}

/// Lemma: so every entry of a centre has a line, where the events of its entries came in so.
pub fn entries_have_lines()
    ensures { EntriesHaveLines }
{}

/// Lemma: every entry that the console made has a line, whatever it read, and also where memory ran out for some lines.
pub fn all_entered_have_lines()
    ensures { AllEnteredHaveLines }
{}

/// Lemma: a legal journal, with checkpoints between its entries, whose events have lines, is made again by `replay` of
/// these lines, whatever comments stand between them. Each other line is accepted, an entry with the same number and answer, a
/// checkpoint with the number of entries that it folded. A comment is answered by nothing. What `replay` leaves is a centre of the same events with the same answers in the same order, as desk 1.
#[tactic(auto, using(crate::proofs::ReplayedLemmas::journal_is_replayed))]
pub fn journal_is_replayed()
    ensures { JournalIsReplayed }
{}

/// Lemma: what a start makes of the lines of a file is what `replay` makes of them, with a checkpoint where the start folded: each is
/// accepted, and the events, their answers and their order are the same, as desk 1.
#[tactic(auto, using(crate::proofs::StartLemmas::start_is_replayed))]
pub fn start_is_replayed()
    ensures { StartIsReplayed }
{}
