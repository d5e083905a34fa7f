//! What follows from the contracts of this crate. Each function is a theorem: it does nothing, and its contract holds.

ghost use Rattle.journal_file.specs.Crash.{AnyCrash};
ghost use Rattle.journal_file.specs.Lines.{LinesAreCut, OneCut};
ghost use Rattle.journal_file.specs.Loading.{AnyPieces};
ghost use Rattle.journal_file.specs.Writing.{AnySteps, CommentsApart};

/// Octets have one cut into lines.
pub fn one_cut()
    ensures { OneCut }
{}

/// Lines that are written one after another are read as they were.
pub fn lines_are_cut()
    ensures { LinesAreCut }
{}

/// However octets come, the lines that are given are those of all of them.
pub fn any_pieces()
    ensures { AnyPieces }
{}

/// After any steps the file has the lines that were put, in their order, as far as they are written, and all up to the synced
/// place is durable.
pub fn any_steps()
    ensures { AnySteps }
{}

/// The lines that are put, without the comments, are those of the entries and of the folds in their order.
pub fn comments_are_apart()
    ensures { CommentsApart }
{}

/// After a crash at any moment the lines that are read are the first of those that were put, and none is missing of those up to
/// the synced place.
pub fn any_crash()
    ensures { AnyCrash }
{}
