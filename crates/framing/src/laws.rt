//! What follows from the contracts of the framer, over whole streams. Each function is a theorem:
//! it does nothing, and its contract holds of all streams.

ghost use Rattle.framing.specs.Runs.{AnyPieces, RefusedStream, StaysTooLong, TakenStream};
ghost use Rattle.framing.specs.Streams.{FramesAreCut, OneCut, PiecesJoin};

/// A stream has one cutting, so however it comes the same frames are given.
pub fn one_cut()
    ensures { OneCut }
{}

/// What is cut from a part of a stream stays cut.
pub fn pieces_join()
    ensures { PiecesJoin }
{}

/// Frames that are written one after another are read as they were.
pub fn frames_are_cut()
    ensures { FramesAreCut }
{}

/// After any pieces that were taken, the frames given and still to be given, and the octets held,
/// are the cutting of all pieces joined.
pub fn any_pieces()
    ensures { AnyPieces }
{}

/// After any pieces that were taken, one that is refused as too long makes the whole stream so.
pub fn refused_stream()
    ensures { RefusedStream }
{}

/// After any pieces that were taken, one that is taken too doesn't make the whole stream too long.
pub fn taken_stream()
    ensures { TakenStream }
{}

/// After a piece that was refused as too long, four octets are held, and the next is refused so too.
pub fn stays_too_long()
    ensures { StaysTooLong }
{}
