//! Sources and sinks that misbehave as a connection may. They are for tests, of the crates above too.

mod ends_at_read;
mod fails_after;
mod fails_at_read;
mod in_pieces;

pub use ends_at_read::EndsAtRead;
pub use fails_after::FailsAfter;
pub use fails_at_read::FailsAtRead;
pub use in_pieces::InPieces;
