//! What kind of request is in flight.

/// A WRITE-REPLACE without an Old Serial Number, one with it, a KILL or a MESSAGE STATUS QUERY (TS 48.049, 8.1.3).
#[derive(Clone, Copy, Debug, PartialEq, Eq)]
pub enum FlightKind {
    Write,
    Replace,
    Kill,
    Query,
}
