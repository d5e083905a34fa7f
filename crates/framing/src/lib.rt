//! Frames of CBSP (3GPP TS 48.049, clause 8) from a stream that comes in any pieces, and the two sides
//! of a stream, what is read from and what is written to.
//!
//! `framer` cuts the stream, and `laws` says what that gives over whole streams.
#![tactic(auto)]

mod failed;
mod fault;
pub mod faulty;
mod frame;
mod framer;
mod interrupted;
pub mod laws;
mod sink;
mod source;

pub use failed::Failed;
pub use fault::FrameFault;
pub use frame::Frame;
pub use framer::Framer;
pub use sink::{FromWrite, Sink, write_all};
pub use source::{FromRead, MOST_READS, Source};
