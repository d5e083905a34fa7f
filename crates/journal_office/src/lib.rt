//! The journal of an office in a file: the office as the thread sees it that keeps its journal, and how the lines of a file are
//! entered into an office.
//!
//! Begin with `office_journal`, then `start`, which takes one line, and `entering`, which takes a file. `laws` says what a crash at any moment leaves of a journal that is kept so. `last_peers` looks in a file for where the links came from that are up at its end.
#![tactic(auto)]

mod comments;
mod entering;
mod last_peers;
pub mod laws;
mod link_peers;
mod losing;
mod office_journal;
mod start;

pub use comments::{link_comment, read_link_comment};
pub use entering::Entering;
pub use last_peers::LastPeers;
pub use link_peers::{LinkPeers, NoPeers};
pub use office_journal::OfficeJournal;
pub use start::Start;
