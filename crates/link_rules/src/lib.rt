//! The rules that a server's links keep: how fast reports and connections are let in, what reports may cost, when an order is said to
//! have no reply, when a BSC that says nothing is asked whether it is alive, which order is out again and again, which connection gets
//! the link of a BSC, and when the journal is folded.
//!
//! Values only: nothing here waits, reads a clock or knows a socket. A time is given in milliseconds of a clock that goes on.
//! Begin with `rate_limit` and `deciding`. The words of their contracts stand in `specs/`.
#![tactic(auto)]

mod alive_pace;
mod alive_step;
mod block;
mod bucket;
mod cost;
mod cost_limit;
mod deciding;
mod fold_pace;
mod overdue;
mod pace;
mod peer;
mod peers;
mod peers_fault;
mod query;
mod query_pace;
mod query_turns;
mod rate_limit;
mod reading;
mod repeat;
mod repeats;
mod reply_pace;
mod verdict;
mod version;
mod version_due;
mod versions_due;
mod words;

pub use alive_pace::AlivePace;
pub use alive_step::AliveStep;
pub use cost::{Cost, kept_of_order};
pub use cost_limit::CostLimit;
pub use deciding::decide;
pub use fold_pace::FoldPace;
pub use overdue::Overdue;
pub use peers::Peers;
pub use peers_fault::PeersFault;
pub use query::Query;
pub use query_pace::QueryPace;
pub use query_turns::QueryTurns;
pub use rate_limit::RateLimit;
pub use repeat::Repeat;
pub use repeats::Repeats;
pub use reply_pace::ReplyPace;
pub use verdict::Verdict;
pub use version::Version;
