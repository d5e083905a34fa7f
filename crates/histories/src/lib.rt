//! Lists that only proofs know.
//!
//! What was let go of a list takes no memory any more, and contracts still speak of it: a value with a `History` beside the
//! list is seen as the whole list.
#![tactic(auto)]

mod history;

pub use history::History;
