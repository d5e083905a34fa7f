//! What holds after every legal history, and after every lawful one, as the contracts of calls that do nothing.
//!
//! `headline` says that the pending orders leave every cell broadcasting what the plan wants there. `laws` says what the
//! entries of a journal come to in other words, `refusals` which refusal an event is answered, and `checkpoints` what a
//! checkpoint leaves as it was.
#![tactic(auto)]

pub mod checkpoints;
pub mod headline;
pub mod laws;
pub mod refusals;
