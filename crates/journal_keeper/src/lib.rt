//! A thread that keeps a journal in a file, and those who wait for it. Generic over the journal that is followed: `Followed` is an
//! office, as the thread sees it.
//!
//! Begin with `keeping`, which is what the thread does; `kept` is what it shares with those who wait, and `kept_state` what
//! stands under its lock. Whoever tells of an entry needs a `KeptUpTo`, which `wait_kept` gives once it is kept; and only with a
//! `Synced` of `journal_file`, which a sync gives, does the thread say that something is kept. What names the place of the last entry of
//! which it tells is an `Untold`, which is opened where that is covered. `specs/Following` says what the thread does with the file.
#![tactic(auto)]

mod followed;
mod keep_fault;
mod keeping;
mod kept;
mod kept_state;
mod kept_up_to;
mod untold;

pub use followed::{Followed, Seen};
pub use keep_fault::KeepFault;
pub use keeping::{Keeper, keep_journal};
pub use kept::{Kept, wait_kept};
pub use kept_state::KeptState;
pub use kept_up_to::KeptUpTo;
pub use untold::Untold;
