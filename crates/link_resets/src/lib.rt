//! The frames of a link itself, which carry no message: how a BSC is made to forget what it broadcasts, and how the two ends say that
//! they are alive.
//!
//! Values only. `alive_frames` has the octets of KEEP ALIVE and its answer, and `alive_watch` finds them among what a BSC sends.
//! `frames` has the octets of a RESET, `emergencies` the messages that a RESET alone doesn't end, `reset_watch` finds the answer among
//! what the BSC sends, and `judging` says whether it is of all cells.
#![tactic(auto)]

mod alive_frames;
mod alive_seen;
mod alive_watch;
mod emergencies;
mod emergency_key;
mod frames;
mod judging;
mod reset_answer;
mod reset_watch;

pub use alive_frames::{alive_complete, alive_frame};
pub use alive_seen::AliveSeen;
pub use alive_watch::AliveWatch;
pub use emergencies::emergency_keys;
pub use emergency_key::EmergencyKey;
pub use frames::reset_frames;
pub use judging::judge;
pub use reset_answer::ResetAnswer;
pub use reset_watch::ResetWatch;
