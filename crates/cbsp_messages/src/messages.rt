//! The messages, each in a file of its own: its fields, how it is made of the elements of a body, what it says for
//! each element, and its copy.

mod error_indication;
mod failure;
mod kill;
mod kill_complete;
mod kill_failure;
mod restart;
mod status_complete;
mod status_failure;
mod status_query;
mod write_complete;
mod write_emergency;
mod write_failure;
mod write_replace;

pub use error_indication::ErrorIndication;
pub use failure::Failure;
pub use kill::Kill;
pub use kill_complete::KillComplete;
pub use kill_failure::KillFailure;
pub use restart::Restart;
pub use status_complete::StatusComplete;
pub use status_failure::StatusFailure;
pub use status_query::StatusQuery;
pub use write_complete::WriteComplete;
pub use write_emergency::WriteEmergency;
pub use write_failure::WriteFailure;
pub use write_replace::WriteReplace;
