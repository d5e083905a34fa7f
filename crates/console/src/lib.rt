//! The console of a cell broadcast centre: lines of text go in, and each is answered at once.
//!
//! Octets become lines (`console`), a line becomes words and a `Line` (`console_text`), a `Line` is an event or a question to
//! the centre (`session`), and its `Response` becomes text (`console_text`). Begin with `session` and `replaying`; what a run
//! promises stands in `specs/Replays` and `specs/Sessions`.
#![tactic(auto)]

mod console;
mod generations;
mod kept;
mod laws;
mod replaying;
mod running;
mod session;

pub use laws::{one_text, stays_whole};
pub use replaying::replay;
pub use running::{run, run_script};
