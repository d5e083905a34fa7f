//! What the server is run with: its options, as the words of a command line give them, the file of peers, and what ends a run.
//!
//! Begin with `options`.
#![tactic(auto)]

mod beginning;
mod fault;
mod options;
mod peers_file;
mod peers_source;

pub use beginning::begin_text;
pub use fault::ServeFault;
pub use options::{OptionsFault, ServeOptions, read_options};
pub use peers_file::{PeersError, peers_name, read_peers};
pub use peers_source::PeersSource;
