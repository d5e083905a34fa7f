//! How it stood before an event was entered.

use centre_lines::reached::Reached;

/// The number that the entry of an event gets, whether the link of its BSC was up before it, and the lines that it may
/// change, as they were read before it.
#[derive(Drop)]
pub(crate) struct BeforeEntry {
    pub(crate) place: u64,
    pub(crate) up: bool,
    pub(crate) reached: Reached,
}
