//! Lines that were said, as a console is shown them.

/// Lines that were said, as a console is shown them.
#[derive(Debug, Drop)]
pub struct Said {
    /// The number of the last.
    pub place: u64,
    pub text: Vec<u8>,
}
