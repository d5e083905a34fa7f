//! What is known to stay of a line that changes.

/// What a caller knows of a line before a change and after it. Where nothing is known both are looked at.
#[derive(Clone, Copy, Debug)]
pub struct Stays {
    /// What is kept of the line is the same.
    pub line: bool,
    /// The same of the warning's areas cover the cell.
    pub areas: bool,
}
