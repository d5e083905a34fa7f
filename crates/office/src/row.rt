//! What an office knows of a desk.

/// How many entries of the desk there are, and the number of the last, 0 where there is none.
#[derive(Clone, Copy, Debug)]
pub struct Row {
    pub entries: u64,
    pub last: u64,
}
