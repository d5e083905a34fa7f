//! What a text takes.

use crate::coding::Coding;

/// What a text takes.
#[derive(Clone, Copy, Debug, PartialEq, Eq)]
pub struct Measure {
    pub letters: usize,
    pub coding: Coding,
    /// The first letter that the default alphabet doesn't have, behind its place, which is counted from 0.
    pub uncoded: Option<(usize, char)>,
    /// How many pages it needs, also where these are more than a message may have.
    pub pages: usize,
}
