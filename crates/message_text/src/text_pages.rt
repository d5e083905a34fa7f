//! The pages of a text.

use common::Octets;

/// The pages of a text with the data coding scheme that they are to be read by.
#[derive(Debug, Drop)]
pub struct TextPages {
    pub dcs: u8,
    pub pages: Vec<Octets>,
}
