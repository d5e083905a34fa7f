//! A message identifier.

use crate::usage::Usage;

/// A message identifier of the table.
#[derive(Clone, Copy)]
pub(crate) struct Identifier {
    pub(crate) number: u16,
    /// What an operator may type for the number.
    pub(crate) name: &'static str,
    pub(crate) usage: Usage,
}
