//! The message identifier of a warning that is issued with a text.

/// A message identifier as an operator types it.
#[derive(Clone, Copy)]
pub struct SaidIdentifier {
    /// The message identifier (TS 23.041, 9.4.1.2.2).
    pub number: u16,
    /// Whether it is meant as it is typed, whatever it is for: then `!` stands before it.
    pub is_meant: bool,
}
