//! Whether a reply is overdue.

/// Whether the reply to an order or a query is overdue, and what is to be done. `seconds` is for how long it has been out, in
/// whole seconds.
#[derive(Clone, Copy, Debug, PartialEq, Eq)]
pub enum Overdue {
    No,
    /// It is to be said.
    Tell { seconds: u64 },
    /// The link is to be cut.
    Cut { seconds: u64 },
}
