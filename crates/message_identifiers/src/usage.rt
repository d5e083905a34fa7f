//! What message identifiers are for.

/// What a message identifier is for.
#[derive(Clone, Copy, PartialEq, Eq, Debug)]
pub enum Usage {
    /// Warnings with a text.
    Text,
    /// Emergency warnings: those of the ETWS, which have no text.
    Emergency,
    /// No public warning, or none yet.
    Unassigned,
}
