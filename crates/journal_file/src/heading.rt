//! What the first line of a journal's file names.

/// What the first line of a journal's file names: how the messages of its centre speak of the network. The lines of the
/// entries don't say it, and what a send is answered depends on it.
#[derive(Clone, Copy, Debug, PartialEq, Eq)]
pub struct Heading {
    /// The network code, three octets (TS 24.008, 10.5.1.3).
    pub plmn: [u8; 3],
    /// How many broadcasts a message requests (TS 48.049, 8.1.3.1); 0 is until it is killed.
    pub broadcasts: u16,
}
