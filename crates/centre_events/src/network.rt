//! How the messages of a centre speak of its network.

/// How the messages of a centre speak of its network: by which code they name its cells, and how many broadcasts a write
/// or a replace asks of its BSCs (TS 48.049, 8.1.3.1).
#[derive(Clone, Copy, Debug, PartialEq, Eq)]
pub struct Network {
    /// The network code, three octets (TS 24.008, 10.5.1.3).
    pub plmn: [u8; 3],
    /// The Number of Broadcasts Requested. 0 asks for broadcasts until the message is killed.
    pub broadcasts: u16,
}
