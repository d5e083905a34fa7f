//! A version of a warning, as messages name it.

/// A version of a warning: its Message Identifier and its serial number (3GPP TS 23.041, 9.4.1.2).
#[derive(Clone, Copy, Debug, PartialEq, Eq)]
pub struct Version {
    pub message_id: u16,
    pub serial: u16,
}

impl Version {
    ghost use Rattle.std.specs.Prelude.{◌≡◌};
    ghost use Rattle.link_rules.specs.QueryPaces.{is_same};

    /// Whether both are one version.
    pub(crate) fn is_same(&self, other: &Version) -> bool
        ensures { result ≡ is_same self.now other.now }
    {
        self.message_id == other.message_id && self.serial == other.serial
    }
}
