//! What a message is found by.

ghost use Rattle.std.specs.Prelude.{◌≡◌};
ghost use Rattle.broadcast_watch.specs.Versions.{key_of, version_of};

use link_rules::Version;

/// The Message Identifier and the serial number of a message, in the order of messages.
#[derive(Clone, Copy, Debug, PartialEq, Eq, PartialOrd, Ord)]
pub struct MessageKey {
    message_id: u16,
    serial: u16,
}

impl MessageKey {
    pub(crate) fn of(version: Version) -> MessageKey
        ensures { result ≡ key_of version }
    {
        MessageKey {
            message_id: version.message_id,
            serial: version.serial,
        }
    }

    pub(crate) fn version(self) -> Version
        ensures { result ≡ version_of self }
    {
        Version {
            message_id: self.message_id,
            serial: self.serial,
        }
    }
}
