//! One frame of a stream.

use common::Octets;

/// One message as it stands in a stream: an octet that says its type, and the information elements.
///
/// In the stream three octets stand between them, the length of the body with the most significant
/// octet first. That length doesn't count the four octets in front of the body.
#[derive(Debug, PartialEq, Eq)]
pub struct Frame {
    pub kind: u8,
    pub body: Octets,
}

/// Written out, so that no crate above proves anew how its parts are dropped.
impl Drop for Frame {
    fn drop(self) {
        let Frame {
            kind: _kind,
            body: _body,
        } = self;
    }
}
