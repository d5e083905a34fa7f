//! The keys of the maps of header fields.

use std::hash::RandomState;
use std::io;
use std::random::RandomSource;

/// Octets that anybody knows.
struct NoSecret;

impl RandomSource for NoSecret {
    fn fill_bytes(&self, buf: &mut [u8]) -> io::Result<()> {
        buf.fill(0);
        Ok(())
    }
}

/// The keys by which a map of header fields finds its place for each. A head has at most 64 fields, so whoever chooses their names
/// can't make the map slow, and needn't be kept from knowing the keys.
pub(crate) fn keys() -> io::Result<RandomState> {
    RandomState::new(&NoSecret)
}
