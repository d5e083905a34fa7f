//! Where a line ends.

ghost use Rattle.std.specs.Prelude.{◌≡◌, ◌∷◌, ◌++◌, ◌==◌, IsTrue, ◌↔◌, MatchOption, position};
ghost use Rattle.journal_file.specs.Lines.{HasNoEnd};

use memchr::memchr;

/// Where the first line feed stands.
fn first_end(octets: &[u8]) -> Option<usize>
    ensures { result ≡ position (λ x. x == 10) octets.now }
{
    memchr(b'\n', octets)
}

/// What stands before the first line feed, and what stands behind it.
pub(crate) fn cut_at_end(octets: &[u8]) -> Option<(&[u8], &[u8])>
    ensures { MatchOption result (HasNoEnd octets.now) (λ cut. (octets.now ≡ cut.0.now ++ 10 ∷ cut.1.now) × HasNoEnd cut.0.now) }
{
    match first_end(octets) {
        Some(place) => Some((&octets[..place], &octets[place + 1..])),
        None => None,
    }
}

/// Whether no line ends in the octets.
pub(crate) fn has_no_end(octets: &[u8]) -> bool
    ensures { IsTrue result ↔ HasNoEnd octets.now }
{
    match first_end(octets) {
        Some(_) => false,
        None => true,
    }
}
