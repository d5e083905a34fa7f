//! Runs of octets, as a search finds them.

ghost use Rattle.std.specs.Prelude.{◌≡◌, ◌==◌, ◌++◌, ◌∷◌, MatchOption, position};
ghost use Rattle.console_text.specs.Parts.{HasNone};

use memchr::memchr;

/// Where the octet stands first.
fn first_place(text: &[u8], octet: u8) -> Option<usize>
    ensures { result ≡ position (λ x. x == octet) text.now }
{
    memchr(octet, text)
}

/// What stands before the first separator, and what stands behind it.
pub fn cut_at(text: &[u8], separator: u8) -> Option<(&[u8], &[u8])>
    ensures { MatchOption result (HasNone separator text.now) (λ cut. (text.now ≡ cut.0.now ++ separator ∷ cut.1.now) × HasNone separator cut.0.now) }
{
    match first_place(text, separator) {
        Some(place) => Some((&text[..place], &text[place + 1..])),
        None => None,
    }
}
