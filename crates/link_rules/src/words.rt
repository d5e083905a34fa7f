//! The lines of a text, and the words of a line.

ghost use Rattle.std.specs.Prelude.{◌≡◌, ◌<◌, [], ◌∷◌, false, MatchOption, length, position};
ghost use Rattle.link_rules.specs.Blocks.{is_slash};
ghost use Rattle.link_rules.specs.Words.{is_blank, is_empty, is_end, lines_of, parts_by, words_of};

/// A space, a tab or a carriage return.
fn is_blank(octet: u8) -> bool
    ensures { result ≡ is_blank octet }
{
    octet == b' ' || octet == b'\t' || octet == b'\r'
}

/// A line feed.
fn is_end(octet: u8) -> bool
    ensures { result ≡ is_end octet }
{
    octet == b'\n'
}

/// A slash.
fn is_slash(octet: u8) -> bool
    ensures { result ≡ is_slash octet }
{
    octet == b'/'
}

/// Where the first line of the text ends.
fn end_place(text: &[u8]) -> Option<usize>
    ensures { result ≡ position is_end text.now }
{
    text.iter().position(|octet| is_end(*octet))
}

/// Where the first blank of the text stands.
fn blank_place(text: &[u8]) -> Option<usize>
    ensures { result ≡ position is_blank text.now }
{
    text.iter().position(|octet| is_blank(*octet))
}

/// Where the first slash of the text stands.
fn slash_place(text: &[u8]) -> Option<usize>
    ensures { result ≡ position is_slash text.now }
{
    text.iter().position(|octet| is_slash(*octet))
}

/// What stands before the first slash, and what stands behind it; `None` where there is none.
pub(crate) fn cut_slash(text: &[u8]) -> Option<(&[u8], &[u8])>
    ensures { MatchOption result (parts_by is_slash text.now ≡ text.now ∷ []) (λ cut. parts_by is_slash text.now ≡ cut.0.now ∷ parts_by is_slash cut.1.now) }
{
    match slash_place(text) {
        Some(place) => Some((&text[..place], &text[place + 1..])),
        None => None,
    }
}

/// The first line of the text, and what stands behind its end; `None` where no line ends.
pub(crate) fn cut_line(text: &[u8]) -> Option<(&[u8], &[u8])>
    ensures { MatchOption result (lines_of text.now ≡ text.now ∷ []) (λ cut. (lines_of text.now ≡ cut.0.now ∷ lines_of cut.1.now) × (length cut.1.now < length text.now)) }
{
    match end_place(text) {
        Some(place) => Some((&text[..place], &text[place + 1..])),
        None => None,
    }
}

/// What stands before the first blank, and what stands behind it.
fn cut_part(text: &[u8]) -> Option<(&[u8], &[u8])>
    ensures { MatchOption result (parts_by is_blank text.now ≡ text.now ∷ []) (λ cut. (parts_by is_blank text.now ≡ cut.0.now ∷ parts_by is_blank cut.1.now) × (length cut.1.now < length text.now)) }
{
    match blank_place(text) {
        Some(place) => Some((&text[..place], &text[place + 1..])),
        None => None,
    }
}

/// The first word of the line, and what stands behind it.
pub(crate) fn cut_word(line: &[u8]) -> Option<(&[u8], &[u8])>
    ensures { MatchOption result (words_of line.now ≡ []) (λ cut. (words_of line.now ≡ cut.0.now ∷ words_of cut.1.now) × (is_empty cut.0.now ≡ false) × (length cut.1.now < length line.now)) }
{
    let mut rest = line;
    while let Some((part, behind)) = cut_part(rest) {
        if !part.is_empty() {
            return Some((part, behind));
        }
        rest = behind;
    }
    if rest.is_empty() {
        None
    } else {
        Some((rest, &[]))
    }
}
