//! What stands behind the words of a line.

ghost use Rattle.std.specs.Prelude.{◌≡◌};
ghost use Rattle.server_lines.specs.Rest.{behind_spaces, behind_word, behind_words};

/// The line without the spaces in front.
fn behind_spaces(line: &[u8]) -> &[u8]
    ensures { result.now ≡ behind_spaces line.now }
{
    let mut rest = line;
    while let [b' ', more @ ..] = rest {
        rest = more;
    }
    rest
}

/// What stands behind the octets other than the space with which the line begins.
fn behind_word(line: &[u8]) -> &[u8]
    ensures { result.now ≡ behind_word line.now }
{
    let mut rest = line;
    while let [octet, more @ ..] = rest {
        if *octet == b' ' {
            return rest;
        }
        rest = more;
    }
    rest
}

/// What stands behind so many words, from the first octet on that is no space.
pub(crate) fn behind_words(line: &[u8], count: usize) -> &[u8]
    ensures { result.now ≡ behind_words count line.now }
{
    let mut rest = behind_spaces(line);
    for _turn in 0..count {
        rest = behind_spaces(behind_word(rest));
    }
    rest
}
