//! Which lines are comments.

ghost use Rattle.std.specs.Prelude.{◌≡◌};
ghost use Rattle.journal_file.specs.Lines.{is_comment};

/// Whether the line is a comment: its first octet is `#`.
pub(crate) fn is_comment(line: &[u8]) -> bool
    ensures { result ≡ is_comment line.now }
{
    match line {
        [first, ..] => *first == b'#',
        [] => false,
    }
}
