//! The lines of octets.

ghost use Rattle.std.specs.Prelude.{◌≡◌};
ghost use Rattle.console_text.specs.Lines.{without_return};

/// The most octets that a line may have, without its end.
pub const LONGEST_LINE: usize = 600_000;

/// The line without one carriage return at its end.
pub fn without_return(line: &[u8]) -> &[u8]
    ensures { result.now ≡ without_return line.now }
{
    match line {
        [front @ .., b'\r'] => front,
        _ => line,
    }
}
