//! How the lines of an operator end.

ghost use Rattle.std.specs.Prelude.{◌≡◌};
ghost use Rattle.server_operator.specs.Leavings.{leaving_of};

use server_lines::server_line::ServerLine;

/// How the lines of an operator ended.
#[derive(Clone, Copy, Debug, PartialEq, Eq)]
pub enum Leaving {
    /// The input has ended, or nothing is answered any more.
    Ended,
    /// `quit`
    Quit,
    /// `shutdown`
    Shutdown,
    /// `watch`, by an operator who may.
    Watch,
}

/// How the line ends the lines, if it does.
pub(crate) fn leaving_of(line: &ServerLine, may_watch: bool) -> Option<Leaving>
    ensures { result ≡ leaving_of line.now may_watch }
{
    match line {
        ServerLine::Quit => Some(Leaving::Quit),
        ServerLine::Shutdown => Some(Leaving::Shutdown),
        ServerLine::Watch if may_watch => Some(Leaving::Watch),
        _ => None,
    }
}
