//! What takes the lines of a file.

ghost use Rattle.std.specs.Prelude.{◌≡◌, ℕ, List, [], ◌∷◌, Option, OnOk, OnErr};
ghost use Rattle.journal_file.specs.Loads.{TakesLines};

/// Why a line isn't taken.
#[derive(Clone, Copy, Debug, PartialEq, Eq)]
pub enum NotTaken {
    /// It is no event, or isn't accepted.
    BadLine,
    Memory,
}

/// What takes the lines of a file, one after another, and sees its comments. It tells which lines it took, where that is known.
pub trait TakeLine {
    ghost taken: { Self → Option (List (List ℕ)) };

    /// Takes the line, which is given without its end.
    fn take_line(&mut self, line: &[u8]) -> Result<(), NotTaken>
        ensures ok { OnOk result (TakesLines (taken self.old) (taken self.new) (line.now ∷ [])) }
        ensures err { OnErr result (TakesLines (taken self.old) (taken self.new) []) };

    /// Sees a comment, which is given without its end. A comment of a kind that isn't known is passed over.
    fn take_comment(&mut self, line: &[u8])
        ensures { TakesLines (taken self.old) (taken self.new) [] };
}
