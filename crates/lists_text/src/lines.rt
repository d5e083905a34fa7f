//! Lines that are put behind a text.

ghost use Rattle.std.specs.Prelude.{◌≡◌, ◌++◌, OnOk};
ghost use Rattle.lists_text.specs.ListTexts.{count_text};

use std::alloc::{AllocError, Global};

/// Puts a line, or a part of one, behind the text.
pub(crate) fn push_line(text: &mut Vec<u8>, line: &str) -> Result<(), AllocError>
    ensures { OnOk result (text.new.items ≡ text.old.items ++ line.now) }
{
    text.extend_from_slice(line.as_bytes())
}

/// Puts the last line of a list behind the text: how many things it has.
pub(crate) fn push_count(
    alloc: Global,
    text: &mut Vec<u8>,
    things: &str,
    count: usize,
) -> Result<(), AllocError>
    ensures { OnOk result (text.new.items ≡ text.old.items ++ count_text things.now count) }
{
    let line = format!(in alloc; "{things} {count}\n")?;
    push_line(text, line.as_str())
}
