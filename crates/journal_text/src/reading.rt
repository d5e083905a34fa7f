//! What a line of a journal asks for.

ghost use Rattle.std.specs.Prelude.{◌≡◌, IfOk};
ghost use Rattle.journal_text.specs.Reading.{request_of};

use console_text::grammar::read_line;
use console_text::line::Line;
use console_text::lines::without_return;
use console_text::words::{is_comment, split_words};
use std::alloc::{AllocError, Global};

/// What a line asks for, given without its end; `None` for a blank line, a comment and a bad line.
pub fn request_of(alloc: Global, line: &[u8]) -> Result<Option<Line>, AllocError>
    ensures { IfOk result (λ request. request ≡ request_of line.now) }
{
    let words = split_words(alloc, without_return(line))?;
    let [first, ..] = words.as_slice() else {
        return Ok(None);
    };
    if is_comment(first.as_slice()) {
        return Ok(None);
    }
    read_line(alloc, &words)
}
