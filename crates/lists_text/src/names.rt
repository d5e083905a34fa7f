//! Texts with a comma between them.

ghost use Rattle.std.specs.Prelude.{◌≡◌, ◌++◌, OnOk, codes};
ghost use Rattle.lists_text.specs.ListTexts.{after_commas, joined};

use crate::lines::push_line;
use common::Name;
use std::alloc::AllocError;

/// Puts a text behind another, after a comma.
pub(crate) fn push_after_comma(text: &mut Vec<u8>, more: &[u8]) -> Result<(), AllocError>
    ensures { OnOk result (text.new.items ≡ text.old.items ++ (codes "," ++ more.now)) }
{
    text.push(b',')?;
    text.extend_from_slice(more)?;
    Ok(())
}

/// Puts names behind the text, each after a comma.
fn push_more_names(text: &mut Vec<u8>, names: &[Name]) -> Result<(), AllocError>
    ensures { OnOk result (text.new.items ≡ text.old.items ++ after_commas names.now) }
{
    for name in names {
        push_after_comma(text, name.as_slice())?;
    }
    Ok(())
}

/// Puts names behind the text, with a comma between them, or `none`.
pub(crate) fn push_names(text: &mut Vec<u8>, names: &[Name]) -> Result<(), AllocError>
    ensures { OnOk result (text.new.items ≡ text.old.items ++ joined names.now) }
{
    match names {
        [] => push_line(text, "none"),
        [first, more @ ..] => {
            text.extend_from_slice(first.as_slice())?;
            push_more_names(text, more)
        }
    }
}
