//! The parts of a text between separators.

ghost use Rattle.std.specs.Prelude.{◌≡◌, ◌++◌, ◌∷◌, [], IfOk, OnOk};
ghost use Rattle.console_text.specs.Parts.{parts_of};

use crate::runs::cut_at;
use crate::word::Word;
use std::alloc::{AllocError, Global};

/// What stands between the separators, empty parts too.
#[tactic(auto, using(crate::proofs::PartLemmas::parts_one))]
pub fn split_parts(alloc: Global, text: &[u8], separator: u8) -> Result<Vec<Word<'_>>, AllocError>
    ensures { IfOk result (λ parts. parts.items ≡ parts_of separator text.now) }
{
    let mut parts = Vec::new(alloc);
    let mut rest = text;
    while let Some((part, behind)) = cut_at(rest, separator) {
        push_part(&mut parts, part)?;
        rest = behind;
    }
    push_part(&mut parts, rest)?;
    Ok(parts)
}

fn push_part<'a>(parts: &mut Vec<Word<'a>>, part: &'a [u8]) -> Result<(), AllocError>
    ensures { OnOk result (parts.new.items ≡ parts.old.items ++ part.now ∷ []) }
{
    parts.push(Word::of(part))?;
    Ok(())
}
