//! The words of a line.

ghost use Rattle.std.specs.Prelude.{◌≡◌, ◌++◌, ◌∷◌, [], IfOk, OnOk, bytes_eq};
ghost use Rattle.console_text.specs.Words.{is_comment, words_of, non_empty};

use crate::runs::cut_at;
use crate::word::Word;
use std::alloc::{AllocError, Global};

/// The longest runs of octets other than the space, in their order.
#[tactic(auto, using(crate::proofs::PartLemmas::parts_one))]
pub fn split_words(alloc: Global, line: &[u8]) -> Result<Vec<Word<'_>>, AllocError>
    ensures { IfOk result (λ words. words.items ≡ words_of line.now) }
{
    let mut words = Vec::with_capacity(alloc, 8)?;
    let mut rest = line;
    while let Some((word, behind)) = cut_at(rest, b' ') {
        push_word(&mut words, word)?;
        rest = behind;
    }
    push_word(&mut words, rest)?;
    Ok(words)
}

fn push_word<'a>(words: &mut Vec<Word<'a>>, word: &'a [u8]) -> Result<(), AllocError>
    ensures { OnOk result (words.new.items ≡ words.old.items ++ non_empty (word.now ∷ [])) }
{
    if word.is_empty() {
        return Ok(());
    }
    words.push(Word::of(word))?;
    Ok(())
}

/// Whether the word is this text.
pub fn is_word(word: &[u8], text: &[u8]) -> bool
    ensures { result ≡ bytes_eq word.now text.now }
{
    word == text
}

/// Whether the first word of a line is that of a comment.
pub fn is_comment(word: &[u8]) -> bool
    ensures { result ≡ is_comment word.now }
{
    match word {
        [first, ..] => *first == b'#',
        [] => false,
    }
}
