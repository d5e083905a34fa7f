//! Why a line is bad.

use crate::stray::Stray;
use common::{Names, Octets};

/// Why a line is bad. Words are counted from 1, and so are columns, in letters.
#[derive(Drop)]
pub enum LineFault {
    /// In this column, before any text, stands a letter that parts no words.
    Stray(Stray, usize),
    /// No line begins with this word. The nearest that does has at most two other letters, and at most half.
    NoSuchWord(Octets, Option<Octets>),
    /// No line goes on with this second word, which is empty where there is none. These are the words that it may be.
    NoSuchSecond(Octets, Names),
    /// The word at this position, which has this name, is no number: the word itself comes last.
    NotNumber(usize, Octets, Octets),
    /// The same of a number that is too small or too large.
    OutOfRange(usize, Octets, Octets),
    /// The words of these names are missing.
    Missing(Names),
    /// There are so many words too many.
    TooMany(usize),
    /// Nothing is wrong with the words: the line is one of another place, as `watch` is of the socket file's consoles.
    NotHere,
}
