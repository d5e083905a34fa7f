//! Reading a journal's file when it is opened.

ghost use Rattle.std.specs.Prelude.{◌≡◌, ◌+◌, ◌^◌, ◌<◌, ◌≤◌, ℕ, List, [], ◌∷◌, ◌++◌, false, Option, length, IfOk, IfErr, OnOk, OnErr};
ghost use Rattle.std.specs.Io.KnownBytes.{IsAtEnd};
ghost use Rattle.journal_file.specs.Lines.{is_comment, without_comments};
ghost use Rattle.journal_file.specs.Loads.{Loads, BreaksOff, TakesLines};
ghost use Rattle.journal_file.specs.Reading.{PassesOne, StopsAt, Passing, Breaking, ReadsOn, Finds, FindsNone};

use crate::comment::is_comment;
use crate::first_line::{check_first, is_torn_header};
use crate::heading::Heading;
use crate::load_fault::LoadFault;
use crate::loaded::Loaded;
use crate::loading::{LONGEST_LINE, Loading};
use crate::take_line::{NotTaken, TakeLine};
use framing::{MOST_READS, Source};
use std::alloc::Global;

/// How many octets are read at once, at most.
const PIECE: usize = 65_536;

/// Has a line taken, or a comment seen, behind the first line.
fn take_other<T: TakeLine>(line: &[u8], taker: &mut T) -> Result<(), NotTaken>
    ensures ok { OnOk result (TakesLines (T.taken taker.old) (T.taken taker.new) (without_comments (line.now ∷ []))) }
    ensures err { OnErr result (TakesLines (T.taken taker.old) (T.taken taker.new) []) }
    ensures line { OnErr result (is_comment line.now ≡ false) }
{
    if is_comment(line) {
        taker.take_comment(line);
        return Ok(());
    }
    taker.take_line(line)
}

/// Takes a line that has ended; `number` is its number.
fn take_one<T: TakeLine>(
    heading: Heading,
    number: u64,
    line: &[u8],
    taker: &mut T,
) -> Result<(), LoadFault>
    ensures ok { OnOk result (PassesOne heading number line.now (T.taken taker.old) (T.taken taker.new)) }
    ensures err { IfErr result (StopsAt heading number line.now (T.taken taker.old) (T.taken taker.new)) }
{
    if number <= 1 {
        return check_first(heading, line);
    }
    if line.len() > LONGEST_LINE {
        return Err(LoadFault::LongLine(number));
    }
    match take_other(line, taker) {
        Ok(()) => Ok(()),
        Err(NotTaken::BadLine) => Err(LoadFault::BadLine(number)),
        Err(NotTaken::Memory) => Err(LoadFault::Memory),
    }
}

/// Takes the lines that end in the piece.
fn take_piece<T: TakeLine>(
    heading: Heading,
    loading: &mut Loading,
    piece: &[u8],
    taker: &mut T,
) -> Result<(), LoadFault>
    requires { loading.old.octets + length piece.now < 2 ^ 64 }
    ensures ok { OnOk result ((octets : List ℕ) (before : Option (List (List ℕ))) → Passing heading octets loading.old before (T.taken taker.old) → Passing heading (octets ++ piece.now) loading.new before (T.taken taker.new)) }
    ensures err { IfErr result (λ fault. (octets : List ℕ) (before : Option (List (List ℕ))) → Passing heading octets loading.old before (T.taken taker.old) → Breaking heading (octets ++ piece.now) before (T.taken taker.new) fault) }
    ensures count { OnOk result (loading.new.octets ≡ loading.old.octets + length piece.now) }
{
    let mut rest = piece;
    while let Some((line, behind)) = loading.take(rest)? {
        take_one(heading, loading.ended(), line.as_slice(), taker)?;
        rest = behind;
    }
    Ok(())
}

/// What was found, at the end of the file.
fn found(heading: Heading, loading: &Loading) -> Result<Loaded, LoadFault>
    ensures ok { IfOk result (Finds heading loading.now) }
    ensures err { IfErr result (FindsNone heading loading.now) }
{
    if loading.ended() == 0
        && (loading.held().len() > LONGEST_LINE || !is_torn_header(heading, loading.held()))
    {
        return Err(LoadFault::NotJournal);
    }
    Ok(Loaded {
        lines: loading.ended(),
        whole: loading.whole(),
        torn: loading.begun(),
    })
}

/// Reads once into the piece, and takes the lines that end. The answer is whether more may come.
fn turn<S: Source, T: TakeLine>(
    heading: Heading,
    loading: &mut Loading,
    source: &mut S,
    piece: &mut [u8],
    taker: &mut T,
) -> Result<bool, LoadFault>
    requires room { loading.old.octets + length piece.old < 2 ^ 64 }
    requires some { 0 < length piece.old }
    ensures ok { OnOk result ((given : Option (List ℕ)) (before : Option (List (List ℕ))) → ReadsOn heading given (S.remaining source.old) loading.old before (T.taken taker.old) → ReadsOn heading given (S.remaining source.new) loading.new before (T.taken taker.new)) }
    ensures end { IfOk result (λ more. more ≡ false → IsAtEnd (S.remaining source.new)) }
    ensures err { IfErr result (λ fault. (given : Option (List ℕ)) (before : Option (List (List ℕ))) → ReadsOn heading given (S.remaining source.old) loading.old before (T.taken taker.old) → BreaksOff heading given (S.remaining source.new) before (T.taken taker.new) fault) }
    ensures count { OnOk result (loading.new.octets ≤ loading.old.octets + length piece.old) }
{
    match source.read(piece) {
        Ok(count) => {
            take_piece(heading, loading, &piece[..count], taker)?;
            Ok(count > 0)
        }
        Err(_) => Err(LoadFault::ReadFault),
    }
}

/// Reads to the end, with room for so many octets at once.
fn load_all<S: Source, T: TakeLine>(
    heading: Heading,
    loading: &mut Loading,
    source: &mut S,
    piece: &mut [u8],
    taker: &mut T,
) -> Result<(), LoadFault>
    requires fresh { loading.old.octets ≡ 0 }
    requires size { length piece.old ≡ 65536 }
    ensures ok { OnOk result ((given : Option (List ℕ)) (before : Option (List (List ℕ))) → ReadsOn heading given (S.remaining source.old) loading.old before (T.taken taker.old) → ReadsOn heading given (S.remaining source.new) loading.new before (T.taken taker.new)) }
    ensures end { OnOk result (IsAtEnd (S.remaining source.new)) }
    ensures err { IfErr result (λ fault. (given : Option (List ℕ)) (before : Option (List (List ℕ))) → ReadsOn heading given (S.remaining source.old) loading.old before (T.taken taker.old) → BreaksOff heading given (S.remaining source.new) before (T.taken taker.new) fault) }
{
    for _turn in 0..MOST_READS {
        if !turn(heading, loading, source, piece, taker)? {
            return Ok(());
        }
    }
    Err(LoadFault::ReadFault)
}

/// Reads what the source gives as the journal of the heading, and has each line but the first taken, or seen where it is a comment,
/// one after another.
///
/// A file in which no line ends holds no journal yet: it is empty, or holds what a torn write left of the first line. The lines
/// are the same in whatever pieces the source gives the octets.
pub fn load<S: Source, T: TakeLine>(
    alloc: Global,
    heading: Heading,
    source: &mut S,
    taker: &mut T,
) -> Result<Loaded, LoadFault>
    ensures ok { IfOk result (Loads heading (S.remaining source.old) (S.remaining source.new) (T.taken taker.old) (T.taken taker.new)) }
    ensures err { IfErr result (BreaksOff heading (S.remaining source.old) (S.remaining source.new) (T.taken taker.old) (T.taken taker.new)) }
{
    let mut loading = Loading::new(alloc);
    let mut piece = vec![in alloc; 0; PIECE]?;
    load_all(heading, &mut loading, source, &mut piece, taker)?;
    found(heading, &loading)
}
