//! Calls of the system that a signal to the process may interrupt, and that are then made again.

ghost use Rattle.std.specs.Prelude.{◌≡◌, ◌≤◌, length, IfOk};
ghost use Rattle.std.specs.Io.KnownBytes.{ReadConsumes, WriteAppends};

use crate::Failed;
use std::io::{ErrorKind, Read, Write};

/// How often in a row a call is made that is interrupted each time.
const MOST_TRIES: u32 = 1_000;

pub(crate) fn read_again<R: Read>(reader: &mut R, buffer: &mut [u8]) -> Result<usize, Failed>
    ensures bound { IfOk result (λ n. n ≤ length buffer.old) }
    ensures octets { ReadConsumes (R.remaining reader.old) (R.remaining reader.new) result buffer.new }
{
    for _try in 0..MOST_TRIES {
        match reader.read(buffer) {
            Ok(count) => return Ok(count),
            Err(error) => {
                if error.kind() != ErrorKind::Interrupted {
                    return Err(Failed);
                }
            }
        }
    }
    Err(Failed)
}

pub(crate) fn write_again<W: Write>(writer: &mut W, octets: &[u8]) -> Result<usize, Failed>
    ensures bound { IfOk result (λ n. n ≤ length octets.now) }
    ensures octets { WriteAppends (W.contents writer.old) (W.contents writer.new) result octets.now }
{
    for _try in 0..MOST_TRIES {
        match writer.write(octets) {
            Ok(count) => return Ok(count),
            Err(error) => {
                if error.kind() != ErrorKind::Interrupted {
                    return Err(Failed);
                }
            }
        }
    }
    Err(Failed)
}
