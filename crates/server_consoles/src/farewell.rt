//! How a connection ends.

ghost use Rattle.std.specs.Prelude.{◌≡◌};
ghost use Rattle.server_consoles.specs.LastWords.{last_words_of};

use console_text::ReplayFault;
use server_operator::Leaving;
use std::io::{Read, Write};
use std::net::Shutdown;
use std::os::unix::net::UnixStream;

/// How many pieces are read of what came and isn't answered.
const MOST_PIECES: u32 = 256;

/// How many octets a piece has.
const PIECE: usize = 4096;

/// What a console is told as it ends, where its lines ended so.
pub(crate) fn last_words(ended: Result<Leaving, ReplayFault>) -> &'static [u8]
    ensures { result.now ≡ last_words_of ended }
{
    match ended {
        Ok(Leaving::Quit | Leaving::Shutdown) => b"bye\n",
        Err(ReplayFault::LongLine) => b"line too long\n",
        Err(ReplayFault::Memory) => b"out of memory\n",
        _ => b"",
    }
}

/// Reads what has come into the piece and lets go of it, piece by piece.
fn drain(mut stream: &UnixStream, piece: &mut [u8]) {
    for _ in 0..MOST_PIECES {
        match stream.read(piece) {
            Ok(count) if count > 0 => {}
            _ => return,
        }
    }
}

/// Writes the text as the last. What has come by then is let go, and nothing more comes: else the system tells the other end of a fault,
/// in place of the end, once the connection is closed.
pub(crate) fn part(mut stream: &UnixStream, text: &[u8]) {
    let _ = stream.write_all(text);
    let _ = stream.shutdown(Shutdown::Read);
    if stream.set_nonblocking(true).is_ok() {
        let mut piece = [0u8; PIECE];
        drain(stream, &mut piece);
    }
}
