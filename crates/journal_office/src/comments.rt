//! The comment of a kept file that says where a link came from.

ghost use Rattle.std.specs.Prelude.{◌≡◌, ◌∷◌, [], ℕ, IfOk, MatchOption, string_bytes};
ghost use Rattle.std.specs.declared.net.socket_addr.SocketAddr.{SocketAddr as ASocketAddr};
ghost use Rattle.journal_office.specs.LinkComments.{IsPeer, SayPeer, SaysPeer, comment_text};

use cell_register::BscId;
use console_text::grammar::read_bsc;
use console_text::word::Word;
use console_text::words::{is_word, split_words};
use std::alloc::{AllocError, Global};
use std::net::SocketAddr;

/// The comment that the BSC's last link came from there: `# link B ADDRESS:PORT`.
pub fn link_comment(alloc: Global, bsc: BscId, peer: &SocketAddr) -> Result<String, AllocError>
    ensures { IfOk result (λ text. string_bytes text ≡ comment_text bsc peer.now) }
{
    let number = bsc.number();
    format!(in alloc; "# link {number} {peer}")
}

/// The BSC and the address of the two words.
fn peer_in(bsc: &[u8], peer: &[u8]) -> Option<(BscId, SocketAddr)>
    ensures { MatchOption result ((b : ℕ) (a : ASocketAddr) → ¬ IsPeer bsc.now peer.now b a) (λ p. IsPeer bsc.now peer.now p.0 p.1) }
{
    let bsc = read_bsc(bsc)?;
    match SocketAddr::parse_ascii(peer) {
        Ok(peer) => Some((bsc, peer)),
        Err(_) => None,
    }
}

/// What the four words of a comment say.
fn said_by(mark: &[u8], kind: &[u8], bsc: &[u8], peer: &[u8]) -> Option<(BscId, SocketAddr)>
    ensures { MatchOption result ((b : ℕ) (a : ASocketAddr) → ¬ SayPeer (mark.now ∷ kind.now ∷ bsc.now ∷ peer.now ∷ []) b a) (λ p. SayPeer (mark.now ∷ kind.now ∷ bsc.now ∷ peer.now ∷ []) p.0 p.1) }
{
    if is_word(mark, b"#") && is_word(kind, b"link") {
        peer_in(bsc, peer)
    } else {
        None
    }
}

/// What the words of a comment say.
fn said_in(words: &[Word<'_>]) -> Option<(BscId, SocketAddr)>
    ensures { MatchOption result ((b : ℕ) (a : ASocketAddr) → ¬ SayPeer words.now b a) (λ p. SayPeer words.now p.0 p.1) }
{
    match words {
        [mark, kind, bsc, peer] => said_by(
            mark.as_slice(),
            kind.as_slice(),
            bsc.as_slice(),
            peer.as_slice(),
        ),
        _ => None,
    }
}

/// From where which BSC's last link came, where the comment says so. `None` where it is of another kind.
pub fn read_link_comment(
    alloc: Global,
    line: &[u8],
) -> Result<Option<(BscId, SocketAddr)>, AllocError>
    ensures { IfOk result (λ found. MatchOption found ((b : ℕ) (a : ASocketAddr) → ¬ SaysPeer line.now b a) (λ p. SaysPeer line.now p.0 p.1)) }
{
    let words = split_words(alloc, line)?;
    Ok(said_in(words.as_slice()))
}
