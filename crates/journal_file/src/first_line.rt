//! The first line of a journal's file.

ghost use Rattle.std.specs.Prelude.{◌≡◌, ◌↔◌, ◌+◌, ◌<◌, ◌≤◌, ℕ, List, ◌++◌, Some, IsTrue, IfSome, MatchOption, MatchResult, codes, decimal, length, OnOk};
ghost use Rattle.arrayvec.specs.ArrayVec.{array_vec_len};
ghost use Rattle.journal_file.specs.First.{IsHeader, IsHeading, IsTornHeader, broadcasts_text, header_line};
ghost use Rattle.journal_file.specs.FirstFault.{IsFirstFault, IsWithoutZeros};
ghost use Rattle.journal_file.specs.declared.heading.Heading as heading_spec;

use crate::heading::Heading;
use crate::load_fault::LoadFault;
use arrayvec::ArrayVec;
use hex::FromHex;
use itoa::Buffer;
use std::str;

/// What stands in front of the network in the first line.
const FRONT: &[u8] = b"# cbc journal, network ";

/// What stands in front of the number of broadcasts.
const BROADCASTS: &[u8] = b", broadcasts ";

/// Appends octets for which there is room.
fn push(line: &mut ArrayVec<u8, 47>, octets: &[u8])
    requires { array_vec_len line.old + length octets.now ≤ 47 }
    ensures items { line.new.items ≡ line.old.items ++ octets.now }
    ensures len { array_vec_len line.new ≡ array_vec_len line.old + length octets.now }
{
    line.try_extend_from_slice(octets).unwrap();
}

/// Appends the number of broadcasts; 0 is not said.
fn push_broadcasts(line: &mut ArrayVec<u8, 47>, broadcasts: u16)
    requires { array_vec_len line.old ≤ 29 }
    ensures { line.new.items ≡ line.old.items ++ broadcasts_text broadcasts }
{
    if broadcasts == 0 {
        return;
    }
    let mut digits = Buffer::new();
    push(line, BROADCASTS);
    push(line, digits.format(broadcasts).as_bytes());
}

/// The first line of the journal of a heading, without its end: `# cbc journal, network 00f110`, with the network code as six
/// hexadecimal digits, and behind it `, broadcasts 65535` where the number isn't 0. To a script it is a comment.
pub fn header(heading: Heading) -> ArrayVec<u8, 47>
    ensures line { result.items ≡ header_line heading }
    ensures size { length heading.plmn ≡ 3 }
{
    let mut digits = [0; 6];
    let _ = hex::encode_to_slice(heading.plmn.as_slice(), &mut digits);
    let mut line = ArrayVec::new();
    push(&mut line, FRONT);
    push(&mut line, digits.as_slice());
    push_broadcasts(&mut line, heading.broadcasts);
    line
}

/// The digits of the network in a first line, and what stands behind them.
fn parts_of(line: &[u8]) -> Option<(&[u8], &[u8])>
    ensures { (digits end : List ℕ) → length digits ≡ 6 → line.now ≡ (codes "# cbc journal, network " ++ digits) ++ end → MatchOption result ⊥ (λ p. (p.0.now ≡ digits) × (p.1.now ≡ end)) }
{
    line.strip_prefix(FRONT)?.split_at_checked(6)
}

/// The number of 16 bits that the digits write.
fn number_of(digits: &[u8]) -> Option<u16>
    ensures { (n : ℕ) → n < 65536 → digits.now ≡ decimal n → result ≡ Some n }
{
    let Ok(text) = str::from_utf8(digits) else {
        return None;
    };
    match text.parse::<u16>() {
        Ok(number) => Some(number),
        Err(_) => None,
    }
}

/// The number of broadcasts that stands behind the network.
fn broadcasts_of(end: &[u8]) -> Option<u16>
    ensures { (n : ℕ) → n < 65536 → end.now ≡ broadcasts_text n → result ≡ Some n }
{
    if end.is_empty() {
        return Some(0);
    }
    number_of(end.strip_prefix(BROADCASTS)?)
}

/// What the line names, if it is the first one of a journal.
fn read_heading(line: &[u8]) -> Option<Heading>
    ensures read { (heading : heading_spec.Heading) → IsHeading heading → line.now ≡ header_line heading → result ≡ Some heading }
    ensures heading { IfSome result IsHeading }
{
    let (digits, end) = parts_of(line)?;
    let plmn = <[u8; 3] as FromHex>::from_hex(digits).ok()?;
    let broadcasts = broadcasts_of(end)?;
    Some(Heading { plmn, broadcasts })
}

/// What the first line of a journal names; `None` where the line is the first of none.
fn heading_of(line: &[u8]) -> Option<Heading>
    ensures { MatchOption result (¬ IsHeader line.now) (λ heading. IsHeading heading × (line.now ≡ header_line heading) × (length line.now ≤ 47)) }
{
    let heading = read_heading(line)?;
    if header(heading).as_slice() == line {
        Some(heading)
    } else {
        None
    }
}

/// Whether the line is the first one of the journal that is asked for. `NotJournal` where it is the first of none, then
/// `OtherNetwork` where it is that of another network, and then `OtherBroadcasts` where it names another number of broadcasts.
pub(crate) fn check_first(heading: Heading, line: &[u8]) -> Result<(), LoadFault>
    ensures fault { MatchResult result (λ _. line.now ≡ header_line heading) (IsFirstFault heading line.now) }
    ensures size { OnOk result (length line.now ≤ 47) }
{
    let Some(found) = heading_of(line) else {
        return Err(LoadFault::NotJournal);
    };
    if found.plmn != heading.plmn {
        return Err(LoadFault::OtherNetwork);
    }
    if found.broadcasts != heading.broadcasts {
        return Err(LoadFault::OtherBroadcasts(found.broadcasts, heading.broadcasts));
    }
    Ok(())
}

/// The octets without the octets 00 at their end.
fn without_zeros(octets: &[u8]) -> &[u8]
    ensures { IsWithoutZeros octets.now result.now }
{
    let mut count = octets.len();
    while count > 0 {
        if octets[count - 1] != 0 {
            break;
        }
        count -= 1;
    }
    &octets[..count]
}

/// Whether the octets are what a torn write leaves of the first line, which may be nothing.
pub(crate) fn is_torn_header(heading: Heading, octets: &[u8]) -> bool
    ensures { IsTrue result ↔ IsTornHeader heading octets.now }
{
    header(heading)
        .as_slice()
        .starts_with(without_zeros(octets))
}
