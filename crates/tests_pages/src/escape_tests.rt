//! Hostile names and texts: all octets in the name of an area, all letters up to U+00FF in the text of a warning, letters that turn the
//! direction of text in both, and the signs of a label in the name of a refusal.

use crate::checks::{has, yes};
use crate::pictures::picture_with;
use status_figures::metrics;
use status_pages::page;
use std::alloc::Global;
use std::process::Abort;

/// The octets up to 127, as they have to stand in a page.
const LOW: &[u8] =
    b"          \n                      !&quot;#$%&amp;&#39;()*+,-./0123456789:;&lt;=&gt;?@ABCDEFGHIJKLMNOPQRSTUVWXYZ[\\]^_`abcdefghijklmnopqrstuvwxyz{|}~ ";

/// All octets, each once.
fn all_octets(rt: &impl Abort, alloc: Global) -> Vec<u8> {
    let mut octets = Vec::new(alloc);
    for octet in 0..=255u8 {
        octets.push(octet).expect(rt, "memory");
    }
    octets
}

/// Those octets, as they have to stand in a page.
fn all_escaped(rt: &impl Abort, alloc: Global) -> Vec<u8> {
    let mut octets = Vec::from_slice(alloc, LOW).expect(rt, "memory");
    for octet in 128..=255u8 {
        octets.push(octet).expect(rt, "memory");
    }
    octets
}

/// The letters U+0000 to U+00FF in UCS2.
fn all_letters(rt: &impl Abort, alloc: Global) -> Vec<u8> {
    let mut octets = Vec::new(alloc);
    for octet in 0..=255u8 {
        octets.push(0).expect(rt, "memory");
        octets.push(octet).expect(rt, "memory");
    }
    octets
}

fn page_with(rt: &impl Abort, alloc: Global, area: &[u8], text: &[u8]) -> Vec<u8> {
    let picture = picture_with(rt, alloc, area, text, "stale");
    page(alloc, &picture).expect(rt, "memory")
}

/// How often the sign stands in the text.
fn count(text: &[u8], sign: u8) -> usize {
    text.iter().filter(|octet| **octet == sign).count()
}

#[test]
fn all_octets_are_escaped(rt: HostRuntime) {
    let area = all_octets(&rt, rt.alloc());
    let found = page_with(&rt, rt.alloc(), area.as_slice(), b"\0x");
    let want = all_escaped(&rt, rt.alloc());
    yes(&rt, has(found.as_slice(), want.as_slice()), "a name");
    let text = all_letters(&rt, rt.alloc());
    let found = page_with(&rt, rt.alloc(), b"x", text.as_slice());
    yes(&rt, has(found.as_slice(), LOW), "a text");
}

#[test]
fn no_markup_comes_of_a_text(rt: HostRuntime) {
    let area = all_octets(&rt, rt.alloc());
    let text = all_letters(&rt, rt.alloc());
    let hostile = page_with(&rt, rt.alloc(), area.as_slice(), text.as_slice());
    let plain = page_with(&rt, rt.alloc(), b"x", b"\0x");
    for sign in b"<>\"'" {
        let found = count(hostile.as_slice(), *sign);
        let want = count(plain.as_slice(), *sign);
        yes(&rt, found == want, "as many signs as of a plain text");
    }
    let found = count(hostile.as_slice(), b'&');
    let want = count(plain.as_slice(), b'&');
    yes(
        &rt,
        found.saturating_sub(want) == 10,
        "an ampersand for each entity",
    );
}

/// Letters by their UTF-8 and their UCS2, and what a page shows for them: the numbers of those that turn the direction of text (Unicode,
/// UAX 9), and the letters next to these as they are.
const TURNS: [(&[u8], &[u8], &[u8]); 17] = [
    (b"\xE2\x80\x8D", b"\x20\x0D", b"\xE2\x80\x8D"),
    (b"\xE2\x80\x8E", b"\x20\x0E", b"[U+200E]"),
    (b"\xE2\x80\x8F", b"\x20\x0F", b"[U+200F]"),
    (b"\xE2\x80\x90", b"\x20\x10", b"\xE2\x80\x90"),
    (b"\xE2\x80\xA9", b"\x20\x29", b"\xE2\x80\xA9"),
    (b"\xE2\x80\xAA", b"\x20\x2A", b"[U+202A]"),
    (b"\xE2\x80\xAB", b"\x20\x2B", b"[U+202B]"),
    (b"\xE2\x80\xAC", b"\x20\x2C", b"[U+202C]"),
    (b"\xE2\x80\xAD", b"\x20\x2D", b"[U+202D]"),
    (b"\xE2\x80\xAE", b"\x20\x2E", b"[U+202E]"),
    (b"\xE2\x80\xAF", b"\x20\x2F", b"\xE2\x80\xAF"),
    (b"\xE2\x81\xA5", b"\x20\x65", b"\xE2\x81\xA5"),
    (b"\xE2\x81\xA6", b"\x20\x66", b"[U+2066]"),
    (b"\xE2\x81\xA7", b"\x20\x67", b"[U+2067]"),
    (b"\xE2\x81\xA8", b"\x20\x68", b"[U+2068]"),
    (b"\xE2\x81\xA9", b"\x20\x69", b"[U+2069]"),
    (b"\xE2\x82\xA6", b"\x20\xA6", b"\xE2\x82\xA6"),
];

/// The octets twice, between three letters, of which each has that front.
fn between(rt: &impl Abort, alloc: Global, front: &[u8], octets: &[u8]) -> Vec<u8> {
    let mut all = Vec::new(alloc);
    for (letter, part) in [(b"a", octets), (b"b", octets), (b"c", b"")] {
        all.extend_from_slice(front).expect(rt, "memory");
        all.extend_from_slice(letter).expect(rt, "memory");
        all.extend_from_slice(part).expect(rt, "memory");
    }
    all
}

#[test]
fn letters_that_turn_the_direction_are_numbers(rt: HostRuntime) {
    let alloc = rt.alloc();
    for (utf8, ucs2, shown) in TURNS {
        let want = between(&rt, alloc, b"", shown);
        let area = between(&rt, alloc, b"", utf8);
        let found = page_with(&rt, alloc, area.as_slice(), b"\0x");
        yes(&rt, has(found.as_slice(), want.as_slice()), "a name");
        let text = between(&rt, alloc, b"\0", ucs2);
        let found = page_with(&rt, alloc, b"x", text.as_slice());
        yes(&rt, has(found.as_slice(), want.as_slice()), "a text");
    }
    let cut = page_with(&rt, alloc, b"a\xE2\xE2\x80", b"\0x");
    let want = b"<bdi>a\xE2\xE2\x80</bdi>";
    yes(&rt, has(cut.as_slice(), want), "a name that is cut");
}

#[test]
fn labels_are_escaped(rt: HostRuntime) {
    let picture = picture_with(&rt, rt.alloc(), b"x", b"\0x", "a\"} 1\n\\b");
    let found = metrics(rt.alloc(), &picture).expect(&rt, "memory");
    let want = b"\ncbc_refusals_total{refusal=\"a\\\"} 1\\n\\\\b\"} 1\n";
    yes(&rt, has(found.as_slice(), want), "a label");
}
