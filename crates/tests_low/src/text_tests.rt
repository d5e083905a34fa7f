//! The texts of warnings and their pages.
//!
//! The rows of `PAGES` come from other programs: the codes of the letters from Perl's Encode::GSM0338 2.10 and
//! the letters of UCS2 from its UTF-16BE, the octets of the septets from `gsm_septet_pack` of libosmocore 1.7.0.
//! Between the two the codes were cut into pages of at most 93 septets, between letters, and a carriage return
//! was put where seven bits are left, as TS 23.038, 6.1.2.3.1 says. `READ` and `UNREAD` have pages as other centres may send
//! them, and what the standard says of them.

use crate::values::{same, yes};
use common::Octets;
use message_text::{TextFault, TextPages, pages_of, text_of};
use std::alloc::Global;
use std::process::Abort;

/// Texts with their data coding scheme and their pages.
const PAGES: [(&str, u8, &str); 39] = [
    ("A", 0x0F, "41"),
    ("@", 0x0F, "00"),
    ("Ab", 0x0F, "4131"),
    ("Warning", 0x0F, "D7B0DC9D769F1B"),
    ("Warnings", 0x0F, "D7B0DC9D769FE7"),
    ("Warnings!", 0x0F, "D7B0DC9D769FE721"),
    ("Stay inside now", 0x0F, "537A380F4ABBE7697219E47EDF1B"),
    ("Stay inside now!", 0x0F, "537A380F4ABBE7697219E47EDF43"),
    ("Stay inside now!!", 0x0F, "537A380F4ABBE7697219E47EDF4321"),
    ("Δ_ΦΓΛΩΠΨΣΘΞ", 0x0F, "90886442A9582E988C06"),
    ("€", 0x0F, "9B32"),
    ("€5", 0x0F, "9B720D"),
    (
        "5 € [ok] {x} a|b ~^\\",
        0x0F,
        "35D0A60CDAF0DEEB8D0FB441E13729507803148336BD0D65F302",
    ),
    (
        "è é ù ì ò Ç Ø ø Å å Æ æ ß É ¤ ¡ Ä Ö Ñ Ü § ¿ ä ö ñ ü à £ $ ¥",
        0x0F,
        "04500164001D40085002B40031400ED003C40175401ED007440201415B1017D40579415F1018B407F1417D901FF407054002D000",
    ),
    ("One\nTwo", 0x0F, "4F775941BDBF1B"),
    (
        "Flood in the valley. Go to high ground and wait for news. Do not use the bridge by the mill.",
        0x0F,
        "46F6FB4D06A5DD203ABA0CB287D9EC72DE053ABE41F437089D3EA34167F9BBEE2683C26E32E81E4ED341E6B71CE42EDFE72E10F10D72BFE9A0FABC0CA2A3CB20B13C4D3E9741E23C888E2E83DA6936DB05",
    ),
    (
        "xxxxxxxxxxxxxxxxxxxxxxxxxxxxxxxxxxxxxxxxxxxxxxxxxxxxxxxxxxxxxxxxxxxxxxxxxxxxxxxxxxxxxxxxxxxx",
        0x0F,
        "783C1E8FC7E3F1783C1E8FC7E3F1783C1E8FC7E3F1783C1E8FC7E3F1783C1E8FC7E3F1783C1E8FC7E3F1783C1E8FC7E3F1783C1E8FC7E3F1783C1E8FC7E3F1783C1E8FC7E3F1783C1E8FC7E3F1783C1E0F",
    ),
    (
        "xxxxxxxxxxxxxxxxxxxxxxxxxxxxxxxxxxxxxxxxxxxxxxxxxxxxxxxxxxxxxxxxxxxxxxxxxxxxxxxxxxxxxxxxxxxxx",
        0x0F,
        "783C1E8FC7E3F1783C1E8FC7E3F1783C1E8FC7E3F1783C1E8FC7E3F1783C1E8FC7E3F1783C1E8FC7E3F1783C1E8FC7E3F1783C1E8FC7E3F1783C1E8FC7E3F1783C1E8FC7E3F1783C1E8FC7E3F1783C1E8F07",
    ),
    (
        "xxxxxxxxxxxxxxxxxxxxxxxxxxxxxxxxxxxxxxxxxxxxxxxxxxxxxxxxxxxxxxxxxxxxxxxxxxxxxxxxxxxxxxxxxxxxxx",
        0x0F,
        "783C1E8FC7E3F1783C1E8FC7E3F1783C1E8FC7E3F1783C1E8FC7E3F1783C1E8FC7E3F1783C1E8FC7E3F1783C1E8FC7E3F1783C1E8FC7E3F1783C1E8FC7E3F1783C1E8FC7E3F1783C1E8FC7E3F1783C1E8F07/78",
    ),
    (
        "xxxxxxxxxxxxxxxxxxxxxxxxxxxxxxxxxxxxxxxxxxxxxxxxxxxxxxxxxxxxxxxxxxxxxxxxxxxxxxxxxxxxxxxxxxxx€",
        0x0F,
        "783C1E8FC7E3F1783C1E8FC7E3F1783C1E8FC7E3F1783C1E8FC7E3F1783C1E8FC7E3F1783C1E8FC7E3F1783C1E8FC7E3F1783C1E8FC7E3F1783C1E8FC7E3F1783C1E8FC7E3F1783C1E8FC7E3F1783C1E0F/9B32",
    ),
    (
        "xxxxxxxxxxxxxxxxxxxxxxxxxxxxxxxxxxxxxxxxxxxxxxxxxxxxxxxxxxxxxxxxxxxxxxxxxxxxxxxxxxxxxxxxxxx€",
        0x0F,
        "783C1E8FC7E3F1783C1E8FC7E3F1783C1E8FC7E3F1783C1E8FC7E3F1783C1E8FC7E3F1783C1E8FC7E3F1783C1E8FC7E3F1783C1E8FC7E3F1783C1E8FC7E3F1783C1E8FC7E3F1783C1E8FC7E3F1783C7E5306",
    ),
    (
        "€€€€€€€€€€€€€€€€€€€€€€€€€€€€€€€€€€€€€€€€€€€€€€y",
        0x0F,
        "9BF2A6BC296FCA9BF2A6BC296FCA9BF2A6BC296FCA9BF2A6BC296FCA9BF2A6BC296FCA9BF2A6BC296FCA9BF2A6BC296FCA9BF2A6BC296FCA9BF2A6BC296FCA9BF2A6BC296FCA9BF2A6BC296FCA9BF2A69C07",
    ),
    (
        "€€€€€€€€€€€€€€€€€€€€€€€€€€€€€€€€€€€€€€€€€€€€€€€",
        0x0F,
        "9BF2A6BC296FCA9BF2A6BC296FCA9BF2A6BC296FCA9BF2A6BC296FCA9BF2A6BC296FCA9BF2A6BC296FCA9BF2A6BC296FCA9BF2A6BC296FCA9BF2A6BC296FCA9BF2A6BC296FCA9BF2A6BC296FCA9BF2A60C/9B32",
    ),
    (
        "zzzzzzzzzzzzzzzzzzzzzzzzzzzzzzzzzzzzzzzzzzzzzzzzzzzzzzzzzzzzzzzzzzzzzzzzzzzzzzzzzzzzzzz",
        0x0F,
        "7ABD5EAFD7EBF57ABD5EAFD7EBF57ABD5EAFD7EBF57ABD5EAFD7EBF57ABD5EAFD7EBF57ABD5EAFD7EBF57ABD5EAFD7EBF57ABD5EAFD7EBF57ABD5EAFD7EBF57ABD5EAFD7EBF57ABD5EAFD7EB1B",
    ),
    (
        "zzzzzzzzzzzzzzzzzzzzzzzzzzzzzzzzzzzzzzzzzzzzzzzzzzzzzzzzzzzzzzzzzzzzzzzzzzzzzzzzzzzzzzzz",
        0x0F,
        "7ABD5EAFD7EBF57ABD5EAFD7EBF57ABD5EAFD7EBF57ABD5EAFD7EBF57ABD5EAFD7EBF57ABD5EAFD7EBF57ABD5EAFD7EBF57ABD5EAFD7EBF57ABD5EAFD7EBF57ABD5EAFD7EBF57ABD5EAFD7EBF5",
    ),
    (
        "ΩΩΩΩΩΩΩΩΩΩΩΩΩΩΩΩΩΩΩΩΩΩΩΩΩΩΩΩΩΩΩΩΩΩΩΩΩΩΩΩΩΩΩΩΩΩΩΩΩΩΩΩΩΩΩΩΩΩΩΩΩΩΩΩΩΩΩΩΩΩΩΩΩΩΩΩΩΩΩΩΩΩΩΩΩΩΩΩΩΩΩΩΩ@@@@@@@",
        0x0F,
        "954AA552A9542A954AA552A9542A954AA552A9542A954AA552A9542A954AA552A9542A954AA552A9542A954AA552A9542A954AA552A9542A954AA552A9542A954AA552A9542A954AA552A9542A954AA55201/0000000000001A",
    ),
    ("ж", 0x48, "0436"),
    (
        "Наводнение",
        0x48,
        "041D04300432043E0434043D0435043D04380435",
    ),
    (
        "QQQQQQQQQQQQQQQQQQQQQQQQQQQQQQQQQQQQQQQQç",
        0x48,
        "005100510051005100510051005100510051005100510051005100510051005100510051005100510051005100510051005100510051005100510051005100510051005100510051005100510051005100E7",
    ),
    (
        "QQQQQQQQQQQQQQQQQQQQQQQQQQQQQQQQQQQQQQQQQç",
        0x48,
        "00510051005100510051005100510051005100510051005100510051005100510051005100510051005100510051005100510051005100510051005100510051005100510051005100510051005100510051/00E7",
    ),
    (
        "緊急地震速報 強い揺れに備えてください",
        0x48,
        "7DCA602557309707901F583100205F37304463FA308C306B509930483066304F306030553044",
    ),
    (
        "ЂЂЂЂЂЂЂЂЂЂЂЂЂЂЂЂЂЂЂЂЂЂЂЂЂЂЂЂЂЂЂЂЂЂЂЂЂЂЂЂЂ",
        0x48,
        "04020402040204020402040204020402040204020402040204020402040204020402040204020402040204020402040204020402040204020402040204020402040204020402040204020402040204020402",
    ),
    (
        "ЂЂЂЂЂЂЂЂЂЂЂЂЂЂЂЂЂЂЂЂЂЂЂЂЂЂЂЂЂЂЂЂЂЂЂЂЂЂЂЂЂЂ",
        0x48,
        "04020402040204020402040204020402040204020402040204020402040204020402040204020402040204020402040204020402040204020402040204020402040204020402040204020402040204020402/0402",
    ),
    (
        "ЂЂЂЂЂЂЂЂЂЂЂЂЂЂЂЂЂЂЂЂЂЂЂЂЂЂЂЂЂЂЂЂЂЂЂЂЂЂЂЂЂЂЂЂЂЂЂЂЂЂЂЂЂЂЂЂЂЂЂЂЂЂЂЂЂЂЂЂЂЂЂЂЂЂЂЂЂЂЂЂЂЂ!",
        0x48,
        "04020402040204020402040204020402040204020402040204020402040204020402040204020402040204020402040204020402040204020402040204020402040204020402040204020402040204020402/04020402040204020402040204020402040204020402040204020402040204020402040204020402040204020402040204020402040204020402040204020402040204020402040204020402040204020402/0021",
    ),
    ("\u{fffd}\u{e000}\u{d7ff}", 0x48, "FFFDE000D7FF"),
    (
        "AAAAAAAAAAAAAAAAAAAAAAAAAAAAAAAAAAAAAAAAAAAAAAAAAAAAAAAAAAAAAAAAAAAAAAAAAAAAAAAAAAAAAAAAAAAAAAAAAAAAAAAAAAAAAAAAAAAAAAAAAAAAAAAAAAAAAAAAAAAAAAAAAAAAAAAAAAAAAAAAAAAAAAAAAAAAAAAAAAAAAAAAAA",
        0x0F,
        "C16030180C0683C16030180C0683C16030180C0683C16030180C0683C16030180C0683C16030180C0683C16030180C0683C16030180C0683C16030180C0683C16030180C0683C16030180C0683C160301804/C16030180C0683C16030180C0683C16030180C0683C16030180C0683C16030180C0683C16030180C0683C16030180C0683C16030180C0683C16030180C0683C16030180C0683C16030180C0683C160301804",
    ),
    (
        "AAAAAAAAAAAAAAAAAAAAAAAAAAAAAAAAAAAAAAAAAAAAAAAAAAAAAAAAAAAAAAAAAAAAAAAAAAAAAAAAAAAAAAAAAAAAAAAAAAAAAAAAAAAAAAAAAAAAAAAAAAAAAAAAAAAAAAAAAAAAAAAAAAAAAAAAAAAAAAAAAAAAAAAAAAAAAAAAAAAAAAAAAAA",
        0x0F,
        "C16030180C0683C16030180C0683C16030180C0683C16030180C0683C16030180C0683C16030180C0683C16030180C0683C16030180C0683C16030180C0683C16030180C0683C16030180C0683C160301804/C16030180C0683C16030180C0683C16030180C0683C16030180C0683C16030180C0683C16030180C0683C16030180C0683C16030180C0683C16030180C0683C16030180C0683C16030180C0683C160301804/41",
    ),
    (
        "a€a€a€a€a€a€a€a€a€a€a€a€a€a€a€a€a€a€a€a€a€a€a€a€a€a€a€a€a€a€a€a€a€a€a€a€a€a€a€a€",
        0x0F,
        "E14D39BC298737E5F0A61CDE94C39B7278530E6FCAE14D39BC298737E5F0A61CDE94C39B7278530E6FCAE14D39BC298737E5F0A61CDE94C39B7278530E6FCAE14D39BC298737E5F0A61CDE94C39B72785306/E14D39BC298737E5F0A61CDE94C39B7278530E6FCAE14D19",
    ),
    (
        " !\"#$%&'()*+,-./0123456789:;<=>?@ABCDEFGHIJKLMNOPQRSTUVWXYZ[\\]^_'abcdefghijklmnopqrstuvwxyz{|}~ !\"#$%&'()*+,-./0123456789:;<=>?@ABCDEFGHIJKLMNOPQRSTUVWXYZ[\\]^_'abcdefghijklmnopqrstuvwxyz{|}~ !\"#$%&'()",
        0x0F,
        "A090682428994EA8946AC56AB95EB0986C46ABD96EB89C6EC7EBF97E80A070482C1A8FC8A472C96C3A9FD0A8744AAD5AAFD8AC76C3DBBC36BE0D25720A8BC7E4B2F98C4EABD7ECB6FB0D8FCBE7F4BAFD8E07/79FD06B5016E529B1E28241A094AA6132AA55AB15AAE172C269BD16AB61B2EA7DBF17ABE1F20281C128BC62332A95C329BCE27342A9D52ABD62B36ABDDF036AF8D6F43899CC2E231B96C3EA3D3EA35BBED06/6F785C3EA7D7ED777C5EBF416D809BD4A6070A89468292E9844A01",
    ),
];

/// Pages with their data coding scheme and their text.
const READ: [(u8, &str, &str); 32] = [
    (0x00, "41", "A"),
    (0x0F, "41", "A"),
    (0x20, "41", "A"),
    (0x2F, "41", "A"),
    (0x30, "41", "A"),
    (0x3F, "41", "A"),
    (0x40, "41", "A"),
    (0x43, "41", "A"),
    (0x50, "41", "A"),
    (0x53, "41", "A"),
    (0xF0, "41", "A"),
    (0xF3, "41", "A"),
    (0x48, "0041", "A"),
    (0x4B, "0041", "A"),
    (0x58, "0041", "A"),
    (0x5B, "0041", "A"),
    (0x48, "E000FFFF", "\u{ffff}"),
    (0x48, "000D", "\r"),
    (0x0F, "D7B0DC9D769F01", "Warning@"),
    (0x0F, "D7B0DC9D769F1B", "Warning"),
    (0x0F, "D7B0DC9D769F1B0D", "Warning\r\r"),
    (0x0F, "D7B0DC9D763700", "Warnin\r@"),
    (0x0F, "D7B0DC9D76371A", "Warnin\r"),
    (0x0F, "C10D/65", "A e"),
    (0x0F, "1B05", "\u{c}"),
    (0x0F, "9B4D10", " A"),
    (0x0F, "9B20", "A"),
    (0x0F, "0D", "\r"),
    (0x0F, "", ""),
    (0x0F, "41//42", "AB"),
    (0x48, "", ""),
    (
        0x0F,
        "C146A3D168341A8D46A3D168341A8D46A3D168341A8D46A3D168341A8D46A3D168341A8D46A3D168341A8D46A3D168341A8D46A3D168341A8D46A3D168341A8D46A3D168341A8D46A3D168341A8D46A3D100",
        "A\r\r\r\r\r\r\r\r\r\r\r\r\r\r\r\r\r\r\r\r\r\r\r\r\r\r\r\r\r\r\r\r\r\r\r\r\r\r\r\r\r\r\r\r\r\r\r\r\r\r\r\r\r\r\r\r\r\r\r\r\r\r\r\r\r\r\r\r\r\r\r\r\r\r\r\r\r\r\r\r\r\r\r\r\r\r\r\r\r\r\r\r",
    ),
];

/// Pages without a text, with their data coding scheme.
const UNREAD: [(u8, &str); 16] = [
    (0x10, "0041"),
    (0x11, "0041"),
    (0x44, "0041"),
    (0x4C, "0041"),
    (0x60, "0041"),
    (0x70, "0041"),
    (0x80, "0041"),
    (0x90, "0041"),
    (0xE0, "0041"),
    (0xF4, "0041"),
    (0xF8, "0041"),
    (0xFF, "0041"),
    (0x48, "004100"),
    (0x48, "0041/42"),
    (0x48, "D83DDE00"),
    (0x48, "DFFF"),
];

/// The pages as hexadecimal digits, with a stroke between two pages.
fn written(rt: &impl Abort, alloc: Global, pages: &[Octets]) -> String {
    let mut digits = String::new(alloc);
    for (place, page) in pages.iter().enumerate() {
        if place > 0 {
            digits.push('/').expect(rt, "memory");
        }
        let octets = hex::encode_upper(alloc, page.as_slice()).expect(rt, "memory");
        digits.push_str(octets.as_str()).expect(rt, "memory");
    }
    digits
}

/// The pages that are written so.
fn given(rt: &impl Abort, alloc: Global, digits: &str) -> Vec<Octets> {
    let mut pages = Vec::new(alloc);
    for word in digits.split('/') {
        let octets = hex::decode(alloc, word).expect(rt, "hexadecimal digits");
        drop(pages.push(Octets::from_vec(octets)));
    }
    pages
}

/// The pages of a text that has some.
fn made(rt: &impl Abort, alloc: Global, text: &[u8]) -> TextPages {
    pages_of(alloc, text).expect(rt, "the text has pages")
}

#[test]
fn texts_have_their_pages(rt: HostRuntime) {
    for (text, dcs, digits) in &PAGES {
        let pages = made(&rt, rt.alloc(), text.as_bytes());
        same(&rt, &pages.dcs, dcs, text);
        let found = written(&rt, rt.alloc(), pages.pages.as_slice());
        same(&rt, &found.as_str(), digits, text);
    }
}

/// The text that pages are read as.
fn has_text(
    rt: &impl Abort,
    alloc: Global,
    dcs: u8,
    pages: &[Octets],
    want: Option<&str>,
    at: &str,
) {
    let text = text_of(alloc, dcs, pages).expect(rt, "memory");
    match want {
        Some(want) => yes(rt, text.is_some_and(|text| text.as_str() == want), at),
        None => yes(rt, text.is_none(), at),
    }
}

#[test]
fn pages_have_their_texts(rt: HostRuntime) {
    for (text, dcs, digits) in &PAGES {
        let pages = given(&rt, rt.alloc(), digits);
        has_text(&rt, rt.alloc(), *dcs, pages.as_slice(), Some(*text), text);
    }
}

#[test]
fn pages_of_others_are_read(rt: HostRuntime) {
    for (dcs, digits, want) in &READ {
        let pages = given(&rt, rt.alloc(), digits);
        has_text(&rt, rt.alloc(), *dcs, pages.as_slice(), Some(*want), digits);
    }
}

#[test]
fn pages_of_others_have_no_text(rt: HostRuntime) {
    for (dcs, digits) in &UNREAD {
        let pages = given(&rt, rt.alloc(), digits);
        has_text(&rt, rt.alloc(), *dcs, pages.as_slice(), None, digits);
    }
}

#[test]
fn no_pages_have_an_empty_text(rt: HostRuntime) {
    has_text(&rt, rt.alloc(), 0x0F, &[], Some(""), "no pages");
}

/// The text has no pages, for this cause.
fn has_fault(rt: &impl Abort, alloc: Global, text: &[u8], want: TextFault) {
    match pages_of(alloc, text) {
        Ok(_) => yes(rt, false, "a text with a fault has no pages"),
        Err(fault) => same(rt, &fault, &want, "the fault"),
    }
}

#[test]
fn texts_without_pages_have_a_fault(rt: HostRuntime) {
    for (text, want) in &[
        (b"".as_slice(), TextFault::Empty),
        (b"\xE9t\xE9".as_slice(), TextFault::NotUtf8),
        (b"caf\xC3".as_slice(), TextFault::NotUtf8),
        (b"\xED\xA0\x80".as_slice(), TextFault::NotUtf8),
        (b"one\rtwo".as_slice(), TextFault::ControlLetter),
        (b"\x00".as_slice(), TextFault::ControlLetter),
        (b"a\tb".as_slice(), TextFault::ControlLetter),
        (b"\x0C".as_slice(), TextFault::ControlLetter),
        (b"\x1B".as_slice(), TextFault::ControlLetter),
        (b"\x7F".as_slice(), TextFault::ControlLetter),
        (b"\xC2\x80".as_slice(), TextFault::ControlLetter),
        (b"\xC2\x9F".as_slice(), TextFault::ControlLetter),
        (b"\xF0\x9F\x8C\x8A".as_slice(), TextFault::OutsideUcs2),
        (b"\xF0\x90\x80\x80\r".as_slice(), TextFault::OutsideUcs2),
        (b"\r\xF0\x90\x80\x80".as_slice(), TextFault::ControlLetter),
    ] {
        has_fault(&rt, rt.alloc(), text, *want);
    }
}

/// The text of so many times the letter.
fn repeated(rt: &impl Abort, alloc: Global, letter: &str, times: usize) -> String {
    let mut text = String::new(alloc);
    for _ in 0..times {
        text.push_str(letter).expect(rt, "memory");
    }
    text
}

#[test]
fn fifteen_pages_are_the_most(rt: HostRuntime) {
    for (letter, most) in &[("A", 1395), ("{", 690), ("\u{416}", 615)] {
        let text = repeated(&rt, rt.alloc(), letter, *most);
        let pages = made(&rt, rt.alloc(), text.as_bytes());
        same(&rt, &pages.pages.len(), &15, letter);
        let longer = repeated(&rt, rt.alloc(), letter, *most + 1);
        has_fault(&rt, rt.alloc(), longer.as_bytes(), TextFault::TooLong);
    }
}
