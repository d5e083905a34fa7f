//! What texts take, and texts in plain letters. A page has room for 93 septets or 41 letters of UCS2 (TS 23.038), so the numbers of pages
//! come from the lengths of the texts.

use crate::values::{same, yes};
use message_text::{Coding, TextFault, measure_of, plain_text};
use std::alloc::Global;
use std::process::Abort;

/// A text of so many times the letter, and what it takes.
#[derive(Drop)]
struct Row {
    letter: &'static str,
    times: usize,
    uncoded: Option<(usize, char)>,
    pages: usize,
}

const ROWS: &[Row] = &[
    Row {
        letter: "A",
        times: 1,
        uncoded: None,
        pages: 1,
    },
    Row {
        letter: "A",
        times: 93,
        uncoded: None,
        pages: 1,
    },
    Row {
        letter: "A",
        times: 94,
        uncoded: None,
        pages: 2,
    },
    Row {
        letter: "A",
        times: 1396,
        uncoded: None,
        pages: 16,
    },
    Row {
        letter: "{",
        times: 47,
        uncoded: None,
        pages: 2,
    },
    Row {
        letter: "\u{416}",
        times: 41,
        uncoded: Some((0, '\u{416}')),
        pages: 1,
    },
    Row {
        letter: "\u{2013}",
        times: 1000,
        uncoded: Some((0, '\u{2013}')),
        pages: 25,
    },
];

/// The text of so many times the letter.
fn repeated(rt: &impl Abort, alloc: Global, letter: &str, times: usize) -> String {
    let mut text = String::new(alloc);
    for _ in 0..times {
        text.push_str(letter).expect(rt, "memory");
    }
    text
}

/// The text of the row takes what the row says.
fn takes(rt: &impl Abort, alloc: Global, row: &Row) {
    let text = repeated(rt, alloc, row.letter, row.times);
    let found = measure_of(alloc, text.as_bytes()).expect(rt, "the text has pages");
    let coding = match row.uncoded {
        Some(_) => Coding::Ucs2,
        None => Coding::SevenBit,
    };
    same(rt, &found.letters, &row.times, row.letter);
    same(rt, &found.coding, &coding, row.letter);
    same(rt, &found.uncoded, &row.uncoded, row.letter);
    same(rt, &found.pages, &row.pages, row.letter);
}

#[test]
fn texts_take_letters_and_pages(rt: HostRuntime) {
    for row in ROWS {
        takes(&rt, rt.alloc(), row);
    }
}

/// The first letter that the default alphabet doesn't have, of a text.
fn first_uncoded(rt: &impl Abort, alloc: Global, text: &str) -> Option<(usize, char)> {
    measure_of(alloc, text.as_bytes())
        .expect(rt, "the text has pages")
        .uncoded
}

#[test]
fn the_first_letter_without_a_code_is_told(rt: HostRuntime) {
    for (text, want) in &[
        ("Dam broke \u{2013} go uphill", Some((10, '\u{2013}'))),
        ("\u{201C}Flood\u{201D}", Some((0, '\u{201C}'))),
        ("Stra\u{df}e \u{142}\u{416}", Some((7, '\u{142}'))),
        ("5 \u{20ac} [ok] {x}\n", None),
    ] {
        let found = first_uncoded(&rt, rt.alloc(), text);
        same(&rt, &found, want, text);
    }
}

#[test]
fn a_text_without_pages_takes_nothing(rt: HostRuntime) {
    let fault = measure_of(rt.alloc(), b"Run \xF0\x9F\x9A\xA8 now").err();
    same(&rt, &fault, &Some(TextFault::OutsideUcs2), "an emoji");
}

/// Texts, and the same in plain letters.
const PLAIN: [(&str, &str); 12] = [
    ("Dam broke \u{2013} go uphill", "Dam broke - go uphill"),
    ("\u{2010}\u{2011}\u{2012}\u{2014}\u{2015}\u{2212}", "------"),
    ("\u{201C}Flood\u{201D}", "\"Flood\""),
    ("\u{201E}Flut\u{201F} \u{ab}\u{bb}", "\"Flut\" \"\""),
    ("don\u{2019}t \u{2018}wait\u{201B}\u{201A}", "don't 'wait''"),
    ("\u{2039}a\u{203A}", "'a'"),
    ("Wait\u{2026}", "Wait..."),
    ("5\u{a0}km\u{202F}or\u{2007}6", "5 km or 6"),
    ("K\u{fc}ste \u{20ac} \u{416}", "K\u{fc}ste \u{20ac} \u{416}"),
    (
        "\u{200F}\u{2016}\u{2017}\u{2020}",
        "\u{200F}\u{2016}\u{2017}\u{2020}",
    ),
    (
        "\u{aa}\u{ac}\u{2038}\u{203B}",
        "\u{aa}\u{ac}\u{2038}\u{203B}",
    ),
    ("", ""),
];

#[test]
fn typographic_letters_become_plain_ones(rt: HostRuntime) {
    for (text, want) in &PLAIN {
        let found = plain_text(rt.alloc(), text.as_bytes()).expect(&rt, "memory");
        yes(&rt, found.as_slice() == want.as_bytes(), text);
    }
}

#[test]
fn octets_that_are_no_text_stay(rt: HostRuntime) {
    let text = b"caf\xE9 \xE2\x80\x93".as_slice();
    let found = plain_text(rt.alloc(), text).expect(&rt, "memory");
    yes(&rt, found.as_slice() == text, "Latin-1");
}
