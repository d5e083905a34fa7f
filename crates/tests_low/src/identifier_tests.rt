//! Message identifiers by their names, and what an operator is told of a number that is none of warnings with a text.

use crate::values::{same, yes};
use message_identifiers::usage::Usage;
use message_identifiers::{name_of, number_of, unusual_text, usage_of};
use std::alloc::Global;
use std::process::Abort;

/// Identifiers of TS 23.041, 9.4.1.2.2, in hexadecimal digits as they stand there: the first and the last of each kind.
const NAMED: [(&str, u16, Usage); 20] = [
    ("earthquake", 0x1100, Usage::Emergency),
    ("tsunami", 0x1101, Usage::Emergency),
    ("earthquake-and-tsunami", 0x1102, Usage::Emergency),
    ("etws-test", 0x1103, Usage::Emergency),
    ("etws-other", 0x1104, Usage::Emergency),
    ("alert-1", 0x1112, Usage::Text),
    ("alert-2", 0x1113, Usage::Text),
    ("extreme-immediate-likely", 0x1114, Usage::Text),
    ("alert-3", 0x1115, Usage::Text),
    ("severe-expected-likely", 0x111A, Usage::Text),
    ("amber", 0x111B, Usage::Text),
    ("test", 0x111C, Usage::Text),
    ("exercise", 0x111D, Usage::Text),
    ("operator", 0x111E, Usage::Text),
    ("alert-1-language", 0x111F, Usage::Text),
    ("amber-language", 0x1128, Usage::Text),
    ("operator-language", 0x112B, Usage::Text),
    ("public-safety", 0x112C, Usage::Text),
    ("public-safety-language", 0x112D, Usage::Text),
    ("local-test-language", 0x112F, Usage::Text),
];

/// Numbers without a name.
const UNNAMED: [(u16, Usage); 8] = [
    (0, Usage::Unassigned),
    (4351, Usage::Unassigned),
    (4357, Usage::Emergency),
    (4359, Usage::Emergency),
    (4360, Usage::Unassigned),
    (4369, Usage::Unassigned),
    (4400, Usage::Unassigned),
    (65535, Usage::Unassigned),
];

/// Words that are no names.
const NO_NAMES: [&str; 8] = [
    "",
    "Test",
    "test ",
    "tes",
    "alert",
    "alert-1-",
    "4370",
    "earthquake-language",
];

/// What is told of a number: of one with a digit too few, too many or changed, of others, and of those of the ETWS.
const TOLD: [(u16, &str); 13] = [
    (437, "nearest 4370, 4371, 4372"),
    (370, "nearest 4370"),
    (439, "nearest 4379, 4389, 4390"),
    (43700, "nearest 4370"),
    (43995, "nearest 4395, 4399"),
    (14372, "nearest 4372"),
    (4369, "nearest 4379, 4389, 4399"),
    (1370, "nearest 4370"),
    (4400, "nearest 4399"),
    (1, "nearest 4370"),
    (50000, "nearest 4399"),
    (4352, "earthquake, which alert sends"),
    (4358, "an emergency, which alert sends"),
];

fn is_named(rt: &impl Abort, number: u16, want: &str) {
    match name_of(number) {
        Some(name) => yes(rt, name.as_bytes() == want.as_bytes(), want),
        None => yes(rt, false, want),
    }
}

#[test]
fn names_stand_for_numbers(rt: HostRuntime) {
    for (name, number, usage) in &NAMED {
        same(&rt, &number_of(name.as_bytes()), &Some(*number), name);
        same(&rt, &usage_of(*number), usage, name);
        is_named(&rt, *number, name);
    }
}

#[test]
fn other_numbers_have_no_name(rt: HostRuntime) {
    for (number, usage) in &UNNAMED {
        yes(&rt, name_of(*number).is_none(), "a number without a name");
        same(&rt, &usage_of(*number), usage, "what it is for");
    }
}

#[test]
fn other_words_are_no_names(rt: HostRuntime) {
    for word in &NO_NAMES {
        same(&rt, &number_of(word.as_bytes()), &None, word);
    }
}

fn is_told(rt: &impl Abort, alloc: Global, number: u16, hint: &str) {
    let want = format!(in alloc;
        "unusual identifier {number}: {hint}; to say it all the same type !{number}\n"
    ).expect(rt, "memory");
    let found = unusual_text(alloc, number).expect(rt, "memory");
    yes(rt, found.as_str() == want.as_str(), hint);
}

#[test]
fn what_was_meant_is_told(rt: HostRuntime) {
    for (number, hint) in &TOLD {
        is_told(&rt, rt.alloc(), *number, hint);
    }
}
