//! What no clause says: that each call can succeed, and worked values from the rules.

use crate::values::{content, name, names, same, yes};
use common::Name;
use serials::{Scope, Serial};
use std::alloc::Global;
use std::process::Abort;
use warning_book::{
    Book, Category, Content, EmergencyContent, Limit, Notice, Refusal, Version, WarningId,
};

/// The number of the first warning that a book issues.
fn first_id() -> WarningId {
    WarningId::new(1)
}

fn notice(rt: &impl Abort, alloc: Global, message_id: u16, scope: Scope) -> Notice {
    Notice {
        message_id,
        scope,
        content: content(rt, alloc, &[0x41]),
    }
}

/// Issues a warning for these areas, and answers its number and its serial number.
fn issued(
    rt: &impl Abort,
    alloc: Global,
    book: &mut Book,
    message_id: u16,
    scope: Scope,
    areas: &[&[u8]],
) -> Result<(u32, u16), Refusal> {
    let areas = names(rt, alloc, areas);
    let notice = notice(rt, alloc, message_id, scope);
    match book.issue(&notice, areas.as_slice()) {
        Ok((id, serial)) => Ok((id.number(), serial.to_u16())),
        Err(refusal) => Err(refusal),
    }
}

/// A book whose first warning names these areas.
fn issued_for(rt: &impl Abort, alloc: Global, areas: &[&[u8]], scope: Scope) -> Book {
    let mut book = Book::new(alloc);
    let found = issued(rt, alloc, &mut book, 4370, scope, areas);
    yes(rt, found.is_ok(), "the first warning is issued");
    book
}

fn made(rt: &impl Abort, found: Result<(), Refusal>, at: &str) {
    same(rt, &found, &Ok(()), at);
}

/// The first warning has this content from now on, with the serial number that it gives.
fn update(rt: &impl Abort, book: &mut Book, content: &Content) -> Serial {
    let serial = book.update(first_id(), content);
    serial.expect(rt, "the warning is updated")
}

fn notice_is_copied(rt: &impl Abort, alloc: Global, notice: &Notice) {
    let copy = notice.copied(alloc).expect(rt, "memory");
    yes(rt, copy.same(notice), "the copy of a notice");
}

/// The first warning is the only one, and names the area.
fn is_found(rt: &impl Abort, book: &Book, area: &Name) {
    let only = [first_id()];
    let warnings = book.warnings().expect(rt, "memory");
    yes(rt, warnings.as_slice() == &only[..], "the warnings");
    let naming = book.naming(area).expect(rt, "memory");
    yes(rt, naming.as_slice() == &only[..], "those of the area");
    yes(rt, book.message_id(first_id()) == Some(4370), "its message");
    yes(rt, book.is_active(first_id()), "it is active");
}

/// The book names the area for as long as the first warning is in it, and then no more.
fn keeps_area(rt: &impl Abort, book: &mut Book, area: &Name) {
    made(rt, book.stop(first_id()), "the warning is stopped");
    yes(rt, book.names_area(area), "the area is named");
    yes(rt, book.areas_of(first_id()).len() == 1, "the areas it had");
    made(rt, book.forget(first_id()), "the warning is forgotten");
    yes(rt, !book.names_area(area), "the area is free");
    yes(rt, book.areas_of(first_id()).is_empty(), "it has no areas");
    yes(rt, book.len() == 0, "no warning is left");
    yes(rt, book.issued() == 1, "one was issued");
}

/// What an earthquake and tsunami warning of that type has in the place of pages.
fn emergency(warning_type: u16) -> Content {
    Content::Emergency(EmergencyContent {
        indicator: 1,
        warning_type,
        warning_period: 0,
        security: [0; 50],
    })
}

/// An update of the first warning with that content is refused, since the warning is of the other kind.
fn is_of_other_kind(rt: &impl Abort, book: &mut Book, content: &Content) {
    let found = book.update(first_id(), content).map(|_| ());
    same(rt, &found, &Err(Refusal::WrongKind), "the other kind");
}

/// A book whose first warning is an emergency warning.
fn emergency_issued(rt: &impl Abort, alloc: Global) -> Book {
    let mut book = Book::new(alloc);
    let notice = Notice {
        message_id: 4352,
        scope: Scope::Plmn,
        content: emergency(0x0580),
    };
    let areas = names(rt, alloc, &[b"coast"]);
    let (_, serial) = book.issue(&notice, areas.as_slice()).expect(rt, "issued");
    yes(rt, serial.to_u16() == 0x4000, "the serial number");
    book
}

#[test]
fn a_warning_keeps_its_kind(rt: HostRuntime) {
    let alloc = rt.alloc();
    let page = content(&rt, alloc, &[0x41]);
    let mut book = issued_for(&rt, alloc, &[b"coast"], Scope::Cell);
    is_of_other_kind(&rt, &mut book, &emergency(0x0580));
    let mut book = emergency_issued(&rt, alloc);
    is_of_other_kind(&rt, &mut book, &page);
    let serial = update(&rt, &mut book, &emergency(0x0581));
    yes(
        &rt,
        serial.to_u16() == 0x4001,
        "the serial number of an update",
    );
}

#[test]
fn a_stopped_warning_keeps_its_areas_until_it_is_forgotten(rt: HostRuntime) {
    let alloc = rt.alloc();
    notice_is_copied(&rt, alloc, &notice(&rt, alloc, 4370, Scope::Cell));
    let mut book = issued_for(&rt, alloc, &[b"coast"], Scope::Cell);
    let coast = name(&rt, alloc, b"coast");
    is_found(&rt, &book, &coast);
    keeps_area(&rt, &mut book, &coast);
}

/// The serial number of the first warning after so many updates.
fn updated(updates: u16) -> Serial {
    Serial::from_u16(0xc000u16.saturating_add(updates % 16))
}

/// The content after so many updates, 39 at most: it has one octet more after each.
fn longer(rt: &impl Abort, alloc: Global, updates: u16) -> Content {
    let octets = [0x41; 40];
    let length = usize::from(updates).saturating_add(1);
    content(rt, alloc, octets.get(..length).unwrap_or(&octets))
}

/// Updates the first warning for the nth time.
fn updates(rt: &impl Abort, alloc: Global, book: &mut Book, n: u16) {
    let serial = update(rt, book, &longer(rt, alloc, n));
    yes(rt, serial == updated(n), "the serial number of an update");
    let current = book.current(first_id());
    yes(rt, current == Some(serial), "the current one");
}

/// Whether the serial number stands for that content.
fn has_content(book: &Book, serial: Serial, want: &Content) -> bool {
    match book.content_of(4370, serial) {
        Some(found) => found.same(want),
        None => false,
    }
}

/// The nth serial number still stands for the content that it was given to.
fn keeps(rt: &impl Abort, alloc: Global, book: &Book, n: u16) {
    let want = longer(rt, alloc, n);
    yes(rt, has_content(book, updated(n), &want), "an old content");
}

fn updates_and_keeps(rt: &impl Abort, alloc: Global, book: &mut Book) {
    for n in 1..16u16 {
        updates(rt, alloc, book, n);
    }
    for n in 0..16u16 {
        keeps(rt, alloc, book, n);
    }
    let other = book.content_of(4371, Serial::from_u16(0xc000));
    yes(rt, other.is_none(), "another message identifier");
    let last = book.content_of(4370, Serial::from_u16(0xc010));
    yes(rt, last.is_none(), "another code");
}

#[test]
fn fifteen_updates_count_in_the_serial_number(rt: HostRuntime) {
    let mut book = issued_for(&rt, rt.alloc(), &[b"coast"], Scope::Cell);
    updates_and_keeps(&rt, rt.alloc(), &mut book);
}

/// The versions of the first warning are those of the updates from `first` on, in their order, and no other.
fn are_newest(rt: &impl Abort, alloc: Global, book: &Book, first: u16) {
    let versions = book.versions(first_id());
    yes(rt, versions.len() == 16, "sixteen versions");
    for (version, n) in versions.iter().zip(first..40u16) {
        yes(rt, version.serial == updated(n), "a version's place");
        keeps(rt, alloc, book, n);
    }
}

#[test]
fn the_newest_sixteen_versions_are_kept(rt: HostRuntime) {
    let alloc = rt.alloc();
    let mut book = issued_for(&rt, alloc, &[b"coast"], Scope::Cell);
    for n in 1..16u16 {
        updates(&rt, alloc, &mut book, n);
    }
    are_newest(&rt, alloc, &book, 0);
    for n in 16..40u16 {
        updates(&rt, alloc, &mut book, n);
        are_newest(&rt, alloc, &book, n.saturating_sub(15));
    }
}

/// A copy; where memory runs out once, the book is as it was.
fn copied(rt: &impl Abort, book: &Book, area: &Name) -> Book {
    match book.copied() {
        Ok(copy) => copy,
        Err(_) => {
            is_found(rt, book, area);
            book.copied().expect(rt, "memory")
        }
    }
}

/// A book whose first warning has two versions.
fn updated_once(rt: &impl Abort, alloc: Global) -> Book {
    let mut book = issued_for(rt, alloc, &[b"coast"], Scope::Cell);
    updates(rt, alloc, &mut book, 1);
    book
}

#[test]
fn a_copy_of_a_book_stands_alone(rt: HostRuntime) {
    let alloc = rt.alloc();
    let coast = name(&rt, alloc, b"coast");
    let mut book = updated_once(&rt, alloc);
    let copy = copied(&rt, &book, &coast);
    keeps_area(&rt, &mut book, &coast);
    is_found(&rt, &copy, &coast);
    keeps(&rt, alloc, &copy, 0);
    keeps(&rt, alloc, &copy, 1);
}

/// Whether the content of the book's emergency warning is the one that it was issued with.
fn has_emergency(book: &Book) -> bool {
    match book.content_of(4352, Serial::from_u16(0x4000)) {
        Some(found) => found.same(&emergency(0x0580)),
        None => false,
    }
}

/// A copy; where memory runs out once, the emergency warning is there.
fn emergency_copied(rt: &impl Abort, book: &Book) -> Book {
    match book.copied() {
        Ok(copy) => copy,
        Err(_) => {
            yes(rt, has_emergency(book), "the content of the original");
            book.copied().expect(rt, "memory")
        }
    }
}

#[test]
fn a_copy_of_a_book_has_its_emergency_warnings(rt: HostRuntime) {
    let mut book = emergency_issued(&rt, rt.alloc());
    let copy = emergency_copied(&rt, &book);
    made(&rt, book.stop(first_id()), "the warning is stopped");
    yes(&rt, has_emergency(&copy), "the content of the copy");
    yes(&rt, copy.is_active(first_id()), "it is active in the copy");
}

fn version(rt: &impl Abort, alloc: Global, serial: u16, octet: u8) -> Version {
    Version {
        serial: Serial::from_u16(serial),
        content: content(rt, alloc, &[octet]),
    }
}

#[test]
fn versions_stand_in_the_order_of_issue(rt: HostRuntime) {
    let alloc = rt.alloc();
    let mut book = issued_for(&rt, alloc, &[b"coast"], Scope::Plmn);
    update(&rt, &mut book, &content(&rt, alloc, &[0x42]));
    update(&rt, &mut book, &content(&rt, alloc, &[0x43]));
    let versions = [
        version(&rt, alloc, 0x4000, 0x41),
        version(&rt, alloc, 0x4001, 0x42),
        version(&rt, alloc, 0x4002, 0x43),
    ];
    yes(
        &rt,
        book.versions(first_id()) == versions.as_slice(),
        "the versions",
    );
    yes(
        &rt,
        book.versions(WarningId::new(2)).is_empty(),
        "no other warning",
    );
}

#[test]
fn categories_have_numbers(rt: HostRuntime) {
    for (number, want) in &[
        (0, Some(Category::HighPriority)),
        (1, Some(Category::Background)),
        (2, Some(Category::Normal)),
        (3, None),
    ] {
        let found = Category::of_number(*number);
        same(&rt, &found, want, "a category by its number");
        if let Some(category) = found {
            yes(&rt, category.to_u8() == *number, "its number");
        }
    }
}

/// What edits of the areas and of the content of an active warning would answer.
fn checks_edits(rt: &impl Abort, book: &Book, hills: &Name, long: &Content) {
    let id = first_id();
    made(rt, book.check_widen(id, hills), "it may be widened");
    let narrow = book.check_narrow(id, hills);
    same(rt, &narrow, &Err(Refusal::AreaNotThere), "no such area");
    made(rt, book.check_active(id), "it is active");
    let content = book.check_content(id, long);
    same(rt, &content, &Err(Refusal::BadPages), "a page is too long");
    let update = book.check_update(id, long);
    same(rt, &update, &Err(Refusal::BadPages), "a page is too long");
}

/// What edits that end it would answer, before it is stopped and after that.
fn checks_ends(rt: &impl Abort, book: &mut Book) {
    let id = first_id();
    let forget = book.check_forget(id);
    same(rt, &forget, &Err(Refusal::StillActive), "it is active");
    made(rt, book.check_stop(id), "it may be stopped");
    made(rt, book.stop(id), "it is stopped");
    let active = book.check_active(id);
    same(rt, &active, &Err(Refusal::NotActive), "it is not active");
    let stop = book.check_stop(id);
    same(rt, &stop, &Err(Refusal::NotActive), "it is stopped");
    made(rt, book.check_forget(id), "it may be forgotten");
}

#[test]
fn checks_leave_the_book_to_the_edits(rt: HostRuntime) {
    let alloc = rt.alloc();
    let mut book = issued_for(&rt, alloc, &[b"coast"], Scope::Cell);
    let long = content(&rt, alloc, &[0x42; 83]);
    checks_edits(&rt, &book, &name(&rt, alloc, b"hills"), &long);
    checks_ends(&rt, &mut book);
    let notice = notice(&rt, alloc, 4370, Scope::Cell);
    let issue = book.check_issue(&notice, &[]);
    same(&rt, &issue, &Err(Refusal::NoAreas), "no areas");
}

/// What is done to the first warning.
#[derive(Clone, Copy)]
enum Doing {
    Nothing,
    Widen(&'static [u8]),
    Narrow(&'static [u8]),
    Stop,
    Forget,
}

fn does(rt: &impl Abort, alloc: Global, book: &mut Book, doing: Doing) {
    let id = first_id();
    let done = match doing {
        Doing::Nothing => Ok(()),
        Doing::Widen(area) => book.widen(id, &name(rt, alloc, area)),
        Doing::Narrow(area) => book.narrow(id, &name(rt, alloc, area)),
        Doing::Stop => book.stop(id),
        Doing::Forget => book.forget(id),
    };
    made(rt, done, "the warning is changed");
}

#[test]
fn narrow_keeps_the_order_of_the_rest(rt: HostRuntime) {
    let alloc = rt.alloc();
    let mut book = issued_for(&rt, alloc, &[b"d", b"a", b"c", b"b"], Scope::Cell);
    does(&rt, alloc, &mut book, Doing::Narrow(b"a"));
    does(&rt, alloc, &mut book, Doing::Widen(b"aa"));
    let want = names(&rt, alloc, &[b"d", b"c", b"b", b"aa"]);
    let found = book.areas_of(first_id());
    yes(&rt, found == want.as_slice(), "the areas in their order");
}

/// What is done to the first warning of three, and the numbers of the warnings that then name one of these areas.
const NAMING: &[(Doing, &[&[u8]], &[u32])] = &[
    (Doing::Nothing, &[], &[]),
    (Doing::Nothing, &[b"north"], &[]),
    (Doing::Nothing, &[b"coast"], &[1, 3]),
    (Doing::Nothing, &[b"bay", b"hills"], &[1, 2]),
    (Doing::Nothing, &[b"bay", b"coast"], &[1, 2, 3]),
    (Doing::Widen(b"north"), &[b"coast"], &[1, 3]),
    (Doing::Narrow(b"coast"), &[b"coast"], &[3]),
    (Doing::Nothing, &[b"coast", b"north"], &[1, 3]),
    (Doing::Stop, &[b"north", b"bay"], &[1, 2]),
    (Doing::Forget, &[b"north", b"bay"], &[2]),
    (Doing::Nothing, &[b"north"], &[]),
];

/// The warnings that name one of these areas have these numbers.
fn name_one_of(rt: &impl Abort, alloc: Global, book: &Book, areas: &[&[u8]], want: &[u32]) {
    let areas = names(rt, alloc, areas);
    let found = book.naming_one_of(areas.as_slice()).expect(rt, "memory");
    yes(rt, found.len() == want.len(), "how many name an area");
    for (number, want) in found.iter().zip(want.iter()) {
        yes(rt, number.number() == *want, "a warning that names an area");
    }
}

/// Issues a warning for these areas.
fn issue_for(rt: &impl Abort, alloc: Global, book: &mut Book, areas: &[&[u8]]) {
    let found = issued(rt, alloc, book, 4370, Scope::Cell, areas);
    yes(rt, found.is_ok(), "the warning is issued");
}

fn names_all(rt: &impl Abort, alloc: Global, book: &mut Book) {
    for (doing, areas, want) in NAMING {
        does(rt, alloc, book, *doing);
        name_one_of(rt, alloc, book, areas, want);
    }
}

#[test]
fn warnings_that_name_one_of_several_areas_stand_once_and_in_order(rt: HostRuntime) {
    let alloc = rt.alloc();
    let mut book = issued_for(&rt, alloc, &[b"coast", b"hills"], Scope::Cell);
    issue_for(&rt, alloc, &mut book, &[b"hills", b"bay"]);
    issue_for(&rt, alloc, &mut book, &[b"coast"]);
    names_all(&rt, alloc, &mut book);
}

/// Issues a warning for one area, and answers its number and its serial number.
fn one_more(
    rt: &impl Abort,
    alloc: Global,
    book: &mut Book,
    message_id: u16,
) -> Result<(u32, u16), Refusal> {
    issued(rt, alloc, book, message_id, Scope::Cell, &[b"coast"])
}

/// The book has 256 warnings: no other is issued until one of them is forgotten.
fn is_full(rt: &impl Abort, alloc: Global, book: &mut Book) {
    let full = Refusal::Limit {
        which: Limit::Warnings,
    };
    let more = one_more(rt, alloc, book, 4371);
    same(rt, &more, &Err(full), "one more");
    made(rt, book.stop(first_id()), "the first is stopped");
    let more = one_more(rt, alloc, book, 4371);
    same(rt, &more, &Err(full), "one more beside a stopped one");
    made(rt, book.forget(first_id()), "the first is forgotten");
    let more = one_more(rt, alloc, book, 4371);
    same(rt, &more, &Ok((257, 0xc000)), "one in its place");
}

#[test]
fn there_are_256_warnings_at_most(rt: HostRuntime) {
    let mut book = Book::new(rt.alloc());
    for code in 0..256u16 {
        let want = (code as u32 + 1, 0xc000 + code * 16);
        let found = one_more(&rt, rt.alloc(), &mut book, 4370);
        same(&rt, &found, &Ok(want), "a warning is issued");
    }
    is_full(&rt, rt.alloc(), &mut book);
}

fn has_text(rt: &impl Abort, alloc: Global, refusal: &Refusal, want: &str) {
    let text = format!(in alloc; "{refusal}").expect(rt, "memory");
    yes(rt, text.as_str() == want, want);
}

const FULL: Refusal = Refusal::Limit { which: Limit::Ids };

const TEXTS: &[(Refusal, &str)] = &[
    (Refusal::NoSuchWarning, "no such warning"),
    (Refusal::NotActive, "the warning was stopped"),
    (Refusal::StillActive, "the warning is still active"),
    (Refusal::NoAreas, "a warning needs an area"),
    (Refusal::AreaThere, "the warning names this area already"),
    (Refusal::AreaNotThere, "the warning does not name this area"),
    (Refusal::LastArea, "the warning names no other area"),
    (
        Refusal::BadPages,
        "a content has 1 to 15 pages of 1 to 82 octets",
    ),
    (Refusal::BadPeriod, "a repetition period is 1 to 1,024"),
    (Refusal::WrongKind, "the warning is of the other kind"),
    (FULL, "a limit would be passed: Ids"),
    (Refusal::Memory, "out of memory"),
];

#[test]
fn refusals_have_texts(rt: HostRuntime) {
    for (refusal, want) in TEXTS {
        has_text(&rt, rt.alloc(), refusal, want);
    }
}
