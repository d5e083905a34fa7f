//! The page of a picture, with what has to stand in it written by hand.

use crate::checks::{has, yes};
use crate::pictures::{bare_picture, bare_warning, full_picture, picture_of_all};
use crate::values::numbers;
use base64::engine::general_purpose::STANDARD;
use sha2::{Digest, Sha256};
use status_figures::Picture;
use status_pages::{POLICY, page};
use std::alloc::Global;
use std::process::Abort;
use warning_book::Kind;

/// What the page of the full picture has.
const PARTS: &[(&str, &str)] = &[
    (
        "the title",
        "<title>ATTENTION - cell broadcast centre</title>",
    ),
    (
        "when",
        "<main id=\"now\" data-taken=\"1764309123\"><header class=\"bad\"><h1>ATTENTION</h1><p>Somebody has to look:</p>",
    ),
    (
        "why",
        "<ul class=\"why\"><li><a href=\"#w3\">Warning 3</a> <span class=\"f\"><b>2</b> cells failed</span> in <bdi>Coast</bdi> <span class=\"a\"><b>4</b> cells awaited</span> <span class=\"l\"><b>1</b> places left</span> </li><li><a href=\"#b12\">BSC 12</a> link down </li></ul><p class=\"when\">",
    ),
    (
        "the time",
        "<p class=\"when\">Picture of 05:52:03 UTC<span id=\"age\"></span></p>",
    ),
    (
        "the figures",
        "<li>active warnings <b>20</b></li><li>links up <b>1</b></li><li>BSCs <b>2</b></li><li>cells <b>16</b></li><li>entries <b>1234</b></li><li>kept up to <b>1230</b></li><li>since the last fold <b>234</b></li><li>journal limit <b>100000</b></li><li>receipts <b>5</b></li><li>memory in MB <b>12</b></li>",
    ),
    (
        "those to look at",
        "<section class=\"bad\"><h2>Warnings to look at <b>1</b></h2><div><article id=\"w3\" class=\"w bad\">",
    ),
    (
        "a warning",
        "<h3><b>Warning 3</b> <span>message 4370 (hex 1112)</span> <span>serial 4031</span> <span>cbs</span> <span>active</span></h3><p class=\"text\" dir=\"auto\">Warnings!</p>",
    ),
    (
        "its bar",
        "<i class=\"o\" style=\"flex-grow:12\"></i><i class=\"a\" style=\"flex-grow:4\"></i><i class=\"f\" style=\"flex-grow:2\"></i></div>",
    ),
    (
        "its numbers",
        "<span class=\"o\"><b>12</b> on air</span> <span class=\"a\"><b>4</b> awaited</span> <span class=\"f\"><b>2</b> failed</span> <span class=\"l\"><b>1</b> left</span> <span class=\"c\"><b>60</b> broadcasts reported</span> </p>",
    ),
    (
        "an area",
        "<li><h4><bdi>Coast</bdi></h4><div class=\"bar\" aria-hidden=\"true\"><i class=\"o\" style=\"flex-grow:8\"></i>",
    ),
    (
        "an area in order",
        "<h4><bdi>-</bdi></h4><div class=\"bar\" aria-hidden=\"true\"><i class=\"o\" style=\"flex-grow:4\"></i></div><p class=\"nums\"><span class=\"o\"><b>4</b> on air</span> <span class=\"z\"><b>0</b> awaited</span> <span class=\"z\"><b>0</b> failed</span> <span class=\"c\"><b>20</b> broadcasts reported</span> </p>",
    ),
    (
        "a stopped warning",
        "<article id=\"w8\" class=\"w off\"><details open><summary><h3><b>Warning 8</b> <span>message 4352 (hex 1100)</span> <span>serial -</span> <span>emergency</span> <span>stopped</span></h3><p class=\"text\">Emergency: earthquake and tsunami (warning type 0580)</p></summary>",
    ),
    (
        "a BSC under way",
        "<h2>BSCs under way <b>1</b></h2><div><article id=\"b1\" class=\"b busy\"><h3>BSC 1</h3><p class=\"up\">link up</p><p>cells <b>9</b></p><p>pending <b>2</b></p><p class=\"flight\">in flight: replace 4370 serial 4031, out for <b>7</b> s</p></article>",
    ),
    (
        "a BSC without a link",
        "<h2>BSCs to look at <b>1</b></h2><div><article id=\"b12\" class=\"b bad\"><h3>BSC 12</h3><p class=\"down\">link down since 05:50:48 UTC, for <b>75</b> s</p><p>cells <b>9</b></p><p>pending <b>0</b></p></article>",
    ),
];

fn page_of(rt: &impl Abort, alloc: Global, picture: &Picture) -> Vec<u8> {
    page(alloc, picture).expect(rt, "memory")
}

#[test]
fn a_page_shows_its_picture(rt: HostRuntime) {
    let picture = full_picture(&rt, rt.alloc());
    let found = page_of(&rt, rt.alloc(), &picture);
    for (at, part) in PARTS {
        yes(&rt, has(found.as_slice(), part.as_bytes()), at);
    }
}

#[test]
fn a_page_says_what_is_wrong_with_the_centre(rt: HostRuntime) {
    let rows: [(bool, u32, &[u8]); 4] = [
        (true, 100_000, b"<header class=\"bad\"><h1>STALE</h1>"),
        (true, 234, b"<header class=\"bad\"><h1>STALE</h1>"),
        (false, 234, b"<header class=\"bad\"><h1>JOURNAL FULL</h1>"),
        (false, 235, b"<header class=\"busy\"><h1>NO BSCS</h1>"),
    ];
    for (is_stale, limit, want) in rows {
        let picture = bare_picture(&rt, rt.alloc(), is_stale, limit);
        let found = page_of(&rt, rt.alloc(), &picture);
        yes(&rt, has(found.as_slice(), want), "the state of the centre");
    }
}

/// A centre of so many warnings.
fn picture_of_many(rt: &impl Abort, alloc: Global, count: u32) -> Picture {
    let mut warnings = Vec::new(alloc);
    for number in 0..count {
        let named = (number + 1, 4370, Kind::Cbs);
        let warning = bare_warning(rt, alloc, named, Some(0x4031), numbers(0, 7, 0, 0));
        warnings.push(warning).expect(rt, "memory");
    }
    picture_of_all(rt, alloc, warnings, &[])
}

/// Sixteen warnings are shown as a whole, and of seventeen a line each.
#[test]
fn many_warnings_are_folded(rt: HostRuntime) {
    let alloc = rt.alloc();
    let (open, folded) = (b"<details open><summary><h3>", b"<details><summary><h3>");
    let picture = picture_of_many(&rt, alloc, 16);
    let found = page_of(&rt, alloc, &picture);
    yes(&rt, has(found.as_slice(), open), "16 are open");
    yes(&rt, !has(found.as_slice(), folded), "none of 16 is folded");
    drop(picture);
    let picture = picture_of_many(&rt, alloc, 17);
    let found = page_of(&rt, alloc, &picture);
    yes(&rt, has(found.as_slice(), folded), "17 are folded");
    yes(&rt, !has(found.as_slice(), open), "none of 17 is open");
}

/// What stands between the two.
fn between<'a>(rt: &impl Abort, text: &'a str, front: &str, end: &str) -> &'a str {
    let (_, rest) = text.split_once(front).expect(rt, "the front");
    let (part, _) = rest.split_once(end).expect(rt, "the end");
    part
}

#[test]
fn the_policy_names_the_script(rt: HostRuntime) {
    let picture = bare_picture(&rt, rt.alloc(), false, 1000);
    let found = page_of(&rt, rt.alloc(), &picture);
    let text = String::from_utf8(found).expect(&rt, "the page is a text");
    let script = between(&rt, text.as_str(), "<script>", "</script>");
    let digest = Sha256::digest(script.as_bytes());
    let digits = STANDARD.encode(rt.alloc(), &digest).expect(&rt, "memory");
    let named = between(&rt, POLICY, "script-src 'sha256-", "'");
    yes(&rt, digits.as_str() == named, "the digest");
}
