//! What the page and the metrics show of a warning that isn't broadcast, though it is on air.

use crate::checks::{has, yes};
use crate::pictures::picture_of_silent;
use crate::values::bsc;
use status_figures::metrics;
use status_pages::page;

/// It stands first of all, and the centre isn't in order, though its board says nothing of it.
#[test]
fn a_silent_warning_is_shown_first(rt: HostRuntime) {
    let alloc = rt.alloc();
    let bscs = [bsc(&rt, 1, true, None, None, 0)];
    let picture = picture_of_silent(&rt, alloc, 2, None, &bscs);
    let found = page(alloc, &picture).expect(&rt, "memory");
    let word = b"<header class=\"bad\"><h1>ATTENTION</h1>";
    yes(&rt, has(found.as_slice(), word), "the state of the centre");
    let title =
        b"<div class=\"col warnings\"><section class=\"bad\"><h2>Silent warnings <b>1</b></h2><div><article id=\"w9\" class=\"w bad\">";
    yes(&rt, has(found.as_slice(), title), "the title");
    let note =
        b"<p class=\"none\">Its number of broadcasts does not rise in cells where it is on air: <b>2</b>. Type warning and its number at a console to see which.</p>";
    yes(&rt, has(found.as_slice(), note), "the note");
    let found = metrics(alloc, &picture).expect(&rt, "memory");
    let line = b"\ncbc_silent_cells{warning=\"9\",message_id=\"4370\"} 2\n";
    yes(&rt, has(found.as_slice(), line), "the metric");
}

/// A warning that is over by its period stands as before.
#[test]
fn a_warning_that_is_over_is_said_to_be(rt: HostRuntime) {
    let alloc = rt.alloc();
    let bscs = [bsc(&rt, 1, true, None, None, 0)];
    let picture = picture_of_silent(&rt, alloc, 0, Some(1_764_309_093), &bscs);
    let found = page(alloc, &picture).expect(&rt, "memory");
    let word = b"<header class=\"good\"><h1>ALL IN ORDER</h1>";
    yes(&rt, has(found.as_slice(), word), "the state of the centre");
    let note = b"<p class=\"octets\">By its period it is over since 05:51:33 UTC.</p>";
    yes(&rt, has(found.as_slice(), note), "the note");
    let found = metrics(alloc, &picture).expect(&rt, "memory");
    let line = b"\ncbc_silent_cells{warning=\"9\",message_id=\"4370\"} 0\n";
    yes(&rt, has(found.as_slice(), line), "the metric");
}
