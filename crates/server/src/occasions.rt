//! How a server begins and why it ends, on standard error.

use journal_file::Loaded;
use server_errors::{Errors, Level, say_of_centre, say_of_centre_at};
use server_options::{ServeOptions, begin_text};
use status_figures::VERSION;
use std::alloc::Global;
use std::io::Write;
use std::sync::Wait;
use std::time::Clock;

/// Why it ends, where nothing is wrong.
pub(crate) const QUIT: &str = "ends: quit was typed";

pub(crate) const INPUT_ENDED: &str = "ends: standard input ended";

pub(crate) const SHUTDOWN: &str = "ends: shutdown was typed at a console";

/// Says which version begins, and with which options that change what it does.
pub(crate) fn tell_begin<E: Write + Drop, R: Wait + Clock>(
    rt: &R,
    alloc: Global,
    options: &ServeOptions,
    errors: &Errors<E>,
) {
    if let Ok(text) = begin_text(alloc, VERSION, options) {
        say_of_centre(rt, alloc, errors, text);
    }
}

/// Says how many lines were read from the kept file, with its first.
pub(crate) fn tell_loaded<E: Write + Drop, R: Wait + Clock>(
    rt: &R,
    alloc: Global,
    options: &ServeOptions,
    errors: &Errors<E>,
    loaded: Loaded,
) {
    let Some(path) = &options.keep else {
        return;
    };
    let lines = loaded.lines;
    if let Ok(text) = format!(in alloc; "journal: {lines} lines were read from {path}") {
        say_of_centre(rt, alloc, errors, text);
    }
}

/// Says why it ends.
pub(crate) fn tell_end<E: Write + Drop, R: Wait + Clock>(
    rt: &R,
    alloc: Global,
    errors: &Errors<E>,
    why: &str,
) {
    say_of_centre_at(rt, alloc, errors, Level::Notice, why);
}
