//! The file of the journal on its disk: why it can't be opened, and the folder in which it stands.

use journal_file::Loaded;
use server_errors::{Errors, Level, say_of_centre_at};
use server_links::Shared;
use server_options::{ServeFault, ServeOptions};
use std::alloc::Global;
use std::fs::{Files, OpenFile, OpenOptions};
use std::io;
use std::io::{ErrorKind, Write};
use std::sync::Wait;
use std::sync::ledger::Ledger;
use std::time::Clock;

/// Says why the file can't be opened, as the system does when it is asked once more.
pub(crate) fn say_unopened<R: Files + Wait + Clock, E: Write + Drop>(
    rt: &R,
    alloc: Global,
    errors: &Errors<E>,
    path: &str,
) {
    let opened = OpenOptions::new()
        .read(true)
        .append(true)
        .create(true)
        .open(rt, path);
    let text = match &opened {
        Ok(_) => format!(in alloc; "journal {path}: it can't be locked"),
        Err(error) => format!(in alloc; "journal {path}: {error}"),
    };
    drop(opened);
    if let Ok(text) = text {
        say_of_centre_at(rt, alloc, errors, Level::Error, text);
    }
}

/// The folder in which the file of that name stands.
fn folder_of(path: &str) -> &str {
    match path.rsplit_once('/') {
        None => ".",
        Some(("", _)) => "/",
        Some((folder, _)) => folder,
    }
}

/// Has the names of the files in a folder stand there for good. A system that knows nothing of the kind has done so.
fn sync_folder<R: Files>(rt: &R, folder: &str) -> io::Result<()> {
    let opened = OpenOptions::new().read(true).open(rt, folder)?;
    match opened.sync_all() {
        Err(error) if error.kind() == ErrorKind::InvalidInput => Ok(()),
        synced => synced,
    }
}

/// Has the name of the file stand in its folder for good, where the file was made for this start. Else a loss of power might take the
/// file away with all that anybody was told. What keeps the system from it is said.
pub(crate) fn begin_file<R: Files + Wait + Clock, E: Write + Drop>(
    rt: &R,
    alloc: Global,
    options: &ServeOptions,
    errors: &Errors<E>,
    loaded: Loaded,
) -> Result<(), ServeFault> {
    let Some(path) = &options.keep else {
        return Ok(());
    };
    if loaded.lines > 0 {
        return Ok(());
    }
    match sync_folder(rt, folder_of(path.as_str())) {
        Ok(()) => Ok(()),
        Err(error) => {
            if let Ok(text) = format!(in alloc;
                "journal {path}: its folder can't be synced: {error}"
            ) {
                say_of_centre_at(rt, alloc, errors, Level::Error, text);
            }
            Err(ServeFault::Journal)
        }
    }
}

/// Says that the file can't be written any more, where that is so.
pub(crate) fn tell_failed<L: Ledger, R: Wait + Clock, E: Write + Drop>(
    rt: &R,
    options: &ServeOptions,
    shared: &Shared<L, E>,
) {
    let Some(path) = &options.keep else {
        return;
    };
    if !shared.has_failed(rt) {
        return;
    }
    let alloc = shared.alloc;
    if let Ok(text) = format!(in alloc; "journal {path}: it can't be written or synced any more") {
        say_of_centre_at(rt, alloc, &shared.errors, Level::Error, text);
    }
}
