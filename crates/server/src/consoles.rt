//! The consoles of a server: opened, given their desks, and the desks handed in.

use crate::ports::{open_desk, push};
use console_text::ReplayFault;
use office::desk::Desk;
use office::office::Office;
use server_consoles::{Consoles, OpenFault, close_socket, open_socket};
use server_errors::{Errors, Level, say_of_centre, say_of_centre_at};
use server_options::{ServeFault, ServeOptions};
use std::alloc::Global;
use std::fs::Files;
use std::io::Write;
use std::net::Net;
use std::os::unix::net::UnixListener;
use std::sync::Wait;
use std::sync::ledger::Ledger;
use std::time::Clock;

/// Says that the socket file can't be made, and why.
fn tell_unopened<R: Wait + Clock, E: Write + Drop>(
    rt: &R,
    alloc: Global,
    errors: &Errors<E>,
    path: &str,
    fault: &OpenFault,
) {
    if let Ok(text) = format!(in alloc; "no consoles at {path}: {fault}") {
        say_of_centre_at(rt, alloc, errors, Level::Error, text);
    }
}

/// The consoles at that socket file, which is made. It is said where it is.
fn consoles_at<R: Files + Wait + Clock, L: Ledger, E: Write + Drop>(
    rt: &R,
    alloc: Global,
    options: &ServeOptions,
    errors: &Errors<E>,
    path: &str,
    listener: UnixListener,
) -> Result<Option<Consoles<L>>, ServeFault> {
    if let Ok(text) = format!(in alloc; "consoles: {path}") {
        say_of_centre(rt, alloc, errors, text);
    }
    match Consoles::new(alloc, listener, options.consoles) {
        Ok(consoles) => Ok(Some(consoles)),
        Err(_) => {
            close_socket(rt, path);
            Err(ServeFault::Lines(ReplayFault::Memory))
        }
    }
}

/// Makes the socket file of the consoles, where they are asked for. It is said where it is, or what is wrong.
pub(crate) fn open_consoles<R: Files + Wait + Clock + Net, L: Ledger, E: Write + Drop>(
    rt: &R,
    alloc: Global,
    options: &ServeOptions,
    errors: &Errors<E>,
) -> Result<Option<Consoles<L>>, ServeFault> {
    let Some(path) = &options.console else {
        return Ok(None);
    };
    match open_socket(rt, path.as_str()) {
        Ok(listener) => consoles_at(rt, alloc, options, errors, path.as_str(), listener),
        Err(fault) => {
            tell_unopened(rt, alloc, errors, path.as_str(), &fault);
            drop(fault);
            Err(ServeFault::Listen)
        }
    }
}

/// Takes the socket file away, where there is one.
pub(crate) fn close_consoles_file<R: Files>(rt: &R, options: &ServeOptions) {
    if let Some(path) = &options.console {
        close_socket(rt, path.as_str());
    }
}

/// Gives each console its desk.
pub(crate) fn open_console_desks<L: Ledger, R: Wait>(
    rt: &R,
    office: &Office<L>,
    consoles: Option<&Consoles<L>>,
) -> Result<(), ServeFault> {
    let Some(consoles) = consoles else {
        return Ok(());
    };
    for console in &consoles.consoles {
        *console.desk.lock(rt) = Some(open_desk(rt, office)?);
    }
    Ok(())
}

/// Hands in the desks of the consoles.
pub(crate) fn hand_in_consoles<L: Ledger, R: Wait>(
    rt: &R,
    consoles: Option<&Consoles<L>>,
    desks: &mut Vec<Desk<L>>,
) -> Result<(), ServeFault> {
    let Some(consoles) = consoles else {
        return Ok(());
    };
    for console in &consoles.consoles {
        if let Some(desk) = console.desk.lock(rt).take() {
            push(desks, desk)?;
        }
    }
    Ok(())
}
