//! What no clause says of the socket file: its rights, and which files are taken over.

use crate::checks::{same, yes};
use server_consoles::{OpenFault, close_socket, open_socket};
use std::fs;
use std::fs::{File, Files};
use std::io::Write;
use std::net::Net;
use std::os::unix::fs::PermissionsExt;
use std::process::Abort;

/// A path of 108 octets, one more than a socket's may have.
const LONG: &str =
    "cccccccccccccccccccccccccccccccccccccccccccccccccccccccccccccccccccccccccccccccccccccccccccccccccccccccccccc";

/// Why the file can't be made: `in use`, `other`, `system`; or `made`.
fn found<R: Files + Net>(rt: &R, path: &str) -> &'static str {
    match open_socket(rt, path) {
        Ok(_) => "made",
        Err(OpenFault::InUse) => "in use",
        Err(OpenFault::Other) => "other",
        Err(OpenFault::System(_)) => "system",
    }
}

#[test]
fn a_stale_file_is_taken_over_and_no_other(rt: HostRuntime) {
    let path = "socket-of-consoles";
    let _ = fs::remove_file(&rt, path);
    let listener = open_socket(&rt, path).expect(&rt, "it is made");
    let metadata = fs::symlink_metadata(&rt, path).expect(&rt, "it is there");
    same(
        &rt,
        metadata.permissions().mode() & 0o777,
        0o600,
        "it is its owner's alone",
    );
    same(&rt, found(&rt, path), "in use", "one in use is refused");
    yes(
        &rt,
        fs::exists(&rt, path).unwrap_or(false),
        "it is still there",
    );
    drop(listener);
    yes(
        &rt,
        fs::exists(&rt, path).unwrap_or(false),
        "a killed run leaves it",
    );
    same(&rt, found(&rt, path), "made", "a stale one is taken over");
    close_socket(&rt, path);
    yes(
        &rt,
        !fs::exists(&rt, path).unwrap_or(true),
        "it is taken away",
    );
}

#[test]
fn what_is_no_socket_is_left(rt: HostRuntime) {
    let path = "file-of-another";
    let mut file = File::create(&rt, path).expect(&rt, "a file is made");
    file.write_all(b"kept").expect(&rt, "it is written");
    drop(file);
    same(&rt, found(&rt, path), "other", "another file is refused");
    yes(
        &rt,
        fs::exists(&rt, path).unwrap_or(false),
        "it is still there",
    );
    let _ = fs::remove_file(&rt, path);
    for bad in ["no-folder/console", "", LONG] {
        same(&rt, found(&rt, bad), "system", "there is no such place");
    }
}
