//! The cell broadcast centre as a program: the console on standard input and output.
#![tactic(auto)]

use console::run;
use framing::{FromRead, FromWrite};
use server::serve_words;
use server_operator::TimedInput;
use server_options::PeersSource;
use std::alloc::Global;
use std::fs::{File, Files};
use std::io::{BufReader, Eprint, ErrorKind, Read, Write};
use std::net::{Net, TcpListener, TcpStream};
use std::os::fd::AsRawFd;
use std::process::ExitCode;
use std::sync::Wait;
use std::thread::Threads;
use std::time::Clock;
use std::{env, io};

fn main(rt: HostRuntime) -> ExitCode {
    let words = match command_line(&rt) {
        Ok(words) => words,
        Err(error) => return unread(&rt, &error),
    };
    let mut reader = FromRead::new(rt.stdin());
    let mut writer = FromWrite::new(rt.stdout());
    let mut errors = FromWrite::new(rt.stderr());
    match run(rt.alloc(), &words, &mut reader, &mut writer, &mut errors) {
        Some(status) => ExitCode::from(status),
        None => serve(
            &rt,
            rt.alloc(),
            &words,
            is_logged(&rt),
            rt.stdin(),
            rt.stdout(),
            rt.stderr(),
        ),
    }
}

/// Runs the server on standard input and output. It looks now and then whether to go on, while nothing comes.
fn serve<
    R: Files<File = File>
        + Wait
        + PeersSource
        + Threads
        + Clock
        + Sync
        + Eprint
        + Net<Stream = TcpStream, Listener = TcpListener>,
    I: Read + AsRawFd + Send + Drop,
    W: Write + Send + Drop,
    E: Write + Send + Drop,
>(
    rt: &R,
    alloc: Global,
    words: &[String],
    has_levels: bool,
    input: I,
    output: W,
    errors: E,
) -> ExitCode {
    match BufReader::new(alloc, TimedInput::new(input)) {
        Ok(reader) => {
            let status = serve_words(rt, alloc, words, has_levels, reader, output, errors);
            ExitCode::from(status)
        }
        Err(_) => no_memory(rt),
    }
}

fn no_memory<R: Eprint>(rt: &R) -> ExitCode {
    let _ = eprintln!(rt; "cbc: out of memory");
    ExitCode::from(1)
}

/// Whether standard error goes to the system log: systemd says so in the environment, and takes the level off the front of each line.
fn is_logged<R: env::Env + Alloc>(rt: &R) -> bool {
    env::var(rt, "JOURNAL_STREAM").is_ok()
}

/// The words as the system gives them, the program's own first.
fn command_line<R: env::Env + AllocGlobal>(rt: &R) -> io::Result<Vec<String>> {
    Ok(env::args(rt)?.collect(rt.alloc())?)
}

/// Says why the words can't be read: there is no memory for them, or one of them is not UTF-8.
fn unread<R: Eprint>(rt: &R, error: &io::Error) -> ExitCode {
    if error.kind() == ErrorKind::OutOfMemory {
        return no_memory(rt);
    }
    let _ = eprintln!(rt; "error: invalid UTF-8 was detected in one or more arguments");
    ExitCode::from(2)
}
