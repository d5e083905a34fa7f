//! Runs the script of standard input on a new centre, as `cbc replay` does. It is compiled without the server and without the
//! reader of command lines, so it is the quickest way to see the centre answer.
#![tactic(auto)]

use centre_events::network::Network;
use console::run_script;
use framing::{FromRead, FromWrite};
use std::process::ExitCode;
use std::{env, io};

/// The network of the centre, whose code TS 24.008 writes in three octets: MCC 001, MNC 01. Messages are broadcast until they
/// are killed.
const NETWORK: Network = Network {
    plmn: [0x00, 0xf1, 0x10],
    broadcasts: 0,
};

/// How many entries its journal holds.
const JOURNAL_LIMIT: u32 = 4_000_000;

/// Whether there is an argument.
fn has_word<R: env::Env + AllocGlobal>(rt: &R) -> io::Result<bool> {
    Ok(env::args(rt)?.nth(1).is_some())
}

fn main(rt: HostRuntime) -> ExitCode {
    let Ok(false) = has_word(&rt) else {
        let _ = eprintln!(rt;
            "first: there are no options; the script is read from standard input"
        );
        return ExitCode::from(2);
    };
    let mut reader = FromRead::new(rt.stdin());
    let mut writer = FromWrite::new(rt.stdout());
    let mut errors = FromWrite::new(rt.stderr());
    let alloc = rt.alloc();
    ExitCode::from(run_script(
        alloc,
        NETWORK,
        JOURNAL_LIMIT,
        &mut reader,
        &mut writer,
        &mut errors,
    ))
}
