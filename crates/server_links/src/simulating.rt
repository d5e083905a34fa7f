//! The thread of a port that is its simulated BSC.

use crate::shared::Shared;
use bsc_sim::{Bsc, Choices};
use framing::{FromRead, FromWrite};
use server_ports::Port;
use std::alloc::Global;
use std::net::{Net, TcpListener, TcpStream};
use std::sync::Wait;
use std::sync::ledger::Ledger;

/// Answers the centre over the connection, until it ends.
fn answer(alloc: Global, stream: TcpStream) {
    let Ok(other) = stream.try_clone() else {
        return;
    };
    let mut bsc = Bsc::any(alloc);
    let choices = Choices::none(alloc);
    let mut reader = FromRead::new(stream);
    let mut writer = FromWrite::new(other);
    bsc.run(&mut reader, &mut writer, &choices);
}

/// Answers the centre over the connection, until it ends or the port is closing.
fn answer_until_closed<L: Ledger, R: Wait>(
    rt: &R,
    alloc: Global,
    port: &Port<L>,
    stream: TcpStream,
) {
    if let Ok(kept) = stream.try_clone() {
        if port.keep_simulated(rt, kept) {
            answer(alloc, stream);
        }
        port.end_simulated(rt);
    }
}

/// Connects once the BSC is registered, and answers the centre until the connection ends; or does nothing, where no BSC is
/// simulated.
pub fn simulate<L: Ledger, E: Drop, R: Wait + Net<Stream = TcpStream, Listener = TcpListener>>(
    rt: &R,
    shared: &Shared<L, E>,
    port: &Port<L>,
) {
    if shared.with_simulator && port.wait_simulated(rt) {
        if let Ok(stream) = TcpStream::connect(rt, port.address) {
            answer_until_closed(rt, shared.alloc, port, stream);
        }
    }
}
