//! The cell broadcast centre as a server: BSCs connect over TCP, each to a port of its own, while operators type lines.
//!
//! Begin with `serving`, then `threads` and `operators`. What the threads of a port do is in `server_links`, those of consoles in
//! `server_consoles`, that of the page for those who only look in `server_http` (`looking`, `picturing`), the lines of an operator in
//! `server_operator`; what is promised of the office stands in `office`. No clause says what a socket gives or when a thread goes on.
#![tactic(auto)]

mod airs;
mod consoles;
mod desks;
mod journal;
mod kept_file;
mod knocking;
mod looking;
mod occasions;
mod operators;
mod picturing;
mod ports;
mod running_server;
mod serving;
mod settling;
mod threads;

pub use serving::{serve, serve_words};
pub use settling::settle;
