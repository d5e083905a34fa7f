//! Serial numbers of cell broadcast messages, and the message codes in them (3GPP TS 23.041, 9.4.1.2.1).
//!
//! A serial number has a geographical scope, a message code and an update number in 16 bits.
//! Begin with `serial`; `codes` finds a code that no message has. The words of their contracts stand in
//! `specs/Serials`.
#![tactic(auto)]

mod codes;
mod scope;
mod serial;

pub use codes::least_free_code;
pub use scope::Scope;
pub use serial::Serial;
