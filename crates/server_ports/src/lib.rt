//! The ports of a server: one for each BSC, and what the threads of a port tell each other.
//!
//! Begin with `port`. `port_state` is what stands under its lock, `port_pace` how fast it goes on, `figures` what its reports are
//! charged by. Why a link ended is said by `link_end`, and found by `causes`. `outgoing` writes to a connection, and keeps why that
//! failed.
#![tactic(auto)]

mod broken;
mod causes;
mod connection;
mod ended;
mod entered;
mod figures;
mod job;
mod link_end;
mod link_limits;
mod named;
mod outgoing;
mod port;
mod port_limits;
mod port_pace;
mod port_state;
mod shut;
mod side_end;
mod up_link;
mod write_state;
mod write_turn;

pub use broken::Broken;
pub use causes::cause_of;
pub use connection::Connection;
pub use ended::Ended;
pub use entered::Entered;
pub use figures::Figures;
pub use job::Job;
pub use link_end::LinkEnd;
pub use link_limits::LinkLimits;
pub use named::Named;
pub use outgoing::Outgoing;
pub use port::Port;
pub use port_pace::PortPace;
pub use shut::Shut;
pub use side_end::SideEnd;
