//! The links of a server: BSCs connect over TCP, each to a port of its own.
//!
//! A port (`Port` of `server_ports`) has three threads: one accepts connections and decides which gets the link (`accepting`), one
//! brings up a link and reads from it (`reading`), one writes to it (`writing`). A fourth may be a simulated BSC (`simulating`). `gate`
//! keeps to how fast reports and orders may pass, `charging` to what reports may cost, and `watching` sees to it that an order without a
//! reply is said. `resetting` has a BSC forget what it broadcasts when it connects, and `awaiting` waits until it has. `alive` asks a BSC
//! that says nothing whether it is there, `querying` one what is on air where no operator does. `folding` folds the journal where that is
//! due, `keeping` keeps it in a file, with where links came from (`link_peers`). `knocking` sends a SYN there when a server starts. `broadcasts`
//! takes what replies say of broadcasts (`counted`), and `telling` says what reports came to.
//! What happens to links is said by a thread of its own (`server_errors`). No clause says what a socket gives or when a thread goes
//! on; what is promised of the two sides of a link stands in `link_worker`, and by which rules a link goes on in `link_rules`.
#![tactic(auto)]

mod accepting;
mod alive;
mod awaiting;
mod broadcasts;
mod charging;
mod closing;
mod counted;
mod folding;
mod gate;
mod heavy_turn;
mod incoming;
mod keeping;
mod knocking;
mod link_peers;
mod options;
mod orders;
mod querying;
mod reading;
mod renaming;
mod resetting;
mod shared;
mod simulating;
mod sockaddr;
mod tcp;
mod telling;
mod watching;
mod writing;

pub use accepting::accept_links;
pub use broadcasts::{BroadcastWatch, active_version, push_silent, silent_count};
pub use closing::{close_all, close_port};
pub use heavy_turn::HeavyTurn;
pub use keeping::keep;
pub use knocking::knock;
pub use options::LinkOptions;
pub use orders::order_words;
pub use reading::read_links;
pub use renaming::Renamed;
pub use shared::{Shared, second_of};
pub use simulating::simulate;
pub use watching::watch;
pub use writing::write_links;
