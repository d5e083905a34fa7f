//! What the base station controllers (BSCs) have reported: what is on air, what holds an order back, how often a
//! message was broadcast, and which cells are down.
//!
//! A line is what is kept of one BSC, cell and warning. Begin with `line_table`; the definitions that contracts cite
//! are in `specs/`: `Line`, `Held`, `Seen` and `Packed` for one line, `Table` for all of them, `Lines` for how one of
//! them is found, `Index` for which lines there are, `Known` for the cells that a report names, `NamedSet` for how
//! they are found, `OnAir` for the cells in which a version is on air, `Present` for whether it may be on air anywhere,
//! `Downs` for how the cells that are down are counted.
#![tactic(auto)]

mod cell_index;
mod cells_down;
mod downs;
mod gathering;
mod key_state;
mod known;
mod line;
mod line_key;
mod line_table;
mod lines;
mod named_set;
mod naming;
mod on_air;
mod packed_state;
mod place;
mod presence;
mod presences;
mod reading;
mod sight;
mod slot;
mod version_at;
mod warning_lines;
mod warning_slot;

pub use key_state::KeyState;
pub use line::Line;
pub use line_key::LineKey;
pub use line_table::LineTable;
pub use presence::Presence;
pub use sight::Sight;
