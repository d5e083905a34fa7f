//! What the crates of a cell broadcast centre share: cells, names, octets, their lists, and lists put in order.
//!
//! A cell's order stands in `specs/Cell.antt`, lists in ascending order in `specs/Order.antt`, sorting in
//! `specs/Sorting.antt`, and the checks of an edit in `specs/Checks.antt`.
#![tactic(auto)]

mod cell;
mod cells;
mod name;
mod names;
mod octets;
mod sorting;

pub use cell::Cell;
pub use cells::Cells;
pub use name::Name;
pub use names::Names;
pub use octets::Octets;
pub use sorting::{Ordered, comes_before, in_order, insert_in_order};
