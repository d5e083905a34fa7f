//! Which base station controllers (BSCs) are registered, and at which BSC each cell is registered.
//!
//! A cell is registered at one BSC or at none; cells are ordered by location area, then by cell identity.
//! Begin with `register`. What each event makes of a register, and what refuses it, is said in
//! `specs/Register.antt`, what always holds in `specs/Sound.antt`; what follows from an event for each BSC and
//! each cell is in `specs/Laws.antt`. How the cells are kept, in their order and by BSC, is in `specs/Places.antt`.
#![tactic(auto)]

mod bsc_id;
mod bscs;
mod by_cell;
mod placed;
mod places;
mod refusal;
mod register;
mod seat;
mod seats;

pub use bsc_id::BscId;
pub use placed::Placed;
pub use refusal::{Limit, Refusal};
pub use register::Register;
