//! The two sides of a BSC's link: one reads its reports and submits them, the other writes orders and queries to it
//! (3GPP TS 48.049, clause 8).
//!
//! Begin with `reading` and `writing`; `end` has what ends a side, `gate` where a caller may hold a link or cut it, and `passage`
//! and `load` what it is told there. What a side promises is defined in `specs/Reports.antt` and `specs/Orders.antt`.
#![tactic(auto)]

mod end;
mod gate;
mod link;
mod load;
mod passage;
mod reading;
mod writing;

pub use end::End;
pub use gate::{Gate, OpenGate, Step};
pub use load::Load;
pub use passage::Passage;
pub use reading::read_side;
pub use writing::write_side;
