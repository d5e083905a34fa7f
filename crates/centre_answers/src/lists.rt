//! Lists of what a centre has, from what it keeps. Each is a picture of one moment, in memory of its own.

pub mod bscs;
pub mod cells;
pub mod counts;
pub mod failed;
pub mod named_areas;
mod wanted_version;
pub mod warnings;
