//! Named areas of a cell broadcast centre, and their selectors.
//!
//! A selector is one cell or one location area (3GPP TS 23.003, clause 4). An area covers a cell when one of its
//! selectors is that cell or its location area; whether the cell is registered does not matter here.
//! An area's selectors are kept by location area, a whole location area before the cells in it (`specs/Selector`).
//! `holders` keeps the areas by their selectors, so that those of a cell are found without a look at every area.
//! Begin with `areas`; the words of its contracts stand in `specs/Areas`, the checks of each edit in `specs/Checks`,
//! and what the edits change, for every list of areas, in `specs/Laws`.
#![tactic(auto)]

mod area;
mod areas;
mod ascending_names;
mod coverage;
mod edits;
mod holders;
mod lookups;
mod naming;
mod refusal;
mod selector;
mod selector_key;
mod selectors;
mod share;
mod shares;

pub use area::Area;
pub use areas::Areas;
pub use coverage::Coverage;
pub use refusal::{Limit, Refusal};
pub use selector::Selector;
pub use selectors::Selectors;
