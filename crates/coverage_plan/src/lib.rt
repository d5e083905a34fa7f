//! The coverage plan of a cell broadcast centre: which version of which warning is wanted in which registered cell.
//!
//! A plan has the register, the areas and the book of warnings, and changes them by one edit at a time. Begin with
//! `plan`; what is wanted where stands in `specs/Plan.antt`, what refuses an edit in `specs/Checks.antt`, and what an
//! edit makes of a plan and gives in `specs/Edited.antt`. Which pairs of a cell and a warning an edit changes is said in
//! `specs/Changes.antt`, and what stays for the others in `specs/ChangeLaws.antt`.
#![tactic(auto)]

mod checks;
mod covering;
mod edit;
mod edits;
mod gathering;
pub mod laws;
mod made;
mod pairs;
mod plan;
mod plan_item;
mod plan_items;
mod reach;
mod reached_pairs;
mod refusal;

pub use edit::Edit;
pub use gathering::covered_cells;
pub use made::Made;
pub use pairs::Pairs;
pub use plan::Plan;
pub use plan_item::PlanItem;
pub use plan_items::PlanItems;
pub use refusal::{Limit, Refusal};
