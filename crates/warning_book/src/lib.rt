//! The warnings that an operator of a cell broadcast centre has issued, each with its versions and its areas.
//!
//! A version has a content and a serial number (3GPP TS 23.041, 9.4.1.2.1). The versions of a warning stand in one list,
//! the current one last; their scope, code and kind are the same, and their update numbers differ, so there are 16 at most.
//! A stopped warning stays in the book, with its code and its areas, until it is forgotten.
//! Begin with `book`; the words of its contracts stand in `specs/Book`, the checks of each edit in `specs/Checks`, and
//! what holds of every book in `specs/Sound`.
#![tactic(auto)]

mod book;
mod category;
mod cbs_content;
mod checks;
mod classed_name;
mod classes;
mod content;
mod content_pages;
mod edits;
mod emergency_content;
mod kind;
mod lookups;
mod notice;
mod questions;
mod refusal;
mod version;
mod versions;
mod warning;
mod warning_areas;
mod warning_checks;
mod warning_id;

pub use book::Book;
pub use category::Category;
pub use cbs_content::CbsContent;
pub use content::Content;
pub use content_pages::ContentPages;
pub use emergency_content::EmergencyContent;
pub use kind::Kind;
pub use notice::Notice;
pub use refusal::{Limit, Refusal};
pub use version::Version;
pub use warning::Warning;
pub use warning_id::WarningId;
