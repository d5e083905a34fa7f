//! The text of a warning as pages of a cell broadcast message (3GPP TS 23.038), and back.
//!
//! Begin with `writing`, which makes the pages of a text, and `reading`, which gives the text of pages. What
//! pages say stands in `specs/Reading`, in the standard's words: the tables of letters in `specs/Alphabet`, the
//! septets of a page in `specs/Septets`. `specs/Texts` says which texts have pages.
#![tactic(auto)]

mod alphabet;
mod coding;
mod cutting;
mod fault;
mod letters;
mod measure;
mod measuring;
mod plain;
mod reading;
mod septets;
mod seven_bit;
mod text_pages;
mod ucs2;
mod writing;

pub use coding::Coding;
pub use fault::TextFault;
pub use measure::Measure;
pub use measuring::measure_of;
pub use plain::plain_text;
pub use reading::text_of;
pub use text_pages::TextPages;
pub use writing::pages_of;
