//! The information elements of CBSP (3GPP TS 48.049, 8.2), read from octets and written to octets.
//!
//! `reading` gives the element at the front of octets, its pages and lists lent from them; `writing` and
//! `list_writing` append an element. Which octets are read as an element, and what is wrong with others, is
//! said in `specs/Element.antt`, and which are written in `specs/Written.antt`.
#![tactic(auto)]

mod cause;
mod cell_id;
mod cell_ids;
mod cell_list;
mod count_entry;
mod count_list;
mod counts;
mod element;
mod element_id;
mod entries;
mod extent;
mod fail_entry;
mod failure_list;
mod failures;
mod form;
mod ie_fault;
mod laws;
mod lent_writing;
mod list_writing;
mod page_view;
mod reading;
mod security_view;
mod writing;

pub use cause::Cause;
pub use cell_id::CellId;
pub use cell_ids::CellIds;
pub use cell_list::CellList;
pub use common::Cell;
pub use count_entry::CountEntry;
pub use count_list::CountList;
pub use counts::Counts;
pub use element::Element;
pub use element_id::{ElementId, UnknownElementId};
pub use extent::Extent;
pub use fail_entry::FailEntry;
pub use failure_list::FailureList;
pub use failures::Failures;
pub use form::Form;
pub use ie_fault::IeFault;
pub use laws::{no_fault, one_fault, one_reading, written_is_read};
pub use list_writing::{write_cells, write_counts, write_failures};
pub use page_view::PageView;
pub use reading::read_element;
pub use security_view::SecurityView;
pub use writing::write_element;
