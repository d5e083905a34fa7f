//! The messages of the Cell Broadcast Service Protocol (3GPP TS 48.049, clause 8.1), read from the octets
//! behind a frame's length and written as whole frames.
//!
//! `layout` has the one table of which elements each layout demands, may have and writes in which order. A type has one
//! layout, but WRITE-REPLACE has two.
//! `messages` has a file for each message, and `reading` and `writing` go between messages and their octets by
//! that table.
#![tactic(auto)]

mod building;
mod elements;
mod fault;
mod fits;
mod laws;
mod layout;
mod message;
mod message_parts;
mod message_type;
mod messages;
mod optional_lists;
mod page;
mod pages;
mod ranges;
mod reading;
mod writing;

pub use fault::MessageFault;
pub use laws::{no_fault, one_fault, one_message, short_page, table_is_whole};
pub use layout::{Layout, Table};
pub use message::Message;
pub use message_type::MessageType;
pub use messages::{
    ErrorIndication, Failure, Kill, KillComplete, KillFailure, Restart, StatusComplete,
    StatusFailure, StatusQuery, WriteComplete, WriteEmergency, WriteFailure, WriteReplace,
};
pub use page::Page;
pub use pages::Pages;
pub use reading::{read, read_as};
pub use writing::write;
