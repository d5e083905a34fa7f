//! A journal in a file (the file of `--keep`): what follows the journal into it, and how it is read when it is opened. No thread
//! and no office; a caller brings the lines of the entries and takes those that stand in the file.
//!
//! Begin with `writing`, which puts lines into a `JournalFile`, and `load` of `reading`, which reads them. `disk_file` is a file of the system,
//! `memory_file` one for tests, which a crash can cut. `laws` says what a crash at any moment leaves.
#![tactic(auto)]

mod comment;
mod disk_file;
mod first_line;
mod heading;
mod journal_file;
pub mod laws;
mod line_end;
mod load_fault;
mod loaded;
mod loading;
mod memory_file;
mod on_disk;
mod open_fault;
mod put_fault;
mod reading;
mod synced;
mod take_line;
mod writing;

pub use disk_file::DiskFile;
pub use first_line::header;
pub use heading::Heading;
pub use journal_file::{JournalFile, append_all};
pub use load_fault::LoadFault;
pub use loaded::Loaded;
pub use loading::{LONGEST_LINE, Loading};
pub use memory_file::MemoryFile;
pub use on_disk::OnDisk;
pub use open_fault::OpenFault;
pub use put_fault::PutFault;
pub use reading::load;
pub use synced::Synced;
pub use take_line::{NotTaken, TakeLine};
pub use writing::Writing;
