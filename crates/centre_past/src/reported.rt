//! What the base station controllers have reported.

mod reported_key;
mod reported_keys;

pub use mirror::Presence;
pub use reported_key::ReportedKey;
pub use reported_keys::ReportedKeys;
