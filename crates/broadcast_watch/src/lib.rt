//! What a server makes of the numbers of broadcasts that BSCs report: in which cells a message doesn't rise, and since when an
//! emergency message is over by its period.
//!
//! Values only: nothing here waits or reads a clock. Begin with `silences`; `judging` says which numbers are judged, and `airings` when
//! a message came on air. The words of their contracts stand in `specs/`.
#![tactic(auto)]

mod airing;
mod airings;
mod cell_set;
mod counted;
mod hearing;
mod judging;
mod message_key;
mod periods;
mod silences;
mod spell;
mod spells;
mod versions;

pub use airing::Airing;
pub use airings::Airings;
pub use counted::Counted;
pub use judging::{info_of, judged, silence_of, takes_off_air};
pub use message_key::MessageKey;
pub use periods::over_since;
pub use silences::Silences;
pub use spell::Spell;
pub use spells::Spells;
