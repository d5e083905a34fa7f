//! What an office answers a question.

pub use centre_questions::seen_value::SeenValue;

/// The answer to a question, and after how many entries it was asked.
#[derive(Drop)]
pub struct Seen {
    pub position: u64,
    pub value: SeenValue,
}
