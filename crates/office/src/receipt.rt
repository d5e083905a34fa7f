//! What a caller gets for an event that was accepted.

use centre_events::answer::Answer;
use centre_events::event::Event;

/// An event that was accepted, what it was answered, and the number of its entry.
pub struct Receipt {
    pub place: u64,
    pub event: Event,
    pub answer: Answer,
}

/// Written out, so that no crate above proves anew how its parts are dropped.
impl Drop for Receipt {
    fn drop(self) {
        let Receipt {
            place: _place,
            event: _event,
            answer: _answer,
        } = self;
    }
}
