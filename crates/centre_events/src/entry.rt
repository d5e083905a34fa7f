//! One entry of the journal.

ghost use Rattle.std.specs.Prelude.{◌≡◌, ◌↔◌, true, IsTrue, IfOk, IsOk};
ghost use Rattle.centre_events.specs.Kept.{is_plain};

use crate::answer::Answer;
use crate::event::Event;
use std::alloc::{AllocError, Global};

/// An accepted event: who submitted it, and what it was answered.
pub struct Entry {
    /// The number of the desk, from 1.
    pub desk: u32,
    pub event: Event,
    pub answer: Answer,
}

/// Written out, so that no crate above proves anew how its parts are dropped.
impl Drop for Entry {
    fn drop(self) {
        let Entry {
            desk: _desk,
            event: _event,
            answer: _answer,
        } = self;
    }
}

impl Entry {
    /// The entry of an event and a copy of what it was answered. It takes no memory where the answer has no
    /// order, message or list.
    pub fn of(alloc: Global, desk: u32, event: Event, answer: &Answer) -> Result<Entry, AllocError>
        ensures entry { IfOk result (λ e. e ≡ record { desk = desk; event = event; answer = answer.now }) }
        ensures plain { is_plain answer.now ≡ true → IsOk result }
    {
        match answer.copied(alloc) {
            Ok(answer) => Ok(Entry {
                desk,
                event,
                answer,
            }),
            Err(error) => {
                drop(event);
                Err(error)
            }
        }
    }

    /// The same entry in memory of its own.
    pub fn copied(&self, alloc: Global) -> Result<Entry, AllocError>
        ensures { IfOk result (λ copy. copy ≡ self.now) }
    {
        let event = self.event.copied(alloc)?;
        Entry::of(alloc, self.desk, event, &self.answer)
    }

    pub fn same(&self, other: &Entry) -> bool
        ensures { IsTrue result ↔ (self.now ≡ other.now) }
    {
        self.desk == other.desk && self.event.same(&other.event) && self.answer.same(&other.answer)
    }
}
