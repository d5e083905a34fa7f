//! What a line comes to.

use crate::line::Line;
use crate::text_fault::TextFault;
use centre_events::event::Event;

/// An event, or why the line is none.
#[derive(Drop)]
pub enum LineEvent {
    Event(Event),
    /// Its hexadecimal digits don't give what they have to.
    Bad(TextFault),
    /// No line of an event: a question, a `gen`, a `rebuild` or a `checkpoint`.
    Other(Line),
}
