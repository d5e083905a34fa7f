//! Whether a message can be written.

ghost use Rattle.std.specs.Prelude.{◌≡◌, ◌↔◌, ◌<◌, length, IfSome, IsTrue, option_map};
ghost use Rattle.cbsp_ie.specs.Written.{cells_octets, counts_octets, failures_octets};
ghost use Rattle.cbsp_messages.specs.Spelling.{HasPages};
ghost use Rattle.cbsp_messages.specs.Written.{Fits};

use crate::message::Message;
use crate::message_parts::MessageParts;
use cbsp_ie::{CellIds, Counts, Failures};

/// The greatest length that two octets can say.
const LONGEST_LIST: usize = 65535;

impl Message {
    /// Whether each list has at most 65,535 octets after its length, and a WRITE-REPLACE has 1 to 15
    /// pages. Nothing is asked of the pages of an emergency warning.
    pub fn fits(&self) -> bool
        ensures { IsTrue result ↔ Fits self.now }
    {
        let parts = MessageParts::of(self);
        cells_fit(parts.cells)
            && counts_fit(parts.counts)
            && failures_fit(parts.failures)
            && pages_fit(self)
    }
}

fn cells_fit(cells: Option<&CellIds>) -> bool
    ensures { IsTrue result ↔ IfSome (option_map (λ lent. lent.now) cells.entry) (λ cells. length (cells_octets cells) < 65536) }
{
    match cells {
        None => true,
        Some(cells) => cells.octets_len() <= LONGEST_LIST,
    }
}

fn counts_fit(counts: Option<&Counts>) -> bool
    ensures { IsTrue result ↔ IfSome (option_map (λ lent. lent.now) counts.entry) (λ counts. length (counts_octets counts) < 65536) }
{
    match counts {
        None => true,
        Some(counts) => counts.octets_len() <= LONGEST_LIST,
    }
}

fn failures_fit(failures: Option<&Failures>) -> bool
    ensures { IsTrue result ↔ IfSome (option_map (λ lent. lent.now) failures.entry) (λ failures. length (failures_octets failures) < 65536) }
{
    match failures {
        None => true,
        Some(failures) => failures.octets_len() <= LONGEST_LIST,
    }
}

fn pages_fit(message: &Message) -> bool
    ensures { IsTrue result ↔ HasPages message.now }
{
    match message {
        Message::WriteReplace(m) => 1 <= m.pages.len() && m.pages.len() <= 15,
        _ => true,
    }
}
