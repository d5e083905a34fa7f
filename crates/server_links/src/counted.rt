//! What a reply to a query says of the cells of its query.

use broadcast_watch::{Counted, info_of, judged};
use cbsp_ie::{CountEntry, Counts};
use centre_events::network::Network;
use centre_events::outcome::Outcome;
use centre_events::reply::Reply;
use std::alloc::{AllocError, Global};

/// What the numbers of a reply are judged by.
#[derive(Clone, Copy)]
struct Judging<'a> {
    /// How the BSC was asked, and for how many broadcasts.
    network: Network,
    /// The repetition period of the message.
    period: u16,
    /// The entries of the reply's list whose Number of Broadcasts Info isn't 0.
    marked: &'a [CountEntry],
}

impl Judging<'_> {
    /// What the reply says of a cell: nothing, where the BSC doesn't have the message there.
    fn counted_of(&self, reply: &Reply) -> Counted {
        let info = info_of(self.network.plmn, self.marked, reply.cell);
        let count = match reply.outcome {
            Outcome::Done => judged(self.period, self.network.broadcasts, info, reply.count),
            _ => None,
        };
        Counted {
            cell: reply.cell,
            count,
        }
    }
}

/// The entries of a list whose Number of Broadcasts Info isn't 0: there are few mostly, and each cell is looked for among them.
fn marked_of(alloc: Global, counts: Option<&Counts>) -> Result<Vec<CountEntry>, AllocError> {
    let mut marked = Vec::new(alloc);
    let Some(counts) = counts else {
        return Ok(marked);
    };
    for entry in counts.entries() {
        if entry.info != 0 {
            marked.push(*entry)?;
        }
    }
    Ok(marked)
}

/// What the reply with that list says of each of these cells, where the message has that repetition period.
pub(crate) fn all_counted(
    alloc: Global,
    network: Network,
    period: u16,
    replies: &[Reply],
    counts: Option<&Counts>,
) -> Result<Vec<Counted>, AllocError> {
    let marked = marked_of(alloc, counts)?;
    let judging = Judging {
        network,
        period,
        marked: marked.as_slice(),
    };
    let mut counted = Vec::new(alloc);
    for reply in replies {
        counted.push(judging.counted_of(reply))?;
    }
    Ok(counted)
}
