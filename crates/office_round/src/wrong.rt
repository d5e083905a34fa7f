//! What is not as it has to be.

/// What is not as it has to be.
#[derive(Clone, Copy)]
pub(crate) enum Wrong {
    Memory,
    Refused,
    Receipts,
    State,
    Wake,
    Settled,
    NotMet,
}

impl Wrong {
    pub(crate) fn words(self) -> &'static str {
        match self {
            Wrong::Memory => "memory is refused at each call",
            Wrong::Refused => "a call is refused for another cause than memory",
            Wrong::Receipts => "a refused event changed the receipts of its desk",
            Wrong::State => "a refused call changed what the office says",
            Wrong::Wake => "a side goes on for another cause",
            Wrong::Settled => "the desks are settled otherwise",
            Wrong::NotMet => "all memory was taken, and a call was never refused",
        }
    }
}
