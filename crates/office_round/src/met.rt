//! What want of memory leads to.

/// A call that is refused for want of memory, or what comes of it.
#[derive(Clone, Copy)]
pub(crate) enum Met {
    Open,
    Submit,
    Look,
    Stale,
    WaitStale,
    WaitedStale,
    Rebuild,
    Rebuilt,
    Checkpoint,
}

impl Met {
    pub(crate) fn words(self) -> &'static str {
        match self {
            Met::Open => "open: memory",
            Met::Submit => "submit: memory",
            Met::Look => "look: memory",
            Met::Stale => "look: stale",
            Met::WaitStale => "wait: stale",
            Met::WaitedStale => "a side that waited: stale",
            Met::Rebuild => "rebuild: memory",
            Met::Rebuilt => "rebuild: ok",
            Met::Checkpoint => "checkpoint: memory",
        }
    }
}
