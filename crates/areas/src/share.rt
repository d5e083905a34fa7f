//! What an area selects of a range of location areas.

/// What is told of each location area of a range, for selectors in order.
#[derive(Clone, Copy, Debug, PartialEq, Eq)]
pub(crate) enum Share {
    /// Neither the location area nor a cell of it is selected.
    Nothing,
    /// The location area is selected, and so each cell of it.
    All,
    /// No selector before that place is the location area or a cell of it. At 0 this says nothing.
    From { place: u16 },
}
