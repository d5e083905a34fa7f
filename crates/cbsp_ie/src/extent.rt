//! How many octets an element's value has.

/// The octets after the identifier: a number of them, or two octets of length and as many as these
/// say.
#[derive(Clone, Copy, PartialEq, Eq)]
pub enum Extent {
    Fixed(usize),
    Counted,
}
