//! When a line may be told.

use std::sync::Wait;

/// What knows when a line may be told.
pub trait Clearance {
    /// Waits until all that was to be said up to now may be told. The answer is whether it may: `false` where it never will be.
    fn may_tell<R: Wait>(&self, rt: &R) -> bool;
}

/// Every line may be told at once.
#[derive(Clone, Copy, Debug)]
pub struct AtOnce;

impl Clearance for AtOnce {
    fn may_tell<R: Wait>(&self, _rt: &R) -> bool {
        true
    }
}
