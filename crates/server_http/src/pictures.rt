//! Where pictures come from.

ghost use Rattle.std.specs.Prelude.{◌≤◌, IfOk, IfSome};
ghost use Rattle.journal_keeper.specs.Kept.{Covers};

use journal_keeper::{KeptUpTo, Untold};
use status_figures::Picture;
use std::alloc::AllocError;
use std::sync::Wait;
use std::time::Clock;

/// The server, as its page knows it.
pub trait Pictures {
    /// Takes a picture, and waits a while, but less than a second, until what it tells of is kept. At an `Err` there was no memory for it.
    fn take<R: Wait + Clock>(&self, rt: &R) -> Result<Untold<Picture>, AllocError>
        ensures { IfOk result (λ untold. untold.what.status.entries ≤ untold.place) };

    /// That all entries up to the place are kept, where a file is kept. `None` where they aren't yet: then nobody is shown what tells of
    /// them.
    fn kept<R: Wait>(&self, rt: &R, place: u64) -> Option<KeptUpTo>
        ensures { IfSome result (λ kept. Covers kept place) };

    /// Says something of the page on standard error.
    fn tell<R: Wait + Clock>(&self, rt: &R, what: &str);
}
