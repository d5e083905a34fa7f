//! A list that only proofs know.

ghost use Rattle.std.specs.Prelude.{◌≡◌, ◌++◌, List, []};
ghost use Rattle.std.specs.Borrow.{ftrue};

use std::marker::{Model, PhantomData};

/// What was let go, the oldest first, which a clause reads as `items`. It takes no memory, and its methods do nothing when
/// they run.
#[derive(Drop)]
pub struct History<T> {
    of: PhantomData<T>,
    pub ghost items: { List T },
}

impl<T> Model for History<T> {
    ghost also_owns = { λ _. ftrue };
}

// It owns nothing.
unsafe impl<T: Send> Send for History<T> {}

impl<T> History<T> {
    /// Nothing.
    pub fn new() -> History<T>
        ensures { result.items ≡ [] }
    {
        History { of: PhantomData }
    }

    /// These, after what was let go before.
    pub fn then(&self, _more: &Vec<T>) -> History<T>
        ensures { result.items ≡ self.now.items ++ _more.now.items }
    {
        History { of: PhantomData }
    }
}
