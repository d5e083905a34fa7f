//! A list of names.

ghost use Rattle.std.specs.Prelude.{◌≡◌, ◌↔◌, IsTrue, IfOk, nat_eq};
ghost use Rattle.std.proofs.Common.{rules};
ghost use Rattle.std.specs.Cmp.Lexicographic.{pointwise};
ghost use Rattle.std.specs.Cmp.Rules.{comparing};

use crate::name::Name;
use std::alloc::{AllocError, Global};
use std::marker::Model;

/// Names in their order.
#[derive(Clone, Debug)]
pub struct Names {
    names: Vec<Name>,
}

/// Written out, so that no crate above proves anew how its parts are dropped.
impl Drop for Names {
    fn drop(self) {
        let Names { names: _names } = self;
    }
}

impl Model for Names {
    ghost use Rattle.std.specs.Prelude.{List, ℕ};

    ghost Value = { List (List ℕ) };

    ghost view = { λ s. s.names.items };
}

impl Names {
    /// The names of the vector, which is moved.
    pub fn from_vec(names: Vec<Name>) -> Names
        ensures { result ≡ names.items }
    {
        Names { names }
    }

    pub fn as_slice(&self) -> &[Name]
        ensures { result.now ≡ self.now }
    {
        &self.names
    }

    /// The names as a vector, which is moved and not copied.
    pub fn into_vec(self) -> Vec<Name>
        ensures { result.items ≡ self }
    {
        let Names { names } = self;
        names
    }

    /// The same names in memory of their own.
    pub fn copied(&self, alloc: Global) -> Result<Names, AllocError>
        ensures { IfOk result (λ copy. copy ≡ self.now) }
    {
        let mut names = Vec::new(alloc);
        let all = self.as_slice();
        for name in all {
            names.push(name.copied(alloc)?)?;
        }
        Ok(Names::from_vec(names))
    }

    pub fn same(&self, other: &Names) -> bool
        ensures { IsTrue result ↔ (self.now ≡ other.now) }
    {
        *self == *other
    }
}

impl PartialEq for Names {
    ghost eq = { λ a b. pointwise (pointwise nat_eq) a b };

    ghost laws = { Prim.search (comparing, rules) };

    fn eq(&self, other: &Names) -> bool
        ensures test { result ≡ pointwise (pointwise nat_eq) self.now other.now }
        ensures same { IsTrue result ↔ (self.now ≡ other.now) }
    {
        self.as_slice() == other.as_slice()
    }
}

impl Eq for Names {
    ghost laws = { Prim.search (comparing, rules) };
}
