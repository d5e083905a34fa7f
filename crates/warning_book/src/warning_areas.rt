//! The areas of a warning.

ghost use Rattle.std.specs.Prelude.{◌≡◌, ◌++◌, ◌∷◌, [], true, false, not, bytes_eq, length, List, ℕ, OnOk, OnErr, IfOk};
ghost use Rattle.std.specs.List.{filter, list_any};
ghost use Rattle.common.specs.Order.{each_once};
ghost use Rattle.warning_book.specs.Classes.{have_classes};

use crate::classed_name::ClassedName;
use crate::classes::Classes;
use common::Name;
use indexmap::IndexSet;
use std::alloc::{AllocError, Global};
use std::marker::Model;

/// The names of the areas of a warning, each once, in the order in which they were named. Their classes stand beside them, so
/// that most names that are not among them are found so at once.
#[derive(Drop)]
pub struct WarningAreas {
    names: IndexSet<Name>,
    classes: Classes,
}

impl Model for WarningAreas {
    ghost use Rattle.std.specs.Prelude.{◌≡◌, true, List, ℕ};
    ghost use Rattle.warning_book.specs.Classes.{have_classes};

    ghost Value = { List (List ℕ) };

    ghost view = { λ s. s.names.keys };

    ghost invariant = { λ s. have_classes s.classes.digits s.names.keys ≡ true };
}

impl Clone for WarningAreas {
    ghost use Rattle.std.specs.Prelude.{◌≡◌};

    ghost is_clone = { λ s t. t ≡ s };

    fn clone(&self) -> Result<WarningAreas, AllocError> {
        Ok(WarningAreas {
            names: self.names.clone()?,
            classes: self.classes,
        })
    }
}

impl WarningAreas {
    /// The areas named, in memory of their own.
    pub(crate) fn copied(alloc: Global, names: &[Name]) -> Result<WarningAreas, AllocError>
        requires { each_once bytes_eq names.now ≡ true }
        ensures { IfOk result (λ areas. areas ≡ names.now) }
    {
        let mut areas = WarningAreas {
            names: IndexSet::new(alloc),
            classes: Classes::none(),
        };
        for name in names {
            areas.add(name.copied(alloc)?)?;
        }
        Ok(areas)
    }

    pub(crate) fn as_slice(&self) -> &[Name]
        ensures { result.now ≡ self.now }
    {
        self.names.as_slice()
    }

    pub(crate) fn len(&self) -> usize
        ensures { result ≡ length self.now }
    {
        self.names.as_slice().len()
    }

    /// Whether the area is among them.
    pub(crate) fn has(&self, a: &Name) -> bool
        ensures { result ≡ list_any (λ b. bytes_eq b a.now) self.now }
    {
        self.has_classed(&ClassedName::of(a))
    }

    /// The same, of an area with its class.
    #[inline(always)]
    pub(crate) fn has_classed(&self, a: &ClassedName<'_>) -> bool
        ensures { result ≡ list_any (λ b. bytes_eq b a.now.name.now) self.now }
    {
        self.classes.has(a) && self.has_name(a.name)
    }

    /// Whether one of the names is that of the area.
    fn has_name(&self, a: &Name) -> bool
        ensures { result ≡ list_any (λ b. bytes_eq b a.now) self.now }
    {
        self.names.as_slice().iter().any(|name| *name == *a)
    }

    /// Whether one of the names that have these classes may be among them.
    pub(crate) fn may_have_one_of(&self, classes: Classes) -> bool
        ensures { result ≡ false → (names : List (List ℕ)) → have_classes classes.digits names ≡ true → list_any (λ a. list_any (λ b. bytes_eq b a) self.now) names ≡ false }
    {
        self.classes.meets(classes)
    }

    /// Puts an area last that is not among them.
    pub(crate) fn add(&mut self, a: Name) -> Result<(), AllocError>
        requires { list_any (λ b. bytes_eq b a) self.old ≡ false }
        ensures put { OnOk result (self.new ≡ self.old ++ a ∷ []) }
        ensures unchanged { OnErr result (self.new ≡ self.old) }
    {
        let classes = self.classes.with(&a);
        self.names.insert(a)?;
        self.classes = classes;
        Ok(())
    }

    /// Takes an area out; the rest keep their order.
    pub(crate) fn cut(&mut self, a: &Name)
        ensures { self.new ≡ filter (λ b. not (bytes_eq b a.now)) self.old }
    {
        self.names.retain(|b| *b != *a);
        self.classes = Classes::of(self.names.as_slice());
    }
}
