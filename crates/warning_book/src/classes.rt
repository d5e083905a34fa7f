//! Classes of names, by which most names are told from others at once.

ghost use Rattle.std.specs.Prelude.{◌≡◌, ◌<◌, true, false, List, ℕ, bytes_eq};
ghost use Rattle.std.specs.List.{list_any};
ghost use Rattle.warning_book.specs.Classes.{class_of, has_class, have_classes};

use crate::classed_name::ClassedName;
use common::Name;

/// The class of a name, one of 128. Where two names have different classes, they differ.
pub(crate) fn class_of(a: &Name) -> u32
    ensures class { result ≡ class_of a.now }
    ensures bound { result < 128 }
{
    let mut class: u32 = 0;
    for octet in a.as_slice() {
        class = (class * 11 + u32::from(*octet)) % 128;
    }
    class
}

/// The classes of some names: a digit of a number for each class.
#[derive(Clone, Copy)]
pub(crate) struct Classes {
    pub(crate) digits: u128,
}

impl Classes {
    /// No class.
    pub(crate) fn none() -> Classes
        ensures { result.digits ≡ 0 }
    {
        Classes { digits: 0 }
    }

    /// These and the class of the name.
    #[tactic(auto, using(crate::proofs::ClassLemmas::class_kept, crate::proofs::ClassLemmas::class_there))]
    pub(crate) fn with(self, a: &Name) -> Classes
        ensures own { has_class result.digits a.now ≡ true }
        ensures others { (b : List ℕ) → has_class self.digits b ≡ true → has_class result.digits b ≡ true }
    {
        Classes {
            digits: self.digits | (1 << class_of(a)),
        }
    }

    /// The classes of the names.
    #[tactic(auto, using(crate::proofs::ClassLemmas::classes_more))]
    pub(crate) fn of(names: &[Name]) -> Classes
        ensures { have_classes result.digits names.now ≡ true }
    {
        let mut classes = Classes::none();
        for name in names {
            classes = classes.with(name);
        }
        classes
    }

    /// Whether the class of the name is among them.
    #[tactic(auto, using(std::proofs::lemmas::Nat::Bits::shr_and_one))]
    #[inline(always)]
    pub(crate) fn has(self, a: &ClassedName<'_>) -> bool
        ensures { result ≡ has_class self.digits a.now.name.now }
    {
        (self.digits >> a.class) & 1 == 1
    }

    /// Whether a class is among both. Where none is, no name has its class among both.
    #[tactic(auto, using(crate::proofs::ClassLemmas::none_met))]
    pub(crate) fn meets(self, other: Classes) -> bool
        ensures { result ≡ false → (xs ys : List (List ℕ)) → have_classes self.digits xs ≡ true → have_classes other.digits ys ≡ true → list_any (λ y. list_any (λ x. bytes_eq x y) xs) ys ≡ false }
    {
        self.digits & other.digits != 0
    }
}
