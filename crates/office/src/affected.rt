//! BSCs for which there may be something to do.

ghost use Rattle.std.specs.Prelude.{◌≡◌, OnErr, OnOk};
ghost use Rattle.cell_register.specs.Register.{is_place};
ghost use Rattle.office.specs.Affecting.{includes, is_link};

use cell_register::BscId;
use centre_events::refusal::Refusal;

/// No BSC, these, one whose latest link may be another or down now, or all.
#[derive(Clone, Copy, Debug)]
pub(crate) enum Affected {
    None,
    These(Option<BscId>, Option<BscId>),
    Link(BscId),
    All,
}

/// Whether it is that BSC.
fn is_place(place: Option<BscId>, b: BscId) -> bool
    ensures { result ≡ is_place place b }
{
    match place {
        Some(d) => d == b,
        None => false,
    }
}

impl Affected {
    /// Whether the BSC is one of them.
    pub(crate) fn includes(&self, b: BscId) -> bool
        ensures { result ≡ includes self.now b }
    {
        match self {
            Affected::None => false,
            Affected::These(one, other) => is_place(*one, b) || is_place(*other, b),
            Affected::Link(d) => *d == b,
            Affected::All => true,
        }
    }

    /// Whether the latest link of its BSC may be another or down now.
    pub(crate) fn is_link(&self) -> bool
        ensures { result ≡ is_link self.now }
    {
        matches!(self, Affected::Link(_))
    }

    /// These, where the event was entered, and else none.
    pub(crate) fn if_entered(self, answer: Result<(), Refusal>) -> Affected
        ensures entered { OnOk answer (result ≡ self) }
        ensures refused { OnErr answer (result ≡ Affected.None) }
    {
        match answer {
            Ok(()) => self,
            Err(_) => Affected::None,
        }
    }
}
