//! What is kept of one version, in four octets.

ghost use Rattle.std.specs.Prelude.{◌≡◌, ◌↔◌, ◌<◌, IsTrue};
ghost use Rattle.std.specs.Option.{is_some};
ghost use Rattle.mirror.specs.Blank.{state_eq};
ghost use Rattle.mirror.specs.Line.{blank};
ghost use Rattle.mirror.specs.Packed.{hold_number, presence_number, presence_in, hold_in};

use crate::key_state::KeyState;
use crate::presence::Presence;
use cbsp_ie::Cause;
use std::marker::Model;

/// One more in the number of a cause.
const CAUSE: u32 = 1 << 16;

/// One more in the number of a presence.
const PRESENCE: u32 = 1 << 24;

/// That there is a hold.
const HOLD: u32 = 1 << 26;

/// What is kept of one version, in one number, so that two are compared at once. Highest stands whether there is a hold,
/// then the presence, the cause of the hold, and the count. Where nothing is kept the number is 0.
#[derive(Clone, Copy, Debug)]
pub struct PackedState {
    number: u32,
}

impl Model for PackedState {
    ghost use Rattle.mirror.specs.Packed.{IsOwn, number_of, state_in};
    ghost use Rattle.mirror.specs.declared.key_state.KeyState.{KeyState};

    ghost Value = { KeyState };

    ghost view = { λ s. state_in s.number };

    ghost invariant = { λ s. IsOwn s.number };

    ghost inverse = { λ k. record { number = number_of k } };

    ghost inverse_ok = { λ s h i. record { number = h i } };
}

fn number_of_presence(presence: Presence) -> u32
    ensures { result ≡ presence_number presence }
{
    match presence {
        Presence::Absent => 0,
        Presence::OnAir => 1,
        Presence::Unknown => 2,
    }
}

fn number_of_hold(hold: Option<Cause>) -> u32
    ensures { result ≡ hold_number hold }
{
    match hold {
        None => 0,
        Some(cause) => HOLD + u32::from(cause.0) * CAUSE,
    }
}

fn presence_in(number: u32) -> Presence
    ensures { result ≡ presence_in number }
{
    match number {
        0 => Presence::Absent,
        1 => Presence::OnAir,
        _ => Presence::Unknown,
    }
}

fn hold_in(number: u32) -> Option<Cause>
    ensures { result ≡ hold_in number }
{
    if number < HOLD {
        return None;
    }
    Some(Cause((number % PRESENCE / CAUSE) as u8))
}

impl PackedState {
    /// Nothing is kept.
    pub(crate) fn blank() -> PackedState
        ensures { result ≡ blank }
    {
        PackedState { number: 0 }
    }

    pub(crate) fn of(state: KeyState) -> PackedState
        ensures { result ≡ state }
    {
        let presence = number_of_presence(state.presence) * PRESENCE;
        PackedState {
            number: number_of_hold(state.hold) + (presence + u32::from(state.count)),
        }
    }

    pub(crate) fn state(self) -> KeyState
        ensures state { result ≡ self }
        ensures small { result.count < 65536 }
    {
        KeyState {
            presence: presence_in(self.number % HOLD / PRESENCE),
            hold: hold_in(self.number),
            count: (self.number % CAUSE) as u16,
        }
    }

    /// Whether the same is kept in both.
    pub(crate) fn same(&self, other: &PackedState) -> bool
        ensures { result ≡ state_eq self.now other.now }
    {
        self.number == other.number
    }

    /// Whether both are as much on air, and there is a hold in both or in neither.
    pub(crate) fn is_alike(&self, other: &PackedState) -> bool
        ensures { IsTrue result ↔ ((self.now.presence ≡ other.now.presence) × (is_some self.now.hold ≡ is_some other.now.hold)) }
    {
        self.number / PRESENCE == other.number / PRESENCE
    }

    /// Whether nothing is kept.
    pub(crate) fn is_blank(&self) -> bool
        ensures { result ≡ state_eq self.now blank }
    {
        self.number == 0
    }

    /// Whether there is a hold.
    pub(crate) fn is_held(&self) -> bool
        ensures { result ≡ is_some self.now.hold }
    {
        self.number >= HOLD
    }
}
