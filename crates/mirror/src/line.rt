//! What is kept of one BSC, cell and warning.

ghost use Rattle.std.specs.Prelude.{◌≡◌, ◌↔◌, ◌<◌, ℕ, false, IfSome, IsNone, IsTrue, replicate};
ghost use Rattle.std.specs.Cmp.Lexicographic.{pointwise};
ghost use Rattle.std.specs.List.{list_all, list_any};
ghost use Rattle.std.specs.Option.{is_some};
ghost use Rattle.mirror.specs.Blank.{is_blank, state_eq};
ghost use Rattle.mirror.specs.Held.{is_held_line};
ghost use Rattle.mirror.specs.Line.{blank, blank_line, state_of, with_state};

use crate::key_state::KeyState;
use crate::packed_state::PackedState;
use serials::Serial;

/// What is kept of the versions of one warning in one cell of a BSC, by their update numbers (TS 23.041, 9.4.1.2.1). It is
/// read by `state` and changed by `set_state`.
#[derive(Clone, Copy, Debug)]
pub struct Line {
    pub states: [PackedState; 16],
}

/// Whether nothing is kept in any. No loop here ends early, so that the processor compares several states at once.
fn are_blank(states: &[PackedState; 16]) -> bool
    ensures { result ≡ list_all (λ s. state_eq s blank) states.now }
{
    let mut is_blank = true;
    for state in states {
        is_blank = state.is_blank() && is_blank;
    }
    is_blank
}

/// Whether one has a hold.
fn are_held(states: &[PackedState; 16]) -> bool
    ensures { result ≡ list_any (λ s. is_some s.hold) states.now }
{
    let mut is_held = false;
    for state in states {
        is_held = state.is_held() || is_held;
    }
    is_held
}

/// Whether the same is kept in each.
fn are_same(states: &[PackedState; 16], others: &[PackedState; 16]) -> bool
    ensures { result ≡ pointwise state_eq states.now others.now }
{
    let mut is_same = true;
    for index in 0..16 {
        is_same = states[index].same(&others[index]) && is_same;
    }
    is_same
}

impl Line {
    /// Every key as it begins.
    pub fn blank() -> Line
        ensures { result ≡ blank_line }
    {
        Line {
            states: [PackedState::blank(); 16],
        }
    }

    /// The same is kept of each version.
    pub fn of_each(state: KeyState) -> Line
        ensures { result ≡ record { states = replicate 16 state } }
    {
        Line {
            states: [PackedState::of(state); 16],
        }
    }

    /// Whether every key is as it begins.
    pub fn is_blank(&self) -> bool
        ensures test { result ≡ is_blank self.now }
        ensures blank { IsTrue result ↔ (self.now ≡ blank_line) }
    {
        are_blank(&self.states)
    }

    /// Whether something holds a version.
    pub(crate) fn is_held(&self) -> bool
        ensures { result ≡ is_held_line self.now }
    {
        are_held(&self.states)
    }

    /// Whether the same is kept in both.
    pub fn same(&self, other: &Line) -> bool
        ensures { IsTrue result ↔ (self.now ≡ other.now) }
    {
        *self == *other
    }

    /// What is kept of the version of that serial number.
    pub fn state(&self, serial: Serial) -> KeyState
        ensures { result ≡ state_of self.now serial }
    {
        self.states[serial.update() as usize].state()
    }

    /// What is kept of the version of that serial number, if anything is.
    pub fn kept(&self, serial: Serial) -> Option<KeyState>
        ensures some { IfSome result (λ state. state ≡ state_of self.now serial) }
        ensures kept { IfSome result (λ state. state_eq state blank ≡ false) }
        ensures none { IsNone result → state_of self.now serial ≡ blank }
    {
        let state = self.states[serial.update() as usize];
        if state.is_blank() {
            return None;
        }
        Some(state.state())
    }

    /// Whether the version of that serial number is as much on air in both lines, and held in both or in neither.
    pub fn is_alike(&self, other: &Line, serial: Serial) -> bool
        ensures { IsTrue result ↔ (((state_of self.now serial).presence ≡ (state_of other.now serial).presence) × (is_some (state_of self.now serial).hold ≡ is_some (state_of other.now serial).hold)) }
    {
        let index = serial.update() as usize;
        self.states[index].is_alike(&other.states[index])
    }

    /// The line with that state for the version of that serial number, the others as they are.
    pub fn with_state(mut self, serial: Serial, state: KeyState) -> Line
        ensures { result ≡ with_state self serial state }
    {
        self.set_state(serial, state);
        self
    }

    /// Sets what is kept of the version of that serial number.
    pub fn set_state(&mut self, serial: Serial, state: KeyState)
        ensures { self.new ≡ with_state self.old serial state }
    {
        self.states[serial.update() as usize] = PackedState::of(state);
    }

    /// A lemma, not a test: it returns nothing, and its clause says that each count of broadcasts fits 16 bits (TS 48.049,
    /// 8.2.10).
    pub fn tell_counts(&self)
        ensures { (s : ℕ) → (state_of self.now s).count < 65536 }
    {
        for state in &self.states {
            let _ = state.state();
        }
    }
}

impl PartialEq for Line {
    ghost use Rattle.std.specs.Cmp.{decided, partial_equiv_from_equiv};
    ghost use Rattle.mirror.specs.Blank.{line_eq};
    ghost use Rattle.mirror.specs.BlankLaws.{line_decides};

    ghost eq = { line_eq };

    ghost laws = { partial_equiv_from_equiv (decided line_eq line_decides) };

    fn eq(&self, other: &Line) -> bool {
        are_same(&self.states, &other.states)
    }
}

impl Eq for Line {
    ghost use Rattle.std.specs.Cmp.{decided};
    ghost use Rattle.mirror.specs.Blank.{line_eq};
    ghost use Rattle.mirror.specs.BlankLaws.{line_decides};

    ghost laws = { decided line_eq line_decides };
}
