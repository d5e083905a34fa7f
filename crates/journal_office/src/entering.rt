//! The lines of a file, as they are entered into an office that has no entries.

ghost use Rattle.std.specs.Prelude.{◌≡◌, [], ◌∷◌, IfOk, IfErr, IfSome};

use crate::start::Start;
use common::Octets;
use framing::Source;
use histories::History;
use journal_file::{Heading, LoadFault, Loaded, NotTaken, TakeLine, load};
use office::desk::Desk;
use office::held::Held;
use office::office::Office;
use std::alloc::{AllocError, Global};
use std::marker::Model;
use std::sync::ledger::Ledger;
use std::sync::{MutexGuard, Wait};

/// Enters lines into an office, whose lock it holds: nobody else enters anything. Contracts see the lines that were taken, and the
/// office's centre, which is what these lines make of one without entries.
#[derive(Drop)]
pub struct Entering<'a, L: Ledger, R: Wait> {
    start: &'a Start<'a, L, R>,
    held: MutexGuard<'a, Held<L>>,
    desk: &'a mut Desk<L>,
    taken: History<Octets>,
}

impl<'a, L: Ledger, R: Wait> Model for Entering<'a, L, R> {
    ghost use Rattle.std.specs.Sync.Mutex.{mutex_guard_value};
    ghost use Rattle.journal_laws.specs.Starts.{IsStart};
    ghost use Rattle.journal_office.specs.Entered.{EnteringState};

    ghost Value = { EnteringState };

    ghost view = { λ s. record { taken = s.taken.items; centre = (mutex_guard_value s.held).centre } };

    ghost invariant = { λ s. IsStart s.taken.items (mutex_guard_value s.held).centre };
}

/// A copy of a line, alone.
fn alone(alloc: Global, line: &[u8]) -> Result<Vec<Octets>, AllocError>
    ensures { IfOk result (λ lines. lines.items ≡ line.now ∷ []) }
{
    let octets = Octets::from_vec(Vec::from_slice(alloc, line)?);
    let mut lines = Vec::new(alloc);
    lines.push(octets)?;
    Ok(lines)
}

impl<'a, L: Ledger, R: Wait> Entering<'a, L, R> {
    ghost use Rattle.std.specs.Prelude.{◌≡◌, [], IfOk, IfErr, IfSome};
    ghost use Rattle.journal_laws.specs.Starts.{IsStart};
    ghost use Rattle.journal_office.specs.Entered.{BreaksOffStart, Starts};

    /// Takes the lock of the office. `None` where that has entries, folded or not.
    #[tactic(auto, using(crate::proofs::EnteringLemmas::begins_if))]
    pub fn begin(start: &'a Start<'a, L, R>, desk: &'a mut Desk<L>) -> Option<Entering<'a, L, R>>
        ensures { IfSome result (λ e. e.taken ≡ []) }
    {
        let held = start.office.hold(start.rt);
        if held.position() > 0 {
            return None;
        }
        Some(Entering {
            start,
            held,
            desk,
            taken: History::new(),
        })
    }

    /// Tells that the centre is what the lines that were taken make of one without entries.
    pub fn tell_soundness(&self)
        ensures { IsStart self.now.taken self.now.centre }
    {
        let _ = &self.taken;
    }

    /// Enters what the source gives as the journal of the heading. Where a line isn't taken its number is told, and the lines before it
    /// stay entered, and nothing more.
    pub fn enter_file<S: Source>(
        &mut self,
        heading: Heading,
        source: &mut S,
    ) -> Result<Loaded, LoadFault>
        ensures ok { IfOk result (Starts heading (S.remaining source.old) (S.remaining source.new) self.old self.new) }
        ensures err { IfErr result (BreaksOffStart heading (S.remaining source.old) (S.remaining source.new) self.old self.new) }
    {
        let alloc = self.start.alloc;
        let result = load(alloc, heading, source, self);
        self.tell_soundness();
        result
    }
}

impl<L: Ledger, R: Wait> TakeLine for Entering<'_, L, R> {
    ghost use Rattle.std.specs.Prelude.{Some};

    ghost taken = { λ s. Some s.taken };

    fn take_line(&mut self, line: &[u8]) -> Result<(), NotTaken> {
        let Ok(lines) = alone(self.start.alloc, line) else {
            return Err(NotTaken::Memory);
        };
        match self.start.take_line(&mut self.held, self.desk, line) {
            Ok(()) => {
                self.taken = self.taken.then(&lines);
                Ok(())
            }
            Err(fault) => Err(fault),
        }
    }

    fn take_comment(&mut self, _line: &[u8]) {}
}
