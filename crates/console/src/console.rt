//! A session that takes octets and answers their lines.

ghost use Rattle.std.specs.Prelude.{◌≡◌};

use crate::session::Session;
use centre_events::network::Network;
use console_text::ReplayFault;
use console_text::answer_text::response_text;
use console_text::lines::{LONGEST_LINE, without_return};
use console_text::runs::cut_at;
use framing::{Sink, write_all};
use std::alloc::Global;
use std::marker::Model;

/// A session, and the octets of the line that has begun.
pub struct Console {
    alloc: Global,
    session: Session,
    begun: Vec<u8>,
}

/// Written out, so that no crate above proves anew how its parts are dropped.
impl Drop for Console {
    fn drop(self) {
        let Console {
            alloc: _alloc,
            session: _session,
            begun: _begun,
        } = self;
    }
}

impl Model for Console {
    ghost use Rattle.console.specs.Consoles.{ConsoleState};

    ghost Value = { ConsoleState };

    ghost view = { λ s. record { session = s.session; begun = s.begun.items } };
}

impl Console {
    ghost use Rattle.std.specs.Prelude.{◌≡◌, ℕ, ◌≤◌, List, ◌∷◌, ◌++◌, [], false, Option, OnOk, IfErr};
    ghost use Rattle.framing.specs.Source.{with_failure};
    ghost use Rattle.console.specs.Consoles.{EndsLine, BreaksLine, Goes, Stops, is_read_fault, is_write_fault};
    ghost use Rattle.console_text.specs.Parts.{HasNone};
    ghost use Rattle.console.specs.Replays.{new_session};

    pub fn new(alloc: Global, network: Network, journal_limit: u32) -> Console
        requires { journal_limit ≤ 4000000 }
        ensures { result ≡ record { session = new_session network journal_limit; begun = [] } }
    {
        Console {
            alloc,
            session: Session::new(alloc, network, journal_limit),
            begun: Vec::new(alloc),
        }
    }

    /// Answers the line that has begun.
    pub fn end_line<W: Sink>(&mut self, writer: &mut W) -> Result<(), ReplayFault>
        ensures ok { OnOk result (EndsLine self.old self.new (W.written writer.old) (W.written writer.new)) }
        ensures err { IfErr result (BreaksLine self.old (W.written writer.old) (W.written writer.new)) }
        ensures failed { W.failures writer.new ≡ with_failure (W.failures writer.old) (is_write_fault result) }
        ensures reads { is_read_fault result ≡ false }
    {
        let line = without_return(&self.begun);
        if LONGEST_LINE < line.len() {
            return Err(ReplayFault::LongLine);
        }
        let response = self.session.answer(line)?;
        let text = response_text(self.alloc, response)?;
        match write_all(writer, text.as_bytes()) {
            Ok(()) => {
                self.begun.clear();
                Ok(())
            }
            Err(_) => Err(ReplayFault::WriteFault),
        }
    }

    /// Takes octets that are no line feed.
    #[tactic(auto, using(crate::proofs::TextLemmas::goes_run, crate::proofs::StopLemmas::stops_at_long, crate::proofs::StopLemmas::stops_starved))]
    fn take_run(&mut self, run: &[u8]) -> Result<(), ReplayFault>
        requires { HasNone 10 run.now }
        ensures ok { OnOk result ((octets : Option (List ℕ)) → Goes self.old run.now self.new octets octets) }
        ensures err { IfErr result (λ fault. (octets : Option (List ℕ)) → Stops self.old run.now octets octets fault) }
        ensures reads { is_read_fault result ≡ false }
        ensures writes { is_write_fault result ≡ false }
    {
        if LONGEST_LINE + 1 < self.begun.len() + run.len() {
            return Err(ReplayFault::LongLine);
        }
        self.begun.extend_from_slice(run)?;
        Ok(())
    }

    /// Takes the last octets of a line, and its end.
    fn take_end<W: Sink>(&mut self, run: &[u8], writer: &mut W) -> Result<(), ReplayFault>
        requires { HasNone 10 run.now }
        ensures ok { OnOk result (Goes self.old (run.now ++ 10 ∷ []) self.new (W.written writer.old) (W.written writer.new)) }
        ensures err { IfErr result (Stops self.old (run.now ++ 10 ∷ []) (W.written writer.old) (W.written writer.new)) }
        ensures failed { W.failures writer.new ≡ with_failure (W.failures writer.old) (is_write_fault result) }
        ensures reads { is_read_fault result ≡ false }
    {
        self.take_run(run)?;
        self.end_line(writer)
    }

    /// Takes the next octets of the input.
    pub fn take_piece<W: Sink>(&mut self, piece: &[u8], writer: &mut W) -> Result<(), ReplayFault>
        ensures ok { OnOk result (Goes self.old piece.now self.new (W.written writer.old) (W.written writer.new)) }
        ensures err { IfErr result (Stops self.old piece.now (W.written writer.old) (W.written writer.new)) }
        ensures failed { W.failures writer.new ≡ with_failure (W.failures writer.old) (is_write_fault result) }
        ensures reads { is_read_fault result ≡ false }
    {
        let mut rest = piece;
        while let Some((run, behind)) = cut_at(rest, b'\n') {
            self.take_end(run, writer)?;
            rest = behind;
        }
        self.take_run(rest)
    }
}
