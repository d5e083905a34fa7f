//! The answer to a RESET is waited for.

use crate::incoming::Incoming;
use centre_events::refusal::Refusal;
use framing::{Frame, FrameFault};
use link_resets::{ResetAnswer, ResetWatch, judge};
use link_worker::End;
use office::desk::Desk;
use office::question::Question;
use office::seen::SeenValue;
use server_ports::{Shut, SideEnd};
use std::alloc::AllocError;
use std::io::Write;
use std::sync::Wait;
use std::sync::ledger::Ledger;
use std::time::Clock;

/// How many octets are read at once.
const PIECE: usize = 4096;

/// The most octets that are held while the answer is waited for: as many as the longest body has.
const MOST_HELD: usize = 262_144;

const FAILED: &str =
    "the BSC can't reset some of its cells (RESET FAILURE): old messages may still be on air there";

const OTHER_CELLS: &str =
    "the answer to the RESET leaves out a cell of the BSC: old messages may still be on air there";

const TOO_MUCH: &str = "more than 262,144 octets came before the answer to the RESET";

impl<'a, L: Ledger, E: Write + Drop, C: Wait + Clock> Incoming<'a, L, E, C> {
    /// Says why the BSC isn't reset, and cuts its link. The answer is how its read side ends.
    fn cut(&self, why: &'static str) -> SideEnd {
        self.shared.tell(self.rt, self.port, &self.peer, why);
        self.port.shut(self.rt, Shut::NotReset);
        SideEnd::of(End::GateShut)
    }

    /// Holds what was read, and gives the answer that ends in it, if there is one.
    fn take_piece(
        &mut self,
        watch: &mut ResetWatch,
        piece: &[u8],
    ) -> Result<Option<Frame>, SideEnd> {
        if self.hold(piece).is_err() {
            return Err(SideEnd::of(End::Refused(Refusal::Memory)));
        }
        match watch.see(piece) {
            Ok(None) if self.held() > MOST_HELD => Err(self.cut(TOO_MUCH)),
            Ok(answer) => Ok(answer),
            Err(FrameFault::TooLong { length: _ }) => Err(SideEnd::of(End::TooLong)),
            Err(FrameFault::Memory) => Err(SideEnd::of(End::Refused(Refusal::Memory))),
        }
    }

    /// Reads once, and gives the answer that ends in what was read, if there is one.
    fn read_piece(&mut self, watch: &mut ResetWatch) -> Result<Option<Frame>, SideEnd> {
        let mut piece = [0; PIECE];
        match self.fetch(&mut piece) {
            Ok(0) => Err(SideEnd::of(End::PeerEnded)),
            Ok(count) => self.take_piece(watch, &piece[..count]),
            Err(_) => Err(SideEnd {
                end: End::ReadFault,
                broken: self.broken(),
            }),
        }
    }

    /// Waits for the answer to a RESET. All that is read meanwhile is held, the answer too.
    fn wait_answer(&mut self) -> Result<Frame, SideEnd> {
        let rt = self.rt;
        let mut watch = ResetWatch::new(self.shared.alloc);
        for _ in rt.forever() {
            if let Some(frame) = self.read_piece(&mut watch)? {
                return Ok(frame);
            }
        }
        Err(SideEnd::of(End::ReadFault))
    }

    /// What the frame answers, by the cells that are registered at the BSC.
    fn judge(&self, desk: &Desk<L>, frame: &Frame) -> Result<ResetAnswer, Refusal> {
        let shared = self.shared;
        let seen = shared
            .office
            .look(self.rt, desk, Question::Cells(self.port.bsc))?;
        let answer = match &seen.value {
            SeenValue::Cells(cells) => {
                judge(shared.alloc, shared.options.plmn, frame, cells.as_slice())
            }
            _ => Err(AllocError),
        };
        drop(seen);
        match answer {
            Ok(answer) => Ok(answer),
            Err(_) => Err(Refusal::Memory),
        }
    }

    /// Waits until the BSC has answered a RESET that went out. It returns once all cells of the BSC are reset. `Err` is how the link
    /// ends: a BSC that didn't reset them is cut.
    pub(crate) fn wait_reset(&mut self, desk: &Desk<L>) -> Result<(), SideEnd> {
        let frame = self.wait_answer()?;
        let answer = self.judge(desk, &frame);
        drop(frame);
        match answer {
            Ok(ResetAnswer::Complete) => Ok(()),
            Ok(ResetAnswer::Partial) => Err(self.cut(OTHER_CELLS)),
            Ok(ResetAnswer::Failure) => Err(self.cut(FAILED)),
            Err(refusal) => Err(SideEnd::of(End::Refused(refusal))),
        }
    }
}
