//! When a BSC that says nothing is asked whether it is alive, and when its link is cut.

ghost use Rattle.std.specs.Prelude.{◌≡◌, true};
ghost use Rattle.link_rules.specs.Alives.{begun, is_due, is_late, late_step, looked, patience_of, step_at, unasked, with_answer, with_ask, with_word};

use crate::alive_step::AliveStep;

/// Milliseconds in a second.
const SECOND: u64 = 1_000;

/// After how many seconds a KEEP ALIVE or an own query counts as unanswered, where nothing is said of replies.
const PATIENCE: u32 = 30;

/// The same, where it is said after `reply_seconds` that an order has no reply; 0 is never.
pub(crate) fn patience_of(reply_seconds: u32) -> u32
    ensures { result ≡ patience_of reply_seconds }
{
    if reply_seconds == 0 {
        PATIENCE
    } else {
        reply_seconds
    }
}

/// For how long nothing was read from a BSC, and whether it was asked since (KEEP ALIVE; 3GPP TS 48.049, 8.1.3).
#[derive(Clone, Copy, Debug)]
pub struct AlivePace {
    /// After how many seconds without a word it is asked; 0 for never.
    period_seconds: u32,
    /// After how many seconds more without a word it counts as dead.
    reply_seconds: u32,
    /// When something was last read from it, or its link came up, in milliseconds of the clock.
    heard: u64,
    /// When it was asked, where nothing was read since.
    asked: Option<u64>,
    /// It answered a KEEP ALIVE on this link.
    knows: bool,
    /// It was said of this link that a KEEP ALIVE wasn't answered.
    told: bool,
}

impl AlivePace {
    /// Nobody was asked yet. After `period_seconds` without a word a KEEP ALIVE is due, 0 for never. After `reply_seconds` more the
    /// link is cut; 0 stands for 30.
    pub fn new(period_seconds: u32, reply_seconds: u32) -> AlivePace
        ensures { result ≡ unasked period_seconds reply_seconds }
    {
        AlivePace {
            period_seconds,
            reply_seconds: patience_of(reply_seconds),
            heard: 0,
            asked: None,
            knows: false,
            told: false,
        }
    }

    /// A link came up. `now_ms` is in milliseconds of the clock, here and below.
    pub fn begin(&mut self, now_ms: u64)
        ensures { self.new ≡ begun now_ms self.old }
    {
        self.heard = now_ms;
        self.asked = None;
        self.knows = false;
        self.told = false;
    }

    /// Something was read.
    pub fn heard(&mut self, now_ms: u64)
        ensures { self.new ≡ with_word now_ms self.old }
    {
        self.heard = now_ms;
        self.asked = None;
    }

    /// The answer to a KEEP ALIVE was read.
    pub fn answered(&mut self)
        ensures { self.new ≡ with_answer self.old }
    {
        self.knows = true;
    }

    /// A KEEP ALIVE goes out.
    pub fn asked(&mut self, now_ms: u64)
        ensures { self.new ≡ with_ask now_ms self.old }
    {
        self.asked = Some(now_ms);
    }

    /// Whether a KEEP ALIVE is due. None is while an order, a query or a RESET is out, to which the BSC has to say something anyway.
    fn is_due(&self, now_ms: u64, is_out: bool) -> bool
        ensures { result ≡ is_due now_ms is_out self.now }
    {
        self.period_seconds != 0
            && (!is_out
                && u64::from(self.period_seconds) * SECOND <= now_ms.saturating_sub(self.heard))
    }

    /// Whether nothing was read for too long after a KEEP ALIVE that went out then.
    fn is_late(&self, now_ms: u64, asked: u64) -> bool
        ensures { result ≡ is_late now_ms asked self.now }
    {
        u64::from(self.reply_seconds) * SECOND <= now_ms.saturating_sub(asked)
    }

    /// What is to be done where that is so.
    fn late_step(&mut self, now_ms: u64, asked: u64) -> AliveStep
        ensures step { result ≡ late_step now_ms asked self.old }
        ensures told { self.new ≡ record self.old { told = true } }
    {
        let was_told = self.told;
        self.told = true;
        let seconds = now_ms.saturating_sub(asked) / SECOND;
        match (self.knows, was_told) {
            (true, _) => AliveStep::Cut { seconds },
            (false, false) => AliveStep::Tell { seconds },
            (false, true) => AliveStep::Wait,
        }
    }

    /// What is to be done now. `is_out` is whether an order, a query or a RESET is out. After a KEEP ALIVE without a word a link is
    /// cut only where the BSC answered one before on it, so that a BSC which knows none stays: of that it is said once a link.
    pub fn look(&mut self, now_ms: u64, is_out: bool) -> AliveStep
        ensures step { result ≡ step_at now_ms is_out self.old }
        ensures after { self.new ≡ looked now_ms self.old }
    {
        match self.asked {
            Some(asked) if self.is_late(now_ms, asked) => self.late_step(now_ms, asked),
            Some(_) => AliveStep::Wait,
            None if self.is_due(now_ms, is_out) => AliveStep::Ask,
            None => AliveStep::Wait,
        }
    }
}
