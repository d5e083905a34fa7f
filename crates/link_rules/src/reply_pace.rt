//! When a reply is overdue.

ghost use Rattle.std.specs.Prelude.{◌≡◌};
ghost use Rattle.link_rules.specs.Replies.{is_cut_after, is_late, looked, never_sent, out_since, overdue_at, times_due, with_end, with_order, with_own, with_reply};

use crate::alive_pace::patience_of;
use crate::overdue::Overdue;

/// Milliseconds in a second.
const SECOND: u64 = 1_000;

/// After how many milliseconds it is said again that there is no reply: ten minutes.
const AGAIN: u64 = 600_000;

/// For how long an order or a query has been out without a reply. One goes out once the one before is answered, but a thread may tell
/// of a reply only after another told of the order behind it. So both are counted: the last order is out while fewer were answered.
#[derive(Clone, Copy, Debug)]
pub struct ReplyPace {
    /// After how many seconds it is said, and after how many the link is cut; 0 for never.
    reply_seconds: u32,
    cut_seconds: u32,
    /// How many went out over this link, and how many were answered.
    orders: u64,
    replies: u64,
    /// When the last went out, in milliseconds of the clock.
    sent: u64,
    /// How often it was due to be said when that was last looked at.
    told: u64,
    /// The last that went out is a query that no operator wished for.
    is_own: bool,
}

impl ReplyPace {
    /// Nothing is out. After `reply_seconds` it is said that there is no reply, and every ten minutes after that; after
    /// `cut_seconds` the link is cut. 0 is never.
    pub fn new(reply_seconds: u32, cut_seconds: u32) -> ReplyPace
        ensures { result ≡ never_sent reply_seconds cut_seconds }
    {
        ReplyPace {
            reply_seconds,
            cut_seconds,
            orders: 0,
            replies: 0,
            sent: 0,
            told: 0,
            is_own: false,
        }
    }

    /// An order or a query goes out. `now_ms` is in milliseconds of the clock.
    pub fn sent(&mut self, now_ms: u64)
        ensures { self.new ≡ with_order now_ms self.old }
    {
        self.orders = self.orders.saturating_add(1);
        self.sent = now_ms;
        self.told = 0;
        self.is_own = false;
    }

    /// The last that went out is a query that no operator wished for. Where it isn't answered after `reply_seconds`, the link is cut; 0
    /// stands for 30 there.
    pub fn mark_own(&mut self)
        ensures { self.new ≡ with_own self.old }
    {
        self.is_own = true;
    }

    /// The next of those that went out, or are to go out, is answered.
    pub fn answered(&mut self)
        ensures { self.new ≡ with_reply self.old }
    {
        self.replies = self.replies.saturating_add(1);
    }

    /// The link has ended, or another begins: nothing is out.
    pub fn ended(&mut self)
        ensures { self.new ≡ with_end self.old }
    {
        self.orders = 0;
        self.replies = 0;
    }

    /// Since when something is out, in milliseconds of the clock.
    pub fn since(&self) -> Option<u64>
        ensures { result ≡ out_since self.now }
    {
        if self.replies < self.orders {
            Some(self.sent)
        } else {
            None
        }
    }

    /// How often it has been due to be said after so many milliseconds.
    fn times_due(&self, passed: u64) -> u64
        ensures { result ≡ times_due self.now.reply_seconds passed }
    {
        let first = u64::from(self.reply_seconds) * SECOND;
        if self.reply_seconds == 0 || passed < first {
            0
        } else {
            1 + (passed - first) / AGAIN
        }
    }

    /// Whether an own query is out, and unanswered for too long after so many milliseconds.
    fn is_late(&self, passed: u64) -> bool
        ensures { result ≡ is_late self.now passed }
    {
        self.is_own && u64::from(patience_of(self.reply_seconds)) * SECOND <= passed
    }

    /// Whether the link is to be cut after so many milliseconds.
    fn is_cut(&self, passed: u64) -> bool
        ensures { result ≡ is_cut_after self.now passed }
    {
        let is_over = self.cut_seconds != 0 && u64::from(self.cut_seconds) * SECOND <= passed;
        is_over || self.is_late(passed)
    }

    /// Whether the reply is overdue. `Cut` goes before `Tell`; `Tell` comes once each time that it is due.
    pub fn look(&mut self, now_ms: u64) -> Overdue
        ensures answer { result ≡ overdue_at now_ms self.old }
        ensures told { self.new ≡ looked now_ms self.old }
    {
        let Some(sent) = self.since() else {
            return Overdue::No;
        };
        let passed = now_ms.saturating_sub(sent);
        let seconds = passed / SECOND;
        if self.is_cut(passed) {
            return Overdue::Cut { seconds };
        }
        let due = self.times_due(passed);
        if due <= self.told {
            return Overdue::No;
        }
        self.told = due;
        Overdue::Tell { seconds }
    }
}
