//! How fast the links of a port go on.

ghost use Rattle.std.specs.Prelude.{◌≡◌, [], None, Some, if◌then◌else◌};
ghost use Rattle.link_rules.specs.Repeats.{IsKept};
ghost use Rattle.link_rules.specs.Replies.{with_end, with_order};
ghost use Rattle.server_ports.specs.Paces.{is_waiting};

use crate::entered::Entered;
use crate::figures::Figures;
use crate::link_limits::LinkLimits;
use crate::named::Named;
use link_rules::{
    AlivePace, AliveStep, Cost, CostLimit, Overdue, Query, QueryPace, RateLimit, Repeat, Repeats,
    ReplyPace, Version,
};
use link_worker::Load;
use std::alloc::Global;

/// The first octet of a MESSAGE STATUS QUERY (3GPP TS 48.049, 8.2.3).
const STATUS_QUERY: u8 = 0x0a;

/// How fast the links of a port go on: what they send and what is sent to them.
#[derive(Drop)]
pub struct PortPace {
    reports: RateLimit,
    connections: RateLimit,
    /// Connections that are closed at once, each of which is said.
    closed: RateLimit,
    /// What reports came to, each of which is said.
    told: RateLimit,
    /// What reports may cost, and by which figures they are charged.
    costs: CostLimit,
    figures: Figures,
    /// The report that was let in last.
    entered: Entered,
    /// Since when an order or a query is out.
    replies: ReplyPace,
    /// Since when a RESET is out.
    resets: ReplyPace,
    /// The second after 1970-01-01T00:00:00Z in which the last RESET went out.
    reset_second: u64,
    /// For how long nothing was read.
    alive: AlivePace,
    orders: Repeats,
    /// Which queries are due that no operator wished for.
    queries: QueryPace,
    /// When the last link ended, unless one has come up since.
    ended: Option<u64>,
}

impl PortPace {
    /// That of a port to which nobody connected yet. What is out, a RESET too, is said after `reply_seconds`, and after `cut_seconds`
    /// the link is cut; 0 is never.
    /// A BSC that says nothing is sent a KEEP ALIVE after `alive_seconds`, 0 for never. Queries that no operator wished for are due after
    /// `query_ms` milliseconds.
    pub fn new(
        alloc: Global,
        limits: LinkLimits,
        reply_seconds: u32,
        cut_seconds: u32,
        alive_seconds: u32,
        query_ms: u64,
    ) -> PortPace {
        PortPace {
            reports: limits.reports,
            connections: limits.connections,
            closed: RateLimit::for_connections(),
            told: RateLimit::for_connections(),
            costs: limits.costs,
            figures: Figures::none(),
            entered: Entered::none(),
            replies: ReplyPace::new(reply_seconds, cut_seconds),
            resets: ReplyPace::new(reply_seconds, cut_seconds),
            reset_second: 0,
            alive: AlivePace::new(alive_seconds, reply_seconds),
            orders: Repeats::new(alloc),
            queries: QueryPace::new(alloc, query_ms),
            ended: None,
        }
    }

    /// An order or a query is to go out, whose frame this is. A query is never told or held: it comes of a wish. It is asked where no
    /// order is pending, so the order before it has settled; that the same one goes out behind it may come of its answer.
    pub(crate) fn send(&mut self, frame: &[u8], now: u64) -> Repeat
        ensures { self.new.replies ≡ (if is_waiting result then self.old.replies else with_order now self.old.replies) }
    {
        let repeat = if frame.first() == Some(&STATUS_QUERY) {
            self.orders.changed();
            Repeat::Go
        } else {
            self.orders.sent(frame, now)
        };
        if !matches!(repeat, Repeat::Wait { until_ms: _ }) {
            self.replies.sent(now);
        }
        repeat
    }

    /// An order or a query went out that names these. Where there is no memory for that, a query is due as before.
    pub(crate) fn note_sent(&mut self, named: Named, now: u64) {
        let _ = match named {
            Named::Order(version) => self.queries.order(version, now),
            Named::Query(version, last) => {
                if self.queries.is_own(version) {
                    self.replies.mark_own();
                }
                self.queries.ask(version, last, now)
            }
        };
    }

    /// What was out is answered.
    pub(crate) fn answered(&mut self, now: u64) {
        self.replies.answered();
        let _ = self.queries.answered(now);
    }

    /// The query that is due where these versions are on air and the link is idle, if one is. It counts as wished for from now on, and
    /// what was wished for before and hasn't gone out as asked in vain. Where memory runs out, none is due.
    pub(crate) fn next_query(&mut self, versions: &[Version], now: u64) -> Option<Query> {
        self.queries.pass_over(now).ok()?;
        self.queries.keep_only(versions);
        for version in versions {
            self.queries.see(*version, now).ok()?;
        }
        let query = self.queries.due(now)?;
        let _ = self.queries.wish(query, now);
        Some(query)
    }

    /// The query isn't wished for, since the link has something else to do.
    pub(crate) fn unwish(&mut self, query: Query, now: u64) {
        let _ = self.queries.unwish(query, now);
    }

    /// A report came by which tables may change.
    pub(crate) fn changed(&mut self) {
        self.orders.changed();
    }

    /// A link came up, or ended: nothing is out.
    pub(crate) fn begin(&mut self, now: u64)
        ensures replies { self.new.replies ≡ with_end self.old.replies }
        ensures resets { self.new.resets ≡ with_end self.old.resets }
        ensures orders { IsKept [] self.new.orders }
        ensures ended { self.new.ended ≡ None }
    {
        self.replies.ended();
        self.resets.ended();
        self.orders.changed();
        self.queries.begin();
        self.alive.begin(now);
        self.ended = None;
    }

    /// The link has ended.
    pub(crate) fn end(&mut self, now: u64)
        ensures { self.new ≡ record self.old { ended = Some now } }
    {
        self.ended = Some(now);
    }

    /// When the last link ended; `None` where one has come up since, or none ever has.
    pub(crate) fn ended(&self) -> Option<u64>
        ensures { result ≡ self.now.ended }
    {
        self.ended
    }

    /// Something was read; `is_answer` where an answer to a KEEP ALIVE is among it.
    pub(crate) fn heard(&mut self, now: u64, is_answer: bool) {
        self.alive.heard(now);
        if is_answer {
            self.alive.answered();
        }
    }

    /// A KEEP ALIVE went out.
    pub(crate) fn asked_alive(&mut self, now: u64) {
        self.alive.asked(now);
    }

    /// What is to be done about a BSC from which nothing is read.
    pub(crate) fn look_alive(&mut self, now: u64) -> AliveStep {
        let is_out = self.replies.since().is_some() || self.resets.since().is_some();
        self.alive.look(now, is_out)
    }

    /// Since when an order or a query is out.
    pub(crate) fn out_since(&self) -> Option<u64> {
        self.replies.since()
    }

    /// A RESET goes out, in that second after 1970-01-01T00:00:00Z.
    pub(crate) fn reset(&mut self, now: u64, second: u64) {
        self.resets.sent(now);
        self.reset_second = second;
    }

    /// The second in which a RESET went out that is out still.
    pub(crate) fn reset_since(&self) -> Option<u64> {
        match self.resets.since() {
            Some(_) => Some(self.reset_second),
            None => None,
        }
    }

    /// The RESET is answered.
    pub(crate) fn reset_done(&mut self) {
        self.resets.ended();
    }

    /// Whether the reply to what is out is overdue.
    pub(crate) fn look(&mut self, now: u64) -> Overdue {
        self.replies.look(now)
    }

    /// The same, of a RESET.
    pub(crate) fn look_reset(&mut self, now: u64) -> Overdue {
        self.resets.look(now)
    }

    /// By which figures reports are charged from now on.
    pub(crate) fn set_figures(&mut self, figures: Figures) {
        self.figures = figures;
    }

    /// A report of that load is to come in. The answer is what it costs, which isn't charged yet.
    pub(crate) fn begin_report(&mut self, load: Load) -> Cost {
        let cost = self.figures.cost_of(load);
        self.entered.kept = cost.kept;
        self.entered.pause_ms = cost.pause_ms();
        cost
    }

    /// Whether a report of that cost may come in now, which is charged then.
    pub(crate) fn take_cost(&mut self, cost: Cost, now: u64) -> bool {
        self.costs.take(cost, now)
    }

    /// The report has the turn of the heavy ones.
    pub(crate) fn take_turn(&mut self) {
        self.entered.had_turn = true;
    }

    /// The report was submitted, or it is none any more.
    pub(crate) fn end_report(&mut self) -> Entered {
        let entered = self.entered;
        self.entered = Entered::none();
        entered
    }

    /// What reports may cost.
    pub(crate) fn costs(&mut self) -> &mut CostLimit {
        &mut self.costs
    }

    /// How fast reports are let in.
    pub(crate) fn reports(&mut self) -> &mut RateLimit {
        &mut self.reports
    }

    /// How fast connections are let in.
    pub(crate) fn connections(&mut self) -> &mut RateLimit {
        &mut self.connections
    }

    /// How fast it is said what reports came to.
    pub(crate) fn told(&mut self) -> &mut RateLimit {
        &mut self.told
    }

    /// How fast it is said of connections that they are closed.
    pub(crate) fn closed(&mut self) -> &mut RateLimit {
        &mut self.closed
    }
}
