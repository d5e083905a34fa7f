//! How long an exchange over a connection has been going on, and when the connection is to be closed.

ghost use Rattle.std.specs.Prelude.{◌≡◌};
ghost use Rattle.server_http.specs.Visits.{begun, ended, gets_time_out, is_closed, is_late, left, with_octets, with_written};

/// How long one exchange may take, in milliseconds: from the end of the last one to that of its answer.
const MOST_EXCHANGE: u64 = 20_000;

/// How long one may take to leave, in milliseconds.
const MOST_LEAVING: u64 = 2_000;

/// How far a connection is. Times are in milliseconds of a clock that goes on.
#[derive(Clone, Copy)]
pub(crate) struct Visit {
    /// When its last answer had gone out whole, or it began, or nothing more was answered.
    pub(crate) since: u64,
    /// When something came or went last.
    pub(crate) heard: u64,
    /// Nothing more is answered: what still comes is let go.
    pub(crate) is_leaving: bool,
    /// It is to be closed.
    pub(crate) is_over: bool,
}

impl Visit {
    /// The connection was just made.
    pub(crate) fn new(now: u64) -> Visit
        ensures { result ≡ begun now }
    {
        Visit {
            since: now,
            heard: now,
            is_leaving: false,
            is_over: false,
        }
    }

    /// Octets of a request came.
    pub(crate) fn read(&mut self, now: u64)
        ensures { self.new ≡ with_octets now self.old }
    {
        self.heard = now;
    }

    /// Octets of an answer went out. Where no more wait behind them, the next exchange begins.
    pub(crate) fn written(&mut self, now: u64, is_whole: bool)
        ensures { self.new ≡ with_written now is_whole self.old }
    {
        self.heard = now;
        if is_whole {
            self.since = now;
        }
    }

    /// Nothing more is answered from now on.
    pub(crate) fn leaves(&mut self, now: u64)
        ensures { self.new ≡ left now self.old }
    {
        self.is_leaving = true;
        self.since = now;
    }

    /// It is to be closed.
    pub(crate) fn ends(&mut self)
        ensures { self.new ≡ ended self.old }
    {
        self.is_over = true;
    }

    /// Whether it takes too long.
    fn is_late(&self, now: u64) -> bool
        ensures { result ≡ is_late now self.now }
    {
        let time = now.saturating_sub(self.since);
        if self.is_leaving {
            time > MOST_LEAVING
        } else {
            time > MOST_EXCHANGE
        }
    }

    /// Whether the connection is to be closed.
    pub(crate) fn is_closed(&self, now: u64) -> bool
        ensures { result ≡ is_closed now self.now }
    {
        self.is_over || self.is_late(now)
    }

    /// Whether one whose connection is closed is told that the request took too long, where a part of a request has come.
    pub(crate) fn gets_time_out(&self, is_asking: bool) -> bool
        ensures { result ≡ gets_time_out is_asking self.now }
    {
        !self.is_leaving && !self.is_over && is_asking
    }
}
