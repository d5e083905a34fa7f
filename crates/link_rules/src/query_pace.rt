//! When a BSC is asked how often warnings were broadcast, without an operator's wish.

ghost use Rattle.std.specs.Prelude.{◌≡◌, OnErr, OnOk};

use crate::query::Query;
use crate::version::Version;
use crate::version_due::VersionDue;
use crate::versions_due::{first_due, is_one_of, keep_only, put, put_new};
use common::Cell;
use std::alloc::{AllocError, Global};
use std::marker::Model;

/// For how long a version isn't asked for again for which there was nothing to ask, in milliseconds: a day. An order for it ends that.
const DAY: u64 = 86_400_000;

/// Which queries are due at a BSC, without an operator's wish (MESSAGE STATUS QUERY; 3GPP TS 48.049, 8.1.3). For each version a query is
/// due a period after the last order, query or reply for it; for one that was never heard of, a period after it was first seen.
///
/// A query names 1,000 cells at most. Where an own one named as many, another is due at once, for the cells after its last.
#[derive(Drop)]
pub struct QueryPace {
    /// The period, in milliseconds.
    period_ms: u64,
    /// The versions, the one that was heard of last at the end.
    versions: Vec<VersionDue>,
    /// What was ordered or asked for before `out`, where `out` was told before the reply to this.
    late: Option<Version>,
    /// What was last ordered or asked for and isn't answered.
    out: Option<Version>,
    /// The own query that was wished for last and hasn't gone out.
    own: Option<Query>,
    /// The query for the cells behind those of the last own one.
    rest: Option<Query>,
}

impl Model for QueryPace {
    ghost use Rattle.link_rules.specs.QueryPaces.{PaceState};

    ghost Value = { PaceState };

    ghost view = { λ p. record { period_ms = p.period_ms; versions = p.versions.items; late = p.late; out = p.out; own = p.own; rest = p.rest } };
}

impl QueryPace {
    ghost use Rattle.link_rules.specs.QueryPaces.{PaceState, answered_version, begun, due_at, going_out, in_vain, is_own, new_pace, seen, with_answer, unwished, with_only, with_order, with_query, with_wish, without_out, without_wish};

    /// Nothing was heard of yet.
    pub fn new(alloc: Global, period_ms: u64) -> QueryPace
        ensures { result ≡ new_pace period_ms }
    {
        QueryPace {
            period_ms,
            versions: Vec::new(alloc),
            late: None,
            out: None,
            own: None,
            rest: None,
        }
    }

    /// The link came up or ended: nothing is out, and no wish of before is known any more.
    pub fn begin(&mut self)
        ensures { self.new ≡ begun self.old }
    {
        self.late = None;
        self.out = None;
        self.own = None;
        self.rest = None;
    }

    /// Only these versions are on air.
    pub fn keep_only(&mut self, versions: &[Version])
        ensures { self.new ≡ with_only versions.now self.old }
    {
        keep_only(&mut self.versions, versions);
        if let Some(query) = self.rest {
            if !is_one_of(versions, query.version) {
                self.rest = None;
            }
        }
    }

    /// The version is on air. `now_ms` is in milliseconds of the clock, here and below. At an `Err` nothing changed.
    pub fn see(&mut self, version: Version, now_ms: u64) -> Result<(), AllocError>
        ensures seen { OnOk result (self.new ≡ seen now_ms version self.old) }
        ensures unchanged { OnErr result (self.new ≡ self.old) }
    {
        let due = now_ms.saturating_add(self.period_ms);
        put_new(&mut self.versions, version, due)
    }

    /// The query that is due: the one for the cells behind those of the last, or else the first of those whose time has come.
    pub fn due(&self, now_ms: u64) -> Option<Query>
        ensures { result ≡ due_at now_ms self.now }
    {
        if let Some(query) = self.rest {
            return Some(query);
        }
        let version = first_due(self.versions.as_slice(), now_ms)?;
        Some(Query {
            version,
            after: None,
        })
    }

    /// The own query that was wished for before hasn't gone out, and isn't wished for any more: there was nothing to ask. At an `Err` the
    /// version is due as before.
    pub fn pass_over(&mut self, now_ms: u64) -> Result<(), AllocError>
        ensures passed { OnOk result (self.new ≡ in_vain now_ms self.old) }
        ensures own { OnErr result (self.new ≡ record self.old { own = None }) }
    {
        let own = self.own;
        self.own = None;
        match own {
            Some(
                Query {
                    version,
                    after: None,
                },
            ) => put(&mut self.versions, version, now_ms.saturating_add(DAY)),
            _ => Ok(()),
        }
    }

    /// That query is wished for. At an `Err` the version is due as before.
    pub fn wish(&mut self, query: Query, now_ms: u64) -> Result<(), AllocError>
        ensures wished { OnOk result (self.new ≡ with_wish now_ms query self.old) }
        ensures own { OnErr result (self.new ≡ record self.old { own = Some query; rest = None }) }
    {
        self.own = Some(query);
        self.rest = None;
        let due = now_ms.saturating_add(self.period_ms);
        put(&mut self.versions, query.version, due)
    }

    /// The query isn't wished for, since the link has something else to do. Unless it went out meanwhile it is due now. At an `Err` it is
    /// due as after its wish.
    pub fn unwish(&mut self, query: Query, now_ms: u64) -> Result<(), AllocError>
        ensures unwished { OnOk result (self.new ≡ unwished now_ms query self.old) }
        ensures own { OnErr result (self.new ≡ without_wish query self.old) }
    {
        if !self.is_own(query.version) {
            return Ok(());
        }
        self.own = None;
        if query.after.is_some() {
            self.rest = Some(query);
        }
        put(&mut self.versions, query.version, now_ms)
    }

    /// Whether a query for that version would be the own one.
    pub fn is_own(&self, version: Version) -> bool
        ensures { result ≡ is_own version self.now }
    {
        match self.own {
            Some(query) => query.version.is_same(&version),
            None => false,
        }
    }

    /// An order for that version goes out. At an `Err` the version is due as before.
    pub fn order(&mut self, version: Version, now_ms: u64) -> Result<(), AllocError>
        ensures sent { OnOk result (self.new ≡ with_order now_ms version self.old) }
        ensures out { OnErr result (self.new ≡ going_out version self.old) }
    {
        self.own = None;
        self.late = self.out;
        self.out = Some(version);
        let due = now_ms.saturating_add(self.period_ms);
        put(&mut self.versions, version, due)
    }

    /// A query for that version goes out. `last` is its last cell, where it names as many cells as it may. At an `Err` the version is due
    /// as before.
    pub fn ask(
        &mut self,
        version: Version,
        last: Option<Cell>,
        now_ms: u64,
    ) -> Result<(), AllocError>
        ensures sent { OnOk result (self.new ≡ with_order now_ms version (with_query version last self.old)) }
        ensures out { OnErr result (self.new ≡ going_out version (with_query version last self.old)) }
    {
        if self.is_own(version) {
            self.rest = last.map(|cell| Query {
                version,
                after: Some(cell),
            });
        }
        self.order(version, now_ms)
    }

    /// A reply is told, to what is out, or to what went out before that. At an `Err` its version is due as before.
    pub fn answered(&mut self, now_ms: u64) -> Result<(), AllocError>
        ensures answered { OnOk result (self.new ≡ with_answer now_ms self.old) }
        ensures out { OnErr result (self.new ≡ without_out self.old) }
    {
        let version = self.answered_version();
        if self.late.is_none() {
            self.out = None;
        }
        self.late = None;
        match version {
            Some(version) => {
                let due = now_ms.saturating_add(self.period_ms);
                put(&mut self.versions, version, due)
            }
            None => Ok(()),
        }
    }

    /// Of which version the next reply is that is told.
    fn answered_version(&self) -> Option<Version>
        ensures { result ≡ answered_version self.now }
    {
        match self.late {
            Some(version) => Some(version),
            None => self.out,
        }
    }
}
