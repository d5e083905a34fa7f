//! Queries that no operator wished for are entered where they are due.

use crate::shared::{Shared, now_of};
use centre_past::lists::WarningRow;
use centre_questions::SurveyedWarning;
use link_rules::{Query, QueryTurns, Version};
use server_ports::Port;
use std::alloc::{AllocError, Global};
use std::sync::Wait;
use std::sync::ledger::Ledger;
use std::time::Clock;
use warning_book::{Kind, WarningId};

/// The warnings of which a version is on air somewhere and may be asked for, and these versions, in the same order.
#[derive(Drop)]
struct OnAir {
    warnings: Vec<WarningId>,
    versions: Vec<Version>,
}

/// The version of a warning that may be asked for: it wasn't stopped, it is no emergency, and it is on air somewhere.
fn version_of(row: &WarningRow) -> Option<Version> {
    if !row.is_active || row.kind != Kind::Cbs || row.numbers.on_air == 0 {
        return None;
    }
    Some(Version {
        message_id: row.message_id,
        serial: row.serial?.to_u16(),
    })
}

/// The warnings among these that may be asked for.
fn on_air(alloc: Global, rows: &[SurveyedWarning]) -> Result<OnAir, AllocError> {
    let mut warnings = Vec::new(alloc);
    let mut versions = Vec::new(alloc);
    for warning in rows {
        let row = &warning.sheet.row;
        if let Some(version) = version_of(row) {
            warnings.push(row.number)?;
            versions.push(version)?;
        }
    }
    Ok(OnAir { warnings, versions })
}

impl OnAir {
    /// The warning of that version.
    fn warning_of(&self, version: Version) -> Option<WarningId> {
        let place = self.versions.iter().position(|other| *other == version)?;
        self.warnings.get(place).copied()
    }
}

impl<L: Ledger, E: Drop> Shared<L, E> {
    /// What is on air now. Where memory runs out or the centre is stale, nothing is asked for.
    fn on_air<R: Wait>(&self, rt: &R) -> Option<OnAir> {
        let surveyed = self.office.survey(rt).ok()?;
        let found = on_air(self.alloc, surveyed.survey.warnings.as_slice());
        drop(surveyed);
        found.ok()
    }

    /// Wishes for the query at the BSC of the port. The answer is whether that is kept.
    fn wish_for<R: Wait>(&self, rt: &R, port: &Port<L>, on_air: &OnAir, query: Query) -> bool {
        match on_air.warning_of(query.version) {
            Some(warning) => {
                let kept = self.office.wish_if_idle(rt, port.bsc, warning, query.after);
                kept.unwrap_or(false)
            }
            None => false,
        }
    }

    /// Enters the query that is due at the BSC of the port, if one is and the link has nothing else to do. The answer is whether one was
    /// entered. A BSC that has still to answer a RESET is asked nothing.
    fn query_port<R: Wait + Clock>(&self, rt: &R, port: &Port<L>, on_air: &OnAir) -> bool {
        if port.reset_since(rt).is_some() || !self.office.is_idle(rt, port.bsc) {
            return false;
        }
        let now = now_of(rt);
        let Some(query) = port.next_query(rt, on_air.versions.as_slice(), now) else {
            return false;
        };
        if self.wish_for(rt, port, on_air, query) {
            return true;
        }
        port.unwish(rt, query, now);
        false
    }

    /// Enters the queries that are due at the BSCs from one place to before another, as many as have a turn.
    fn query_some<R: Wait + Clock>(
        &self,
        rt: &R,
        turns: &mut QueryTurns,
        on_air: &OnAir,
        places: (usize, usize),
    ) {
        for place in places.0..places.1 {
            if !turns.has_turn() {
                return;
            }
            if let Some(port) = self.ports.get(place) {
                if self.query_port(rt, port, on_air) {
                    turns.take(place);
                }
            }
        }
    }

    /// Enters the queries that are due, as many as have a turn now, over all BSCs: from the one behind the last that was asked, and then
    /// those before it.
    pub(crate) fn enter_queries<R: Wait + Clock>(&self, rt: &R, turns: &mut QueryTurns) {
        turns.look(now_of(rt));
        let Some(on_air) = self.on_air(rt) else {
            return;
        };
        let count = self.ports.len();
        let first = turns.first(count);
        self.query_some(rt, turns, &on_air, (first, count));
        self.query_some(rt, turns, &on_air, (0, first));
        drop(on_air);
    }
}
