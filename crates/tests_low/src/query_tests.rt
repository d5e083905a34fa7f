//! What no clause says of the rule for queries that no operator wished for: that it can be kept to, row by row, as a server does.

use crate::values::{same, yes};
use common::Cell;
use link_rules::{Query, QueryPace, QueryTurns, Version};
use std::process::Abort;

/// The period, in milliseconds.
const PERIOD: u64 = 600_000;

/// A day, in milliseconds.
const DAY: u64 = 86_400_000;

const FIRST: Version = Version {
    message_id: 4370,
    serial: 0xc000,
};

/// Its next version.
const NEXT: Version = Version {
    message_id: 4370,
    serial: 0xc001,
};

const OTHER: Version = Version {
    message_id: 50,
    serial: 0xc000,
};

const LAST: Cell = Cell { lac: 100, ci: 999 };

fn all_of(version: Version) -> Option<Query> {
    Some(Query {
        version,
        after: None,
    })
}

/// The version is on air from then on.
fn sees(rt: &impl Abort, pace: &mut QueryPace, version: Version, now_ms: u64) {
    pace.see(version, now_ms).expect(rt, "memory");
}

/// That query is due, and wished for.
fn wishes(rt: &impl Abort, pace: &mut QueryPace, want: Option<Query>, now_ms: u64) {
    let due = pace.due(now_ms);
    same(rt, &due, &want, "which is due");
    if let Some(query) = due {
        pace.wish(query, now_ms).expect(rt, "memory");
    }
}

fn is_due(rt: &impl Abort, pace: &QueryPace, now_ms: u64, want: Option<Query>) {
    same(rt, &pace.due(now_ms), &want, "which is due");
}

/// A query is due a period after the version was seen first, after a query for it, after its reply, and after an order.
#[test]
fn a_query_is_due_a_period_later(rt: HostRuntime) {
    let mut pace = QueryPace::new(rt.alloc(), PERIOD);
    sees(&rt, &mut pace, FIRST, 1_000);
    sees(&rt, &mut pace, FIRST, 500_000);
    is_due(&rt, &pace, 600_999, None);
    wishes(&rt, &mut pace, all_of(FIRST), 601_000);
    is_due(&rt, &pace, 601_000, None);
    yes(&rt, pace.is_own(FIRST), "the own query");
    yes(&rt, !pace.is_own(NEXT), "of another version");
    pace.ask(FIRST, None, 602_000).expect(&rt, "memory");
    yes(&rt, !pace.is_own(FIRST), "a second one isn't");
    is_due(&rt, &pace, 1_201_999, None);
    pace.answered(605_000).expect(&rt, "memory");
    is_due(&rt, &pace, 1_204_999, None);
    is_due(&rt, &pace, 1_205_000, all_of(FIRST));
    pace.order(FIRST, 1_205_000).expect(&rt, "memory");
    is_due(&rt, &pace, 1_804_999, None);
    is_due(&rt, &pace, 1_805_000, all_of(FIRST));
}

/// A reply that is told after the next order went out counts for what went out before that.
#[test]
fn a_reply_that_is_told_late_counts(rt: HostRuntime) {
    let mut pace = QueryPace::new(rt.alloc(), PERIOD);
    sees(&rt, &mut pace, FIRST, 0);
    sees(&rt, &mut pace, OTHER, 0);
    pace.order(FIRST, 0).expect(&rt, "memory");
    pace.order(OTHER, 100_000).expect(&rt, "memory");
    pace.answered(100_001).expect(&rt, "memory");
    is_due(&rt, &pace, 699_999, None);
    is_due(&rt, &pace, 700_000, all_of(OTHER));
    pace.answered(200_000).expect(&rt, "memory");
    is_due(&rt, &pace, 700_000, None);
    is_due(&rt, &pace, 700_001, all_of(FIRST));
    is_due(&rt, &pace, 799_999, all_of(FIRST));
}

/// Of two that are due the one goes first of which nothing was heard for longer.
#[test]
fn the_one_that_waits_longest_is_asked_first(rt: HostRuntime) {
    let mut pace = QueryPace::new(rt.alloc(), PERIOD);
    sees(&rt, &mut pace, FIRST, 0);
    sees(&rt, &mut pace, OTHER, 0);
    pace.order(FIRST, 100).expect(&rt, "memory");
    is_due(&rt, &pace, 600_099, all_of(OTHER));
    wishes(&rt, &mut pace, all_of(OTHER), 700_000);
    wishes(&rt, &mut pace, all_of(FIRST), 700_001);
    is_due(&rt, &pace, 700_002, None);
    is_due(&rt, &pace, 1_300_000, all_of(OTHER));
}

/// An own query for as many cells as it may name goes on behind its last at once, until one names fewer. An operator's doesn't.
#[test]
fn a_query_goes_on_after_its_last_cell(rt: HostRuntime) {
    let mut pace = QueryPace::new(rt.alloc(), PERIOD);
    let rest = Query {
        version: FIRST,
        after: Some(LAST),
    };
    sees(&rt, &mut pace, FIRST, 0);
    pace.ask(FIRST, Some(LAST), 0).expect(&rt, "memory");
    is_due(&rt, &pace, 1, None);
    wishes(&rt, &mut pace, all_of(FIRST), PERIOD);
    pace.ask(FIRST, Some(LAST), PERIOD).expect(&rt, "memory");
    wishes(&rt, &mut pace, Some(rest), PERIOD);
    is_due(&rt, &pace, PERIOD, None);
    pace.unwish(rest, PERIOD).expect(&rt, "memory");
    wishes(&rt, &mut pace, Some(rest), PERIOD + 1);
    pace.ask(FIRST, None, PERIOD + 2).expect(&rt, "memory");
    is_due(&rt, &pace, PERIOD + 3, None);
}

/// Behind the last cell there may be none: that the query for it didn't go out says nothing of the version.
#[test]
fn a_version_without_further_cells_is_asked_again(rt: HostRuntime) {
    let mut pace = QueryPace::new(rt.alloc(), PERIOD);
    sees(&rt, &mut pace, FIRST, 0);
    wishes(&rt, &mut pace, all_of(FIRST), PERIOD);
    pace.ask(FIRST, Some(LAST), PERIOD).expect(&rt, "memory");
    let due = pace.due(PERIOD).expect(&rt, "the rest");
    pace.wish(due, PERIOD).expect(&rt, "memory");
    pace.pass_over(PERIOD + 1).expect(&rt, "memory");
    is_due(&rt, &pace, 2 * PERIOD, all_of(FIRST));
}

/// Where nothing was to be asked, it is tried a day later, or after the next order.
#[test]
fn a_version_that_is_not_there_is_passed_over(rt: HostRuntime) {
    let mut pace = QueryPace::new(rt.alloc(), PERIOD);
    sees(&rt, &mut pace, FIRST, 0);
    wishes(&rt, &mut pace, all_of(FIRST), PERIOD);
    pace.pass_over(PERIOD).expect(&rt, "memory");
    sees(&rt, &mut pace, FIRST, PERIOD);
    is_due(&rt, &pace, PERIOD + DAY - 1, None);
    is_due(&rt, &pace, PERIOD + DAY, all_of(FIRST));
    pace.order(FIRST, PERIOD).expect(&rt, "memory");
    is_due(&rt, &pace, 2 * PERIOD, all_of(FIRST));
}

/// A wish that isn't kept is due at once, and one that went out meanwhile isn't.
#[test]
fn a_wish_that_is_not_kept_is_due(rt: HostRuntime) {
    let mut pace = QueryPace::new(rt.alloc(), PERIOD);
    sees(&rt, &mut pace, FIRST, 0);
    let due = pace.due(PERIOD).expect(&rt, "it is due");
    pace.wish(due, PERIOD).expect(&rt, "memory");
    pace.unwish(due, PERIOD).expect(&rt, "memory");
    wishes(&rt, &mut pace, all_of(FIRST), PERIOD);
    pace.ask(FIRST, None, PERIOD).expect(&rt, "memory");
    pace.unwish(due, PERIOD).expect(&rt, "memory");
    is_due(&rt, &pace, 2 * PERIOD - 1, None);
}

/// A version that isn't on air any more isn't asked for, and what was wished for over a link that ended is forgotten.
#[test]
fn what_is_not_on_air_is_not_asked_for(rt: HostRuntime) {
    let mut pace = QueryPace::new(rt.alloc(), PERIOD);
    sees(&rt, &mut pace, FIRST, 0);
    sees(&rt, &mut pace, OTHER, 1);
    wishes(&rt, &mut pace, all_of(FIRST), PERIOD);
    pace.ask(FIRST, Some(LAST), PERIOD).expect(&rt, "memory");
    pace.keep_only(&[NEXT, OTHER]);
    is_due(&rt, &pace, PERIOD, None);
    is_due(&rt, &pace, 9 * PERIOD, all_of(OTHER));
    wishes(&rt, &mut pace, all_of(OTHER), 9 * PERIOD);
    pace.begin();
    yes(&rt, !pace.is_own(OTHER), "over the link before");
    pace.pass_over(9 * PERIOD).expect(&rt, "memory");
    is_due(&rt, &pace, 10 * PERIOD, all_of(OTHER));
}

/// Two a second, and each BSC in its turn.
#[test]
fn so_many_queries_a_second_are_wished_for(rt: HostRuntime) {
    let mut turns = QueryTurns::new(2);
    turns.look(5_000);
    same(&rt, &turns.first(3), &0, "the first BSC");
    yes(&rt, turns.has_turn(), "the first");
    turns.take(0);
    yes(&rt, turns.has_turn(), "the second");
    turns.take(1);
    turns.look(5_999);
    yes(&rt, !turns.has_turn(), "no third");
    turns.look(6_000);
    yes(&rt, turns.has_turn(), "a second later");
    same(&rt, &turns.first(3), &2, "the next BSC");
    turns.take(2);
    same(&rt, &turns.first(3), &0, "the first again");
}
