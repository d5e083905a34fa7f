//! What no clause says of heavy reports: that one link has the turn at a time.

use crate::checks::yes;
use server_links::HeavyTurn;
use std::time::Duration;

#[test]
fn one_link_has_the_turn_at_a_time(rt: HostRuntime) {
    let turn = HeavyTurn::new();
    let time = Duration::from_millis(1);
    yes(&rt, turn.take(&rt, time), "nobody has it");
    yes(&rt, !turn.take(&rt, time), "another waits");
    yes(&rt, !turn.take(&rt, time), "as long as it isn't given back");
    turn.give(&rt);
    yes(&rt, turn.take(&rt, time), "it is given back");
}
