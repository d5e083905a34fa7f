//! What no clause says of the rules of links: that a whole BSC may restart without waiting, that a flood is held back, by its number and
//! by what it costs, that a frame is kept where there is memory for it, and which texts are lists of peers.

use crate::values::{bsc, same, yes};
use link_rules::{
    AlivePace, AliveStep, Cost, CostLimit, FoldPace, Overdue, Peers, PeersFault, RateLimit, Repeat,
    Repeats, ReplyPace, Verdict, decide, kept_of_order,
};
use std::alloc::Global;
use std::net::{IpAddr, Ipv4Addr};
use std::process::Abort;

/// How many of so many may come in at that time.
fn let_in(limit: &mut RateLimit, now_ms: u64, most: u32) -> u32 {
    for taken in 0..most {
        if !limit.take(now_ms) {
            return taken;
        }
    }
    most
}

/// 65,536 cells that restart one by one, for both types, don't wait. A flood does: 20 reports a second.
#[test]
fn a_flood_of_reports_is_held_back(rt: HostRuntime) {
    let mut limit = RateLimit::for_reports();
    let cells = let_in(&mut limit, 5_000, 131_072);
    yes(&rt, cells == 131_072, "a whole BSC");
    let more = let_in(&mut limit, 5_000, 1_000_000);
    yes(&rt, more == 8_928, "those that are left");
    let later = let_in(&mut limit, 65_000, 1_000_000);
    yes(&rt, later == 1_200, "those of a minute");
}

/// It is said once, and once more after all could come in again.
#[test]
fn a_link_is_said_to_be_held_back_once(rt: HostRuntime) {
    let mut limit = RateLimit::for_connections();
    let taken = let_in(&mut limit, 0, 1_000);
    yes(&rt, taken == 100, "the connections at once");
    yes(&rt, limit.is_first(), "it is said");
    yes(&rt, !limit.take(999), "it waits");
    yes(&rt, limit.take(1_000), "a second later");
    yes(&rt, !limit.is_first(), "it is not said again");
    yes(&rt, limit.take(200_000), "all may come in");
    yes(&rt, limit.is_first(), "it is said again");
}

/// How many of so many reports of this cost may come in at that time.
fn affords(limit: &mut CostLimit, cost: Cost, now_ms: u64, most: u32) -> u32 {
    for taken in 0..most {
        if !limit.take(cost, now_ms) {
            return taken;
        }
    }
    most
}

/// The largest BSC, of 65,536 cells where there are 256 warnings, fails and restarts without waiting: as a whole, and cell by cell.
#[test]
fn a_whole_bsc_may_restart_whatever_it_costs(rt: HostRuntime) {
    let mut limit = CostLimit::for_reports();
    let whole = Cost::of(8, None, 65_536, 256);
    yes(&rt, affords(&mut limit, whole, 0, 4) == 4, "as a whole");
    let mut limit = CostLimit::for_reports();
    let cell = Cost::of(12, Some(1), 65_536, 256);
    let cells = affords(&mut limit, cell, 0, 131_072);
    yes(&rt, cells == 131_072, "cell by cell");
}

/// A BSC of 1,000 cells where there are 64 warnings restarts a hundred times, and answers 64 orders each time by lists of its cells.
#[test]
fn a_busy_bsc_is_never_held_back(rt: HostRuntime) {
    let mut limit = CostLimit::for_reports();
    let restart = Cost::of(8, None, 1_000, 64);
    let reply = Cost::of(9_040, Some(0), 1_000, 64);
    for _ in 0..100 {
        yes(&rt, affords(&mut limit, restart, 0, 4) == 4, "a restart");
        let replies = affords(&mut limit, reply, 0, 64);
        yes(&rt, replies == 64, "its replies");
    }
}

/// Reports of 64,000 octets that name 16,000 cells of nobody: 1,000 come in at once, and then one in 3.2 seconds.
#[test]
fn large_reports_are_held_back(rt: HostRuntime) {
    let mut limit = CostLimit::for_reports();
    let large = Cost::of(64_000, Some(16_000), 0, 0);
    yes(&rt, large.is_heavy(), "it is heavy");
    let taken = affords(&mut limit, large, 7, 5_000);
    yes(&rt, taken == 1_000, "those at once");
    yes(&rt, limit.is_first(), "it is said");
    yes(&rt, !limit.is_first(), "once");
    yes(&rt, !limit.take(large, 3_206), "it waits");
    yes(&rt, limit.take(large, 3_207), "3.2 seconds");
    let later = affords(&mut limit, large, 35_207, 5_000);
    yes(&rt, later == 10, "those of 32 seconds");
}

/// A BSC of 1,000 cells that flaps where there are 100 warnings: 101,000 lines a report.
#[test]
fn a_bsc_that_flaps_is_held_back(rt: HostRuntime) {
    let mut limit = CostLimit::for_reports();
    let flap = Cost::of(8, None, 1_000, 100);
    yes(&rt, flap.is_heavy(), "it is heavy");
    yes(&rt, flap.pause_ms() == 10, "others have 10 ms after it");
    let taken = affords(&mut limit, flap, 0, 5_000);
    yes(&rt, taken == 712, "those at once");
    let small = Cost::of(12, Some(1), 1_000, 100);
    yes(&rt, !small.is_heavy(), "a report of one cell isn't");
    let cells = affords(&mut limit, small, 0, 5_000);
    yes(&rt, cells == 871, "the 88,000 lines that are left");
    yes(&rt, !limit.take(flap, 5_048), "it waits");
    yes(&rt, limit.take(flap, 5_049), "five seconds later");
}

fn looks(rt: &impl Abort, pace: &mut ReplyPace, now_ms: u64, want: Overdue) {
    same(rt, &pace.look(now_ms), &want, "what is overdue");
}

#[test]
fn a_reply_is_overdue_after_its_time(rt: HostRuntime) {
    let mut pace = ReplyPace::new(30, 0);
    looks(&rt, &mut pace, 90_000, Overdue::No);
    pace.sent(100_000);
    looks(&rt, &mut pace, 129_999, Overdue::No);
    looks(&rt, &mut pace, 130_000, Overdue::Tell { seconds: 30 });
    looks(&rt, &mut pace, 729_999, Overdue::No);
    looks(&rt, &mut pace, 730_500, Overdue::Tell { seconds: 630 });
    pace.answered();
    looks(&rt, &mut pace, 9_000_000, Overdue::No);
}

/// The next order is told before the reply to the one before.
#[test]
fn a_reply_that_is_told_late_leaves_the_next_order_out(rt: HostRuntime) {
    let mut pace = ReplyPace::new(30, 0);
    pace.sent(100_000);
    pace.sent(101_000);
    pace.answered();
    looks(&rt, &mut pace, 130_999, Overdue::No);
    looks(&rt, &mut pace, 131_000, Overdue::Tell { seconds: 30 });
    pace.answered();
    looks(&rt, &mut pace, 9_000_000, Overdue::No);
}

#[test]
fn a_link_without_a_reply_is_cut(rt: HostRuntime) {
    let mut pace = ReplyPace::new(30, 60);
    pace.sent(0);
    looks(&rt, &mut pace, 30_000, Overdue::Tell { seconds: 30 });
    looks(&rt, &mut pace, 60_000, Overdue::Cut { seconds: 60 });
    let mut never = ReplyPace::new(0, 0);
    never.sent(0);
    looks(&rt, &mut never, 9_000_000, Overdue::No);
}

/// A query that no operator wished for cuts its link where a reply would only be said to be overdue, and an order behind it doesn't.
#[test]
fn an_own_query_without_a_reply_cuts_its_link(rt: HostRuntime) {
    let mut pace = ReplyPace::new(20, 0);
    pace.sent(0);
    pace.mark_own();
    looks(&rt, &mut pace, 19_999, Overdue::No);
    looks(&rt, &mut pace, 20_000, Overdue::Cut { seconds: 20 });
    pace.answered();
    looks(&rt, &mut pace, 20_000, Overdue::No);
    pace.sent(30_000);
    looks(&rt, &mut pace, 50_000, Overdue::Tell { seconds: 20 });
    let mut unsaid = ReplyPace::new(0, 0);
    unsaid.sent(0);
    unsaid.mark_own();
    looks(&rt, &mut unsaid, 29_999, Overdue::No);
    looks(&rt, &mut unsaid, 30_000, Overdue::Cut { seconds: 30 });
}

/// What is to be done about a BSC that says nothing, while nothing else is out.
fn steps(rt: &impl Abort, pace: &mut AlivePace, now_ms: u64, want: AliveStep) {
    same(rt, &pace.look(now_ms, false), &want, "a BSC that is silent");
}

/// It is asked after 30 seconds, and cut 20 seconds later, where it answered before; else that is said once.
#[test]
fn a_silent_bsc_is_asked_and_then_cut(rt: HostRuntime) {
    let mut pace = AlivePace::new(30, 20);
    pace.begin(1_000);
    steps(&rt, &mut pace, 30_999, AliveStep::Wait);
    steps(&rt, &mut pace, 31_000, AliveStep::Ask);
    pace.asked(31_000);
    steps(&rt, &mut pace, 50_999, AliveStep::Wait);
    steps(&rt, &mut pace, 51_000, AliveStep::Tell { seconds: 20 });
    steps(&rt, &mut pace, 99_000, AliveStep::Wait);
    pace.heard(100_000);
    pace.answered();
    steps(&rt, &mut pace, 130_000, AliveStep::Ask);
    pace.asked(130_000);
    steps(&rt, &mut pace, 149_999, AliveStep::Wait);
    steps(&rt, &mut pace, 150_000, AliveStep::Cut { seconds: 20 });
}

#[test]
fn nobody_is_asked_while_something_is_out(rt: HostRuntime) {
    let mut pace = AlivePace::new(30, 0);
    pace.begin(0);
    yes(
        &rt,
        pace.look(90_000, true) == AliveStep::Wait,
        "an order is out",
    );
    steps(&rt, &mut pace, 90_000, AliveStep::Ask);
    pace.asked(90_000);
    steps(&rt, &mut pace, 120_000, AliveStep::Tell { seconds: 30 });
    let mut never = AlivePace::new(0, 20);
    never.begin(0);
    steps(&rt, &mut never, 9_000_000, AliveStep::Wait);
}

fn goes(rt: &impl Abort, repeats: &mut Repeats, frame: &[u8], now_ms: u64, want: Repeat) {
    same(rt, &repeats.sent(frame, now_ms), &want, "an order goes out");
}

/// The third time is said; the tenth waits a second.
#[test]
fn an_order_that_comes_back_is_told_and_waits(rt: HostRuntime) {
    let mut repeats = Repeats::new(rt.alloc());
    goes(&rt, &mut repeats, b"order", 100, Repeat::Go);
    goes(&rt, &mut repeats, b"order", 101, Repeat::Go);
    goes(&rt, &mut repeats, b"order", 102, Repeat::Tell);
    for now_ms in 103..109 {
        goes(&rt, &mut repeats, b"order", now_ms, Repeat::Go);
    }
    let wait = Repeat::Wait { until_ms: 1_108 };
    goes(&rt, &mut repeats, b"order", 109, wait);
    goes(&rt, &mut repeats, b"order", 1_107, wait);
    goes(&rt, &mut repeats, b"order", 1_108, Repeat::Go);
    let wait = Repeat::Wait { until_ms: 2_108 };
    goes(&rt, &mut repeats, b"order", 1_109, wait);
}

/// Another order, or a table that changed, has the count begin anew.
#[test]
fn another_order_or_a_change_begins_anew(rt: HostRuntime) {
    let mut repeats = Repeats::new(rt.alloc());
    goes(&rt, &mut repeats, b"one", 0, Repeat::Go);
    goes(&rt, &mut repeats, b"one", 0, Repeat::Go);
    goes(&rt, &mut repeats, b"two", 0, Repeat::Go);
    goes(&rt, &mut repeats, b"one", 0, Repeat::Go);
    goes(&rt, &mut repeats, b"one", 0, Repeat::Go);
    repeats.changed();
    goes(&rt, &mut repeats, b"one", 0, Repeat::Go);
    goes(&rt, &mut repeats, b"one", 0, Repeat::Go);
    goes(&rt, &mut repeats, b"one", 0, Repeat::Tell);
}

/// The address 10.0.0.x.
fn address(last: u8) -> IpAddr {
    IpAddr::V4(Ipv4Addr::new(10, 0, 0, last))
}

#[test]
fn a_connection_is_taken_or_closed(rt: HostRuntime) {
    let rows = [
        (None, None, Verdict::Take),
        (Some(1), None, Verdict::TakePlace),
        (Some(2), None, Verdict::CloseOther),
        (None, Some(true), Verdict::Take),
        (Some(2), Some(true), Verdict::TakePlace),
        (None, Some(false), Verdict::CloseUnnamed),
        (Some(1), Some(false), Verdict::CloseUnnamed),
    ];
    for (up, is_named, want) in &rows {
        let verdict = decide(up.map(address), address(1), *is_named);
        yes(&rt, verdict == *want, "what is done");
    }
}

const LIST: &[u8] =
    b"# number, addresses\n\n1 10.0.0.1 \t10.0.0.2\r\n  # more\n65535 2001:db8::1\n 1 10.0.0.3";

fn list(rt: &impl Abort, alloc: Global, text: &[u8]) -> Peers {
    Peers::read(alloc, text).expect(rt, "a list of peers")
}

fn is_named(rt: &impl Abort, peers: &Peers, number: u16, text: &[u8], want: bool) {
    let from = IpAddr::parse_ascii(text).expect(rt, "an address");
    let found = peers.is_named(bsc(rt, number), from);
    yes(rt, found == want, "whether it is named");
}

#[test]
fn peers_are_named_by_their_list(rt: HostRuntime) {
    let peers = list(&rt, rt.alloc(), LIST);
    is_named(&rt, &peers, 1, b"10.0.0.1", true);
    is_named(&rt, &peers, 1, b"10.0.0.2", true);
    is_named(&rt, &peers, 1, b"10.0.0.3", true);
    is_named(&rt, &peers, 65_535, b"2001:0db8:0:0::1", true);
    is_named(&rt, &peers, 1, b"2001:db8::1", false);
    is_named(&rt, &peers, 65_535, b"10.0.0.1", false);
    is_named(&rt, &peers, 2, b"10.0.0.1", false);
    let none = list(&rt, rt.alloc(), b"");
    is_named(&rt, &none, 1, b"10.0.0.1", false);
}

/// Blocks of addresses.
const BLOCKS: &[u8] = b"1 192.0.2.16/28 10.0.0.0/8\n2 2001:db8::/32 0.0.0.0/0\n3 ::/0 10.0.0.1/32";

#[test]
fn a_block_names_its_addresses(rt: HostRuntime) {
    let peers = list(&rt, rt.alloc(), BLOCKS);
    is_named(&rt, &peers, 1, b"192.0.2.16", true);
    is_named(&rt, &peers, 1, b"192.0.2.31", true);
    is_named(&rt, &peers, 1, b"192.0.2.15", false);
    is_named(&rt, &peers, 1, b"192.0.2.32", false);
    is_named(&rt, &peers, 1, b"10.255.0.7", true);
    is_named(&rt, &peers, 1, b"11.0.0.0", false);
    is_named(&rt, &peers, 2, b"2001:db8:ffff::1", true);
    is_named(&rt, &peers, 2, b"2001:db9::1", false);
    is_named(&rt, &peers, 2, b"255.255.255.255", true);
    is_named(&rt, &peers, 3, b"ff02::1", true);
    is_named(&rt, &peers, 3, b"10.0.0.1", true);
    is_named(&rt, &peers, 3, b"10.0.0.2", false);
}

/// Texts, and the first line of each that can't be read.
const FAULTS: [(&[u8], u64); 16] = [
    (b"1 10.0.0.0/33", 1),
    (b"1 ::/129", 1),
    (b"1 10.0.0.0/", 1),
    (b"1 /8", 1),
    (b"1 10.0.0.0/8/8", 1),
    (b"1 10.0.0.0/+8", 1),
    (b"1", 1),
    (b"1 10.0.0.1\n2\n3", 2),
    (b"0 10.0.0.1", 1),
    (b"65536 10.0.0.1", 1),
    (b"+1 10.0.0.1", 1),
    (b"one 10.0.0.1", 1),
    (b"1 10.0.0.256", 1),
    (b"# a\n\n1 10.0.0.1 host", 3),
    (b"1 10.0.0.1 # a comment", 1),
    (b"1,10.0.0.1\n", 1),
];

#[test]
fn a_text_that_is_no_list_is_refused(rt: HostRuntime) {
    for (text, line) in &FAULTS {
        let fault = Peers::read(rt.alloc(), text).err();
        yes(&rt, fault == Some(PeersFault::Line(*line)), "its line");
    }
}

/// A fold is due with so many entries, and again after as many more where there is no memory for it.
#[test]
fn a_fold_is_due_with_its_entries(rt: HostRuntime) {
    let mut pace = FoldPace::new(3, 100_000);
    yes(&rt, !pace.count(0), "one entry");
    yes(&rt, !pace.count(0), "two");
    yes(&rt, pace.count(0), "three");
    yes(&rt, pace.is_due(3), "it is due");
    yes(&rt, pace.put_off(), "it is said");
    yes(&rt, !pace.is_due(1_002), "it is put off");
    yes(&rt, pace.is_due(1_003), "it is due again");
    pace.fold();
    yes(&rt, !pace.is_due(2), "it was folded");
}

/// Large reports and orders bring the fold earlier: each 64 octets count as an entry.
#[test]
fn a_fold_is_due_by_large_frames(rt: HostRuntime) {
    let mut pace = FoldPace::new(3, 100_000);
    yes(&rt, !pace.count(63), "one entry");
    yes(&rt, pace.count(64), "two entries and one");
    yes(&rt, pace.is_due(2), "it is due");
    pace.fold();
    yes(&rt, !pace.count(0), "it was folded");
    let mut pace = FoldPace::new(100_000, 4_000_000);
    for _ in 0..96 {
        yes(&rt, !pace.count(66_560), "96 of 65 kB");
    }
    yes(&rt, pace.count(66_560), "97 of them");
    let page = kept_of_order(116, 1);
    yes(&rt, page == 35, "an order with a page for a cell is small");
    let whole = kept_of_order(4_112, 1_000);
    yes(&rt, whole == 7_028, "one for 1,000 cells isn't");
}
