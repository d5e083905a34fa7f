//! The options of a server that words can't ask for.

ghost use Rattle.std.specs.Prelude.{◌≤◌};

use centre_events::network::Network;
use console_text::options::{FOLD, MOST_ENTRIES};
use link_rules::Cost;
use server_options::ServeOptions;
use server_ports::LinkLimits;
use std::alloc::Global;
use std::process::Abort;

/// What each port has had already.
#[derive(Clone, Copy)]
pub(crate) struct Spent {
    pub(crate) reports: u32,
    pub(crate) connections: u32,
    /// How many octets its reports had, and how many lines they cost.
    pub(crate) octets: u64,
    pub(crate) lines: u64,
}

/// Nothing.
pub(crate) const UNSPENT: Spent = Spent {
    reports: 0,
    connections: 0,
    octets: 0,
    lines: 0,
};

/// Limits of which so much is spent at that time, in milliseconds of a clock that goes on.
pub(crate) fn spent_limits(spent: Spent, now: u64) -> LinkLimits {
    let mut limits = LinkLimits::usual();
    for _ in 0..spent.reports {
        limits.reports.take(now);
    }
    for _ in 0..spent.connections {
        limits.connections.take(now);
    }
    let cost = Cost {
        octets: spent.octets,
        lines: spent.lines,
        kept: 0,
    };
    limits.costs.take(cost, now);
    limits
}

/// The options of a server with these limits.
pub(crate) fn limited(
    rt: &impl Abort,
    alloc: Global,
    base: u16,
    limits: LinkLimits,
) -> ServeOptions {
    ServeOptions {
        network: Network {
            plmn: [0x00, 0xf1, 0x10],
            broadcasts: 0,
        },
        journal_limit: MOST_ENTRIES,
        fold: FOLD,
        host: String::from_str(alloc, "127.0.0.1").expect(rt, "memory"),
        base,
        links: 2,
        with_simulator: false,
        reset: false,
        reply_seconds: 30,
        cut_seconds: 0,
        alive_seconds: 0,
        query_ms: 0,
        queries_per_second: 2,
        peers: None,
        keep: None,
        console: None,
        http: None,
        has_levels: false,
        consoles: 16,
        limits,
    }
}

/// The options of a server that asks after so many milliseconds.
pub(crate) fn asking(rt: &impl Abort, alloc: Global, base: u16, query_ms: u64) -> ServeOptions {
    let mut options = limited(rt, alloc, base, LinkLimits::usual());
    options.query_ms = query_ms;
    options.reply_seconds = 2;
    options
}
