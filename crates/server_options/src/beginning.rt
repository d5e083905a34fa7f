//! What is said of the options as a server begins.

ghost use Rattle.std.specs.Prelude.{◌≡◌, IfOk, string_bytes};
ghost use Rattle.server_options.specs.BeginTexts.{begin_text, flags_text, limits_text, network_text, reset_text, sim_text, times_text};

use crate::options::ServeOptions;
use centre_events::network::Network;
use std::alloc::{AllocError, Global};

/// Milliseconds in a minute.
const MINUTE: u64 = 60_000;

fn network_text(alloc: Global, network: Network) -> Result<String, AllocError>
    ensures { IfOk result (λ text. string_bytes text ≡ network_text network) }
{
    let plmn = hex::encode(alloc, network.plmn.as_slice())?;
    let broadcasts = network.broadcasts;
    format!(in alloc; "network {plmn}, broadcasts {broadcasts}")
}

fn limits_text(alloc: Global, options: &ServeOptions) -> Result<String, AllocError>
    ensures { IfOk result (λ text. string_bytes text ≡ limits_text options.now) }
{
    let links = options.links;
    let journal = options.journal_limit;
    let fold = options.fold;
    format!(in alloc; "links {links}, journal {journal}, fold {fold}")
}

fn times_text(alloc: Global, options: &ServeOptions) -> Result<String, AllocError>
    ensures { IfOk result (λ text. string_bytes text ≡ times_text options.now) }
{
    let reply = options.reply_seconds;
    let cut = options.cut_seconds;
    let alive = options.alive_seconds;
    let query = options.query_ms / MINUTE;
    let queries = options.queries_per_second;
    format!(in alloc;
        "reply-seconds {reply}, cut-seconds {cut}, keep-alive-seconds {alive}, query-minutes {query}, queries-per-second {queries}"
    )
}

fn reset_text(reset: bool) -> &'static str
    ensures { result.now ≡ reset_text reset }
{
    if reset { ", reset" } else { "" }
}

fn sim_text(sim: bool) -> &'static str
    ensures { result.now ≡ sim_text sim }
{
    if sim { ", sim" } else { "" }
}

fn flags_text(alloc: Global, options: &ServeOptions) -> Result<String, AllocError>
    ensures { IfOk result (λ text. string_bytes text ≡ flags_text options.now) }
{
    let reset = reset_text(options.reset);
    let sim = sim_text(options.with_simulator);
    format!(in alloc; "{reset}{sim}")
}

/// What is said as a server of that version begins: with which options that change what it does.
pub fn begin_text(
    alloc: Global,
    version: &str,
    options: &ServeOptions,
) -> Result<String, AllocError>
    ensures { IfOk result (λ text. string_bytes text ≡ begin_text version.now options.now) }
{
    let network = network_text(alloc, options.network)?;
    let limits = limits_text(alloc, options)?;
    let times = times_text(alloc, options)?;
    let flags = flags_text(alloc, options)?;
    format!(in alloc; "started: version {version}, {network}, {limits}, {times}{flags}")
}
