//! What the server is run with.

ghost use Rattle.std.specs.Prelude.{◌≡◌, ◌≤◌, ◌&&◌, IfSome, if◌then◌else◌, nat_lt};

use centre_events::network::Network;
use clap::ArgMatches;
use console_text::options::{
    CONSOLES, FOLD, MOST_CONSOLES, MOST_ENTRIES, MOST_MINUTES, MOST_QUERIES, MOST_SECONDS, QUERIES,
    REPLY_SECONDS, command_line,
};
use hex::FromHex;
use server_ports::LinkLimits;
use std::alloc::{AllocError, Global};

/// What the server is run with. BSC b connects to port `base` + b - 1, for b from 1 to `links`, which is at most 256.
#[derive(Debug, Drop)]
pub struct ServeOptions {
    /// The network, and how many broadcasts a message requests.
    pub network: Network,
    /// How many entries the journal may have since the last checkpoint. With `keep` it is to be at least 20,480, else it may be full
    /// before it is folded.
    pub journal_limit: u32,
    /// After how many entries the journal is folded, or at nine tenths of it, whichever is less.
    pub fold: u32,
    /// The address that is listened on.
    pub host: String,
    pub base: u16,
    pub links: u16,
    /// Whether a simulated BSC connects to each port, once its BSC is registered.
    pub with_simulator: bool,
    /// Whether a BSC that connects is sent a RESET of all its cells, and has to answer it before any order.
    pub reset: bool,
    /// After how many seconds an order without a reply is said; 0 for never.
    pub reply_seconds: u32,
    /// After how many seconds an order without a reply, or a RESET without an answer, ends its link; 0 for never.
    pub cut_seconds: u32,
    /// After how many seconds without a word a BSC is sent a KEEP ALIVE; 0 for never.
    pub alive_seconds: u32,
    /// How long after the last order, query or reply for a warning a BSC is asked about it without an operator's wish, in milliseconds; 0
    /// for never.
    pub query_ms: u64,
    /// How many such queries there are a second at most, over all BSCs.
    pub queries_per_second: u32,
    /// The file of the addresses that BSCs may connect from; without it they may connect from any.
    pub peers: Option<String>,
    /// The file that the journal is kept in; without it nothing is kept.
    pub keep: Option<String>,
    /// The socket file at which each connection is a console; without it only standard input is one.
    pub console: Option<String>,
    /// How many consoles there may be at once, at most 64.
    pub consoles: u32,
    /// The address, `HOST:PORT`, of the page for those who only look; without it there is none.
    pub http: Option<String>,
    /// Whether a system log reads standard error, so that each line begins with its level.
    pub has_levels: bool,
    /// How fast a peer is let in.
    pub limits: LinkLimits,
    ghost few: { journal_limit ≤ 4000000 },
    ghost few_links: { links ≤ 256 },
    ghost few_consoles: { consoles ≤ 64 },
}

/// Why the words are no options of the server.
#[derive(Clone, Copy, Debug, PartialEq, Eq)]
pub enum OptionsFault {
    /// The network code isn't six hexadecimal digits.
    BadPlmn,
    /// A port would be past 65,535, or a value is none that the parser takes.
    BadPorts,
    /// The address of the page has no host or no port.
    BadHttp,
    Memory,
}

impl From<AllocError> for OptionsFault {
    fn from(_: AllocError) -> OptionsFault {
        OptionsFault::Memory
    }
}

/// The network code; `None` where it isn't six hexadecimal digits.
fn asked_plmn(matches: &ArgMatches<'_>) -> Option<[u8; 3]> {
    <[u8; 3] as FromHex>::from_hex(matches.get_str("plmn")?).ok()
}

/// How many broadcasts a message requests.
fn asked_broadcasts(matches: &ArgMatches<'_>) -> u16 {
    matches.get_one::<u16>("broadcasts").unwrap_or(0)
}

/// How many entries the journal may hold.
fn asked_journal(matches: &ArgMatches<'_>) -> u32
    ensures { result ≤ 4000000 }
{
    match matches.get_one::<u32>("journal") {
        Some(limit @ 1..=MOST_ENTRIES) => limit,
        _ => MOST_ENTRIES,
    }
}

/// The least that a journal may hold that is kept in a file. It is folded at nine tenths of that at the latest, and the fold waits for
/// the disk. Meanwhile 577 threads may enter two events each before they wait for the fold, so a tenth has to have room for these.
const LEAST_KEPT: u32 = 20_480;

/// How many entries the journal holds for which that is asked: no fewer than it needs where it is kept in a file.
fn held(is_kept: bool, asked: u32) -> u32
    requires { asked ≤ 4000000 }
    ensures held { result ≡ (if is_kept && nat_lt asked 20480 then 20480 else asked) }
    ensures few { result ≤ 4000000 }
{
    if is_kept && asked < LEAST_KEPT {
        LEAST_KEPT
    } else {
        asked
    }
}

/// After how many entries the journal is folded.
fn asked_fold(matches: &ArgMatches<'_>) -> u32
    ensures { 1 ≤ result }
{
    match matches.get_one::<u32>("fold") {
        Some(count @ 1..) => count,
        _ => FOLD,
    }
}

/// The most BSCs that may connect.
const MOST_LINKS: u16 = 256;

/// The first port, and how many BSCs may connect; `None` where a port is past 65,535.
fn asked_ports(matches: &ArgMatches<'_>) -> Option<(u16, u16)>
    ensures { IfSome result (λ ports. ports.1 ≤ 256) }
{
    let base = matches.get_one::<u16>("base")?;
    let links = matches.get_one::<u16>("links")?;
    base.checked_add(links.checked_sub(1)?)?;
    if links > MOST_LINKS {
        return None;
    }
    Some((base, links))
}

/// How many consoles there may be at once.
fn asked_consoles(matches: &ArgMatches<'_>) -> u32
    ensures { result ≤ 64 }
{
    match matches.get_one::<u32>("consoles") {
        Some(count @ 1..=MOST_CONSOLES) => count,
        _ => CONSOLES,
    }
}

/// A number of seconds.
fn asked_seconds(matches: &ArgMatches<'_>, name: &str, default: u32) -> u32
    requires { default ≤ 86400 }
    ensures { result ≤ 86400 }
{
    match matches.get_one::<u32>(name) {
        Some(seconds) if seconds <= MOST_SECONDS => seconds,
        _ => default,
    }
}

/// Milliseconds in a minute.
const MINUTE: u64 = 60_000;

/// After how many milliseconds a BSC is asked again about a warning; 0 for never.
fn asked_query_ms(matches: &ArgMatches<'_>) -> u64
    ensures { result ≤ 86400000 }
{
    match matches.get_one::<u32>("query-minutes") {
        Some(minutes) if minutes <= MOST_MINUTES => u64::from(minutes) * MINUTE,
        _ => 0,
    }
}

/// How many such queries there are a second.
fn asked_queries(matches: &ArgMatches<'_>) -> u32
    ensures few { result ≤ 256 }
    ensures some { 1 ≤ result }
{
    match matches.get_one::<u32>("queries-per-second") {
        Some(count @ 1..=MOST_QUERIES) => count,
        _ => QUERIES,
    }
}

/// The file of that option, where one is given.
fn asked_file(
    alloc: Global,
    matches: &ArgMatches<'_>,
    option: &str,
) -> Result<Option<String>, AllocError> {
    match matches.get_str(option) {
        Some(name) => Ok(Some(String::from_str(alloc, name)?)),
        None => Ok(None),
    }
}

/// Whether the text is a host and the number of a port.
fn is_address(text: &str) -> bool {
    match text.rsplit_once(':') {
        Some((host, port)) => !host.is_empty() && port.parse::<u16>().is_ok(),
        None => false,
    }
}

/// The address of the page, where one is given.
fn asked_http(alloc: Global, matches: &ArgMatches<'_>) -> Result<Option<String>, OptionsFault> {
    match matches.get_str("http") {
        Some(address) if !is_address(address) => Err(OptionsFault::BadHttp),
        Some(address) => Ok(Some(String::from_str(alloc, address)?)),
        None => Ok(None),
    }
}

/// The names among the options.
#[derive(Drop)]
struct Names {
    host: String,
    peers: Option<String>,
    keep: Option<String>,
    console: Option<String>,
    http: Option<String>,
}

/// The names in the matches.
fn names_of(alloc: Global, matches: &ArgMatches<'_>) -> Result<Names, OptionsFault> {
    let http = asked_http(alloc, matches)?;
    let peers = asked_file(alloc, matches, "peers")?;
    let keep = asked_file(alloc, matches, "keep")?;
    let console = asked_file(alloc, matches, "console")?;
    let host = String::from_str(alloc, matches.get_str("host").unwrap_or("127.0.0.1"))?;
    Ok(Names {
        host,
        peers,
        keep,
        console,
        http,
    })
}

/// The options of the server in its matches.
fn options_of(alloc: Global, matches: &ArgMatches<'_>) -> Result<ServeOptions, OptionsFault> {
    let Some(plmn) = asked_plmn(matches) else {
        return Err(OptionsFault::BadPlmn);
    };
    let Some((base, links)) = asked_ports(matches) else {
        return Err(OptionsFault::BadPorts);
    };
    let Names {
        host,
        peers,
        keep,
        console,
        http,
    } = names_of(alloc, matches)?;
    Ok(ServeOptions {
        network: Network {
            plmn,
            broadcasts: asked_broadcasts(matches),
        },
        journal_limit: held(keep.is_some(), asked_journal(matches)),
        fold: asked_fold(matches),
        host,
        base,
        links,
        with_simulator: matches.get_flag("sim"),
        reset: matches.get_flag("reset"),
        reply_seconds: asked_seconds(matches, "reply-seconds", REPLY_SECONDS),
        cut_seconds: asked_seconds(matches, "cut-seconds", 0),
        alive_seconds: asked_seconds(matches, "keep-alive-seconds", 0),
        query_ms: asked_query_ms(matches),
        queries_per_second: asked_queries(matches),
        peers,
        keep,
        console,
        consoles: asked_consoles(matches),
        http,
        has_levels: false,
        limits: LinkLimits::usual(),
    })
}

/// The options of the server in the words of a command line that asks for it, which the parser takes. It takes them a second
/// time too, unless memory runs out. So `Memory` is answered wherever it does not take them.
pub fn read_options(alloc: Global, words: &[String]) -> Result<ServeOptions, OptionsFault> {
    match command_line(alloc)?.try_get_matches_from(words) {
        Ok(matches) => match matches.subcommand_matches("serve") {
            Some(matches) => options_of(alloc, matches),
            None => Err(OptionsFault::Memory),
        },
        Err(_) => Err(OptionsFault::Memory),
    }
}
