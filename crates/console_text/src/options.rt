//! The commands of the program and their options.

ghost use Rattle.std.specs.Prelude.{◌≡◌, false, IfOk};
ghost use Rattle.clap.specs.Words.{app_of, rule_of};
ghost use Rattle.clap.specs.declared.builder.command.Command.TheViews.{out-Command as fields_of};
ghost use Rattle.console_text.specs.CommandLine.{plmn_option, broadcasts_option, journal_option, host_option, base_option, links_option, fold_option, sim_option, reset_option, reply_option, cut_option, alive_option, query_option, pace_option, peers_option, keep_option, console_option, consoles_option, http_option, with_watchers, with_consoles, with_common, with_ports, with_journal, with_link_rules, with_links, with_seconds, with_queries, replay_command, serve_command, command_line};

use clap::builder::ValueParser;
use clap::{Arg, ArgAction, Command};
use std::alloc::{AllocError, Global};

/// The most entries that a journal may hold, and the number where none is given.
pub const MOST_ENTRIES: u32 = 4_000_000;

/// After how many entries a server folds its journal, where no number is given.
pub const FOLD: u32 = 100_000;

/// The most seconds that an order may go without a reply before that is said, or its link is cut: a day.
pub const MOST_SECONDS: u32 = 86_400;

/// The most seconds without a word before a BSC is asked whether it is alive: longer periods aren't written.
pub const MOST_ALIVE_SECONDS: u32 = 120;

/// After how many seconds an order without a reply is said, where no number is given.
pub const REPLY_SECONDS: u32 = 30;

/// The most minutes between two queries that no operator wished for: a day.
pub const MOST_MINUTES: u32 = 1_440;

/// The most queries a second that no operator wished for.
pub const MOST_QUERIES: u32 = 256;

/// How many queries a second go out that no operator wished for, where no number is given.
pub const QUERIES: u32 = 2;

/// The most consoles that there may be at once.
pub const MOST_CONSOLES: u32 = 64;

/// How many consoles there may be at once, where no number is given.
pub const CONSOLES: u32 = 16;

/// How many broadcasts of a text a BSC is asked for, where no number is given: they have no end.
const NO_END: &str = "0";

/// After how long a BSC is asked whether it is alive, or about a warning, where no number is given: it is never.
const NEVER: &str = "0";

/// What `--version` prints after the program's name.
const VERSION: &str = "1.0.0";

fn plmn_option<'a>(alloc: Global) -> Arg<'a>
    ensures rule { rule_of result ≡ plmn_option }
    ensures own { result.global ≡ false }
{
    Arg::new(alloc, "plmn")
        .long("plmn")
        .value_name("HEX")
        .default_value("00f110")
        .help("The network code, six hexadecimal digits")
}

fn broadcasts_option<'a>(alloc: Global) -> Arg<'a>
    ensures rule { rule_of result ≡ broadcasts_option }
    ensures own { result.global ≡ false }
{
    Arg::new(alloc, "broadcasts")
        .long("broadcasts")
        .value_name("N")
        .default_value(NO_END)
        .value_parser(ValueParser::unsigned(0, 65535))
        .help("How many broadcasts of a text a BSC is asked for, 0 for no end")
}

fn journal_option<'a>(alloc: Global) -> Arg<'a>
    ensures rule { rule_of result ≡ journal_option }
    ensures own { result.global ≡ false }
{
    Arg::new(alloc, "journal")
        .long("journal")
        .value_name("N")
        .default_value("4000000")
        .value_parser(ValueParser::unsigned(1, u64::from(MOST_ENTRIES)))
        .help("How many entries the journal holds")
}

/// The options of both commands.
fn with_common<'a>(alloc: Global, command: Command<'a>) -> Result<Command<'a>, AllocError>
    requires { (fields_of command).has_globals ≡ false }
    ensures app { IfOk result (λ c. app_of c ≡ with_common (app_of command.entry)) }
    ensures own { IfOk result (λ c. (fields_of c).has_globals ≡ false) }
{
    let command = command.arg(plmn_option(alloc))?;
    command
        .arg(broadcasts_option(alloc))?
        .arg(journal_option(alloc))
}

fn replay_command<'a>(alloc: Global) -> Result<Command<'a>, AllocError>
    ensures app { IfOk result (λ c. app_of c ≡ replay_command) }
    ensures own { IfOk result (λ c. (fields_of c).has_globals ≡ false) }
{
    let command = Command::new(alloc, "replay").about("Answers the lines of standard input");
    with_common(alloc, command)
}

fn host_option<'a>(alloc: Global) -> Arg<'a>
    ensures rule { rule_of result ≡ host_option }
    ensures own { result.global ≡ false }
{
    Arg::new(alloc, "host")
        .long("host")
        .value_name("H")
        .default_value("127.0.0.1")
        .help("The address that is listened on")
}

fn base_option<'a>(alloc: Global) -> Arg<'a>
    ensures rule { rule_of result ≡ base_option }
    ensures own { result.global ≡ false }
{
    Arg::new(alloc, "base")
        .long("base")
        .value_name("P")
        .default_value("48049")
        .value_parser(ValueParser::unsigned(1, 65535))
        .help("The port of BSC 1; BSC 2 has the next, and so on")
}

fn links_option<'a>(alloc: Global) -> Arg<'a>
    ensures rule { rule_of result ≡ links_option }
    ensures own { result.global ≡ false }
{
    Arg::new(alloc, "links")
        .long("links")
        .value_name("N")
        .default_value("1")
        .value_parser(ValueParser::unsigned(1, 256))
        .help("How many BSCs may connect, from BSC 1 on")
}

fn fold_option<'a>(alloc: Global) -> Arg<'a>
    ensures rule { rule_of result ≡ fold_option }
    ensures own { result.global ≡ false }
{
    Arg::new(alloc, "fold")
        .long("fold")
        .value_name("N")
        .default_value("100000")
        .value_parser(ValueParser::unsigned(1, 4294967295))
        .help(
            "After how many entries there is a checkpoint, at the latest at nine tenths of the journal",
        )
}

fn sim_option<'a>(alloc: Global) -> Arg<'a>
    ensures rule { rule_of result ≡ sim_option }
    ensures own { result.global ≡ false }
{
    Arg::new(alloc, "sim")
        .long("sim")
        .action(ArgAction::SetTrue)
        .help("A simulated BSC connects to each port, once its BSC is added")
}

fn reset_option<'a>(alloc: Global) -> Arg<'a>
    ensures rule { rule_of result ≡ reset_option }
    ensures own { result.global ≡ false }
{
    Arg::new(alloc, "reset")
        .long("reset")
        .action(ArgAction::SetTrue)
        .help("Each BSC that connects is sent a RESET of all its cells before any order")
}

fn reply_option<'a>(alloc: Global) -> Arg<'a>
    ensures rule { rule_of result ≡ reply_option }
    ensures own { result.global ≡ false }
{
    Arg::new(alloc, "reply-seconds")
        .long("reply-seconds")
        .value_name("N")
        .default_value("30")
        .value_parser(ValueParser::unsigned(0, u64::from(MOST_SECONDS)))
        .help("After how many seconds an order without a reply is said, 0 for never")
}

fn cut_option<'a>(alloc: Global) -> Arg<'a>
    ensures rule { rule_of result ≡ cut_option }
    ensures own { result.global ≡ false }
{
    Arg::new(alloc, "cut-seconds")
        .long("cut-seconds")
        .value_name("N")
        .default_value("0")
        .value_parser(ValueParser::unsigned(0, u64::from(MOST_SECONDS)))
        .help("After how many seconds an order without a reply ends its link, 0 for never")
}

fn alive_option<'a>(alloc: Global) -> Arg<'a>
    ensures rule { rule_of result ≡ alive_option }
    ensures own { result.global ≡ false }
{
    Arg::new(alloc, "keep-alive-seconds")
        .long("keep-alive-seconds")
        .value_name("N")
        .default_value(NEVER)
        .value_parser(ValueParser::unsigned(0, u64::from(MOST_ALIVE_SECONDS)))
        .help(
            "After how many seconds without a word a BSC is asked whether it is alive, 0 for never",
        )
}

fn query_option<'a>(alloc: Global) -> Arg<'a>
    ensures rule { rule_of result ≡ query_option }
    ensures own { result.global ≡ false }
{
    Arg::new(alloc, "query-minutes")
        .long("query-minutes")
        .value_name("N")
        .default_value(NEVER)
        .value_parser(ValueParser::unsigned(0, u64::from(MOST_MINUTES)))
        .help(
            "After how many minutes a BSC is asked again how often a warning was broadcast, 0 for never",
        )
}

fn pace_option<'a>(alloc: Global) -> Arg<'a>
    ensures rule { rule_of result ≡ pace_option }
    ensures own { result.global ≡ false }
{
    Arg::new(alloc, "queries-per-second")
        .long("queries-per-second")
        .value_name("N")
        .default_value("2")
        .value_parser(ValueParser::unsigned(1, u64::from(MOST_QUERIES)))
        .help("How many such queries a second there are at most, over all BSCs")
}

fn peers_option<'a>(alloc: Global) -> Arg<'a>
    ensures rule { rule_of result ≡ peers_option }
    ensures own { result.global ≡ false }
{
    Arg::new(alloc, "peers")
        .long("peers")
        .value_name("FILE")
        .help("The addresses that each BSC may connect from, a line a BSC: its number, then these")
}

fn keep_option<'a>(alloc: Global) -> Arg<'a>
    ensures rule { rule_of result ≡ keep_option }
    ensures own { result.global ≡ false }
{
    Arg::new(alloc, "keep").long("keep").value_name("FILE").help(
        "The file that the journal is kept in; a start goes on from what stands there",
    )
}

fn console_option<'a>(alloc: Global) -> Arg<'a>
    ensures rule { rule_of result ≡ console_option }
    ensures own { result.global ≡ false }
{
    Arg::new(alloc, "console")
        .long("console")
        .value_name("PATH")
        .help("The socket file at which each connection is a console")
}

fn consoles_option<'a>(alloc: Global) -> Arg<'a>
    ensures rule { rule_of result ≡ consoles_option }
    ensures own { result.global ≡ false }
{
    Arg::new(alloc, "consoles")
        .long("consoles")
        .value_name("N")
        .default_value("16")
        .value_parser(ValueParser::unsigned(1, u64::from(MOST_CONSOLES)))
        .help("How many consoles there may be at once")
}

fn http_option<'a>(alloc: Global) -> Arg<'a>
    ensures rule { rule_of result ≡ http_option }
    ensures own { result.global ≡ false }
{
    Arg::new(alloc, "http")
        .long("http")
        .value_name("HOST:PORT")
        .help("The address of a page that shows the centre, and of figures for monitoring")
}

/// The options of a link that are numbers of seconds.
fn with_seconds<'a>(alloc: Global, command: Command<'a>) -> Result<Command<'a>, AllocError>
    requires { (fields_of command).has_globals ≡ false }
    ensures app { IfOk result (λ c. app_of c ≡ with_seconds (app_of command.entry)) }
    ensures own { IfOk result (λ c. (fields_of c).has_globals ≡ false) }
{
    let command = command.arg(reply_option(alloc))?.arg(cut_option(alloc))?;
    command.arg(alive_option(alloc))
}

/// The options for queries that no operator wished for.
fn with_queries<'a>(alloc: Global, command: Command<'a>) -> Result<Command<'a>, AllocError>
    requires { (fields_of command).has_globals ≡ false }
    ensures app { IfOk result (λ c. app_of c ≡ with_queries (app_of command.entry)) }
    ensures own { IfOk result (λ c. (fields_of c).has_globals ≡ false) }
{
    command.arg(query_option(alloc))?.arg(pace_option(alloc))
}

/// The options for links that are lost, taken over, or without replies.
fn with_link_rules<'a>(alloc: Global, command: Command<'a>) -> Result<Command<'a>, AllocError>
    requires { (fields_of command).has_globals ≡ false }
    ensures app { IfOk result (λ c. app_of c ≡ with_link_rules (app_of command.entry)) }
    ensures own { IfOk result (λ c. (fields_of c).has_globals ≡ false) }
{
    let command = with_seconds(alloc, command.arg(reset_option(alloc))?)?;
    command.arg(peers_option(alloc))
}

/// The options by which links go on.
fn with_links<'a>(alloc: Global, command: Command<'a>) -> Result<Command<'a>, AllocError>
    requires { (fields_of command).has_globals ≡ false }
    ensures app { IfOk result (λ c. app_of c ≡ with_links (app_of command.entry)) }
    ensures own { IfOk result (λ c. (fields_of c).has_globals ≡ false) }
{
    with_queries(alloc, with_link_rules(alloc, command)?)
}

/// The options of the journal: when it is folded, and where it is kept.
fn with_journal<'a>(alloc: Global, command: Command<'a>) -> Result<Command<'a>, AllocError>
    requires { (fields_of command).has_globals ≡ false }
    ensures app { IfOk result (λ c. app_of c ≡ with_journal (app_of command.entry)) }
    ensures own { IfOk result (λ c. (fields_of c).has_globals ≡ false) }
{
    command.arg(fold_option(alloc))?.arg(keep_option(alloc))
}

/// The options by which operators connect.
fn with_consoles<'a>(alloc: Global, command: Command<'a>) -> Result<Command<'a>, AllocError>
    requires { (fields_of command).has_globals ≡ false }
    ensures app { IfOk result (λ c. app_of c ≡ with_consoles (app_of command.entry)) }
    ensures own { IfOk result (λ c. (fields_of c).has_globals ≡ false) }
{
    command
        .arg(console_option(alloc))?
        .arg(consoles_option(alloc))
}

/// The option by which those connect who only look.
fn with_watchers<'a>(alloc: Global, command: Command<'a>) -> Result<Command<'a>, AllocError>
    requires { (fields_of command).has_globals ≡ false }
    ensures app { IfOk result (λ c. app_of c ≡ with_watchers (app_of command.entry)) }
    ensures own { IfOk result (λ c. (fields_of c).has_globals ≡ false) }
{
    command.arg(http_option(alloc))
}

/// The options by which BSCs connect, simulated ones too.
fn with_ports<'a>(alloc: Global, command: Command<'a>) -> Result<Command<'a>, AllocError>
    requires { (fields_of command).has_globals ≡ false }
    ensures app { IfOk result (λ c. app_of c ≡ with_ports (app_of command.entry)) }
    ensures own { IfOk result (λ c. (fields_of c).has_globals ≡ false) }
{
    let command = command.arg(host_option(alloc))?.arg(base_option(alloc))?;
    command.arg(links_option(alloc))?.arg(sim_option(alloc))
}

fn serve_command<'a>(alloc: Global) -> Result<Command<'a>, AllocError>
    ensures app { IfOk result (λ c. app_of c ≡ serve_command) }
    ensures own { IfOk result (λ c. (fields_of c).has_globals ≡ false) }
{
    let command = Command::new(alloc, "serve").about("Keeps warnings on air over TCP");
    let command = with_ports(alloc, with_common(alloc, command)?)?;
    let command = with_links(alloc, with_journal(alloc, command)?)?;
    with_watchers(alloc, with_consoles(alloc, command)?)
}

/// The command line that is taken.
pub fn command_line<'a>(alloc: Global) -> Result<Command<'a>, AllocError>
    ensures { IfOk result (λ c. app_of c ≡ command_line) }
{
    let replay = replay_command(alloc)?;
    let serve = serve_command(alloc)?;
    Command::new(alloc, "cbc")
        .about("A cell broadcast centre")
        .version(VERSION)
        .subcommand_required(true)
        .subcommand(replay)?
        .subcommand(serve)
}
