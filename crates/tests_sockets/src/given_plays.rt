//! What the tests share: a run of the server, with what its operator and its peers do.

use crate::checks::{same, yes};
use crate::given_options::{Spent, asking, limited, spent_limits};
use crate::given_texts::{Wanted, has, has_time, plain};
use crate::metrics_page::shows;
use crate::peer::{PATIENCE, connected, fails, gets, is_closed, next_frame, sends};
use crate::socket_console::{follows, is_told};
use crate::text_files::TextFiles;
use server::{serve, serve_words};
use server_errors::{line_text, utc_text};
use server_options::{PeersSource, ServeOptions};
use std::alloc::Global;
use std::fs::{File, Files};
use std::io::{BufRead, BufReader, Read, Write};
use std::net::{Net, Shutdown, TcpListener, TcpStream};
use std::os::unix::net::UnixStream;
use std::process::Abort;
use std::sync::Wait;
use std::thread;
use std::thread::Threads;
use std::time::{Clock, Duration, SystemTime};

/// How often something is looked for that is to come.
const MOST_LOOKS: u32 = 20_000;

/// For so many milliseconds after the start of a server whose limits are spent nothing more is let in.
const HELD: u64 = 4_000;

/// What the operator does, or a peer. Peers are numbered from 0, in the order in which they connect.
pub(crate) enum Act {
    /// The operator types the line. Its answer begins so.
    Types(&'static str, &'static str),
    /// The operator types the line until its answer begins so.
    Repeats(&'static str, &'static str),
    /// The operator types the line. Its answer begins otherwise, if that is less than `HELD` after the time noted.
    Unlike(&'static str, &'static str),
    /// The time is noted. Before that it is when the server was started.
    Notes,
    /// So many milliseconds go by.
    Rests(u64),
    /// The operator types the lines, and passes over so many answers.
    Lines(&'static str, u32),
    /// The operator types a comment of so many octets, without its end.
    Comment(u32),
    /// The text stands in the file from now on.
    Stands(&'static str, &'static str),
    /// The operator types no more.
    Ends,
    /// A console at that socket file is typed the line. Its answer is this.
    Asks(&'static str, &'static str, &'static str),
    /// A console at that socket file follows the journal from now on, to which BSC 1 is ordered again until an entry comes to it.
    Follows(&'static str),
    /// The console that followed last is shown this text within a while.
    Sees(&'static str),
    /// The figures of the page come to have these lines at once.
    Shows(&'static [&'static str]),
    /// A line with this text comes on standard error. The lines before it are passed over.
    Says(&'static str),
    /// The next line on standard error, behind that of the start, says that so many ports are listened on.
    Listens(u16),
    /// A peer connects from 127.0.0.x, x the first number, to the port of the BSC. The operator has had an answer before.
    Connects(u8, u16),
    /// The peer sends the octets so often.
    Sends(usize, &'static [u8], u32),
    /// The peer says that so many cells fail, from cell 0 of location area 100 on, each in a message.
    Fails(usize, u16),
    /// The peer sends no more.
    Stops(usize),
    /// The next octets that the peer gets are these.
    Gets(usize, &'static [u8]),
    /// The next frame that the peer gets is of this type. It sends the octets.
    Answers(usize, u8, &'static [u8]),
    /// The same so often.
    AnswersOften(usize, u8, &'static [u8], u32),
    /// The next frame comes to the peer no sooner than so many milliseconds after the time noted.
    WaitsFor(usize, u64),
    /// The server closes the peer's connection.
    IsClosed(usize),
    /// The peer closes its connection.
    Leaves(usize),
}

/// The port of the first BSC.
#[derive(Clone, Copy, PartialEq, Eq)]
pub(crate) enum Base {
    /// One that nobody listens on, nor on the next.
    Free,
    /// One that somebody listens on.
    Taken,
    /// The words name it.
    Named,
}

/// A run of the server, and how it ends.
#[derive(Clone, Copy)]
pub(crate) struct Play {
    /// The words of its command line behind `cbc serve` and the port.
    pub(crate) words: &'static [&'static str],
    pub(crate) base: Base,
    /// Instead of the words: two BSCs may connect, and each port has had so much already.
    pub(crate) spent: Option<Spent>,
    /// Unless 0, instead of the words: two BSCs may connect, each is asked so many milliseconds after it was last heard of a warning how
    /// often that was broadcast, and a reply is overdue after two seconds.
    pub(crate) query_ms: u64,
    /// What is done while it runs.
    pub(crate) acts: &'static [Act],
    pub(crate) status: u8,
    /// What is answered after the acts.
    pub(crate) answers: Wanted,
    /// What is said on standard error after the acts, as `plain` gives it.
    pub(crate) said: Wanted,
}

/// A play that isn't told otherwise.
pub(crate) const USUAL: Play = Play {
    words: &[],
    base: Base::Free,
    spent: None,
    query_ms: 0,
    acts: &[],
    status: 0,
    answers: Wanted::Any,
    said: Wanted::Any,
};

/// The far ends of a server.
#[derive(Drop)]
struct Stage {
    base: u16,
    /// When the server was started, in seconds after 1970-01-01T00:00:00Z.
    begin: u64,
    /// The time noted, in milliseconds of a clock that goes on.
    noted: u64,
    lines: UnixStream,
    answers: BufReader<UnixStream>,
    said: BufReader<UnixStream>,
    peers: Vec<TcpStream>,
    /// The consoles that follow the journal.
    consoles: Vec<UnixStream>,
}

/// The next line that the reader gives.
fn next_line(rt: &impl Abort, alloc: Global, reader: &mut BufReader<UnixStream>) -> Vec<u8> {
    let mut line = Vec::new(alloc);
    reader.read_until(b'\n', &mut line).expect(rt, "a line");
    line
}

/// Types the text.
fn writes(rt: &impl Abort, stage: &mut Stage, text: &[u8]) {
    stage.lines.write_all(text).expect(rt, "lines are typed");
}

/// Types the line. The answer is whether what it is answered begins so.
fn is_answered(
    rt: &impl Abort,
    alloc: Global,
    stage: &mut Stage,
    line: &str,
    answer: &str,
) -> bool {
    writes(rt, stage, line.as_bytes());
    let answered = next_line(rt, alloc, &mut stage.answers);
    answered.starts_with(answer.as_bytes())
}

/// Types the line until its answer begins so.
fn repeats<R: Abort + Clock>(rt: &R, alloc: Global, stage: &mut Stage, line: &str, answer: &str) {
    for _ in 0..MOST_LOOKS {
        if is_answered(rt, alloc, stage, line, answer) {
            return;
        }
        thread::sleep(rt, Duration::from_millis(1));
    }
    yes(rt, false, answer);
}

/// The time, in milliseconds of a clock that goes on.
fn moment<R: Abort + Clock>(rt: &R) -> u64 {
    let now = rt.monotonic().expect(rt, "a clock").as_millis();
    u64::try_from(now).unwrap_or(u64::MAX)
}

/// Whether so many milliseconds went by since the time noted.
fn is_past<R: Abort + Clock>(rt: &R, stage: &Stage, milliseconds: u64) -> bool {
    milliseconds <= moment(rt).saturating_sub(stage.noted)
}

/// Types the lines, and passes over so many answers.
fn types_all(rt: &impl Abort, alloc: Global, stage: &mut Stage, lines: &str, answers: u32) {
    writes(rt, stage, lines.as_bytes());
    for _ in 0..answers {
        drop(next_line(rt, alloc, &mut stage.answers));
    }
}

/// Types a comment of so many octets, without its end, as far as the server reads it.
fn types_comment(stage: &mut Stage, octets: u32) {
    let piece = [b'#'; 100];
    for _ in 0..octets / 100 {
        let _ = stage.lines.write_all(&piece);
    }
    for _ in 0..octets % 100 {
        let _ = stage.lines.write_all(b"#");
    }
}

/// Types no more.
fn ends(rt: &impl Abort, stage: &Stage) {
    let ended = stage.lines.shutdown(Shutdown::Write);
    ended.expect(rt, "the lines end");
}

/// A console follows the journal: BSC 1 is ordered again until it is told of that.
fn follows_on<R: Abort + Clock + Net>(rt: &R, alloc: Global, stage: &mut Stage, path: &str) {
    let mut console = follows(rt, path);
    for _ in 0..MOST_LOOKS {
        types_all(rt, alloc, stage, "retry 1\n", 1);
        let mut octets = [0u8; 6];
        if console.read(&mut octets).is_ok() {
            yes(rt, &octets == b"entry ", "it is told of an entry");
            stage.consoles.push(console).expect(rt, "memory");
            return;
        }
    }
    yes(rt, false, path);
}

/// How often a console that follows is looked at, a fiftieth of a second each.
const MOST_TURNS: u32 = 1_000;

/// The console that followed last is shown the text.
fn sees(rt: &impl Abort, alloc: Global, stage: &mut Stage, text: &str) {
    let last = stage.consoles.len().saturating_sub(1);
    let console = stage.consoles.get_mut(last).expect(rt, "a console");
    let mut shown = Vec::new(alloc);
    for _ in 0..MOST_TURNS {
        let mut octets = [0u8; 200];
        if let Ok(count) = console.read(&mut octets) {
            shown
                .extend_from_slice(&octets[..count])
                .expect(rt, "memory");
        }
        if has(shown.as_slice(), text.as_bytes()) {
            return;
        }
    }
    yes(rt, false, text);
}

/// Passes over the lines of standard error until one has the text.
fn says(rt: &impl Abort, alloc: Global, stage: &mut Stage, text: &str) {
    for _ in 0..MOST_LOOKS {
        let line = next_line(rt, alloc, &mut stage.said);
        yes(rt, !line.is_empty(), text);
        if has(line.as_slice(), text.as_bytes()) {
            return;
        }
    }
    yes(rt, false, text);
}

/// The time, in seconds after 1970-01-01T00:00:00Z.
fn second_of<R: Abort + Clock>(rt: &R) -> u64 {
    let now = SystemTime::now(rt).expect(rt, "the time is read");
    let since = now.duration_since(SystemTime::UNIX_EPOCH);
    since.expect(rt, "a time").as_secs()
}

/// The line in which that is said at that second.
fn line_at(rt: &impl Abort, alloc: Global, second: u64, what: &str) -> String {
    let text = utc_text(second);
    let text = text.as_ref().map(|text| text.as_str());
    line_text(alloc, text, what).expect(rt, "memory")
}

/// What is said of so many ports that are listened on, from that one on.
fn listening(rt: &impl Abort, alloc: Global, port: u16, links: u16) -> String {
    let last = port.saturating_add(links).saturating_sub(1);
    let text = if links == 1 {
        format!(in alloc; "listening: 127.0.0.1:{port}")
    } else {
        format!(in alloc; "listening: 127.0.0.1:{port} to {last}")
    };
    text.expect(rt, "memory")
}

/// The next line on standard error, behind that of the start, says that so many ports are listened on, with a time from the start of the
/// server to now.
fn listens<R: Abort + Clock>(rt: &R, alloc: Global, stage: &mut Stage, links: u16) {
    says(rt, alloc, stage, "cbc: started: version ");
    let line = next_line(rt, alloc, &mut stage.said);
    let what = listening(rt, alloc, stage.base, links);
    let before = line_at(rt, alloc, stage.begin, what.as_str());
    let after = line_at(rt, alloc, second_of(rt), what.as_str());
    yes(rt, line.as_slice() >= before.as_bytes(), before.as_str());
    yes(rt, line.as_slice() <= after.as_bytes(), after.as_str());
    yes(rt, has_time(line.as_slice()), "no time");
}

/// A peer connects from that address to the port of the BSC.
fn connects(rt: &impl Abort, stage: &mut Stage, from: u8, bsc: u16) {
    let port = stage.base.saturating_add(bsc.saturating_sub(1));
    let peer = connected(rt, from, port);
    stage.peers.push(peer).expect(rt, "memory");
}

/// The peer of that number.
fn peer<'s>(rt: &impl Abort, stage: &'s mut Stage, number: usize) -> &'s mut TcpStream {
    stage.peers.get_mut(number).expect(rt, "a peer")
}

/// So often the next frame that the peer gets is of this type. It sends the octets each time.
fn answers(rt: &impl Abort, peer: &mut TcpStream, kind: u8, octets: &[u8], times: u32) {
    for _ in 0..times {
        same(rt, next_frame(rt, peer), kind, "another frame");
        sends(rt, peer, octets, 1);
    }
}

/// Does what a peer does.
fn plays<R: Abort + Clock>(rt: &R, peer: &mut TcpStream, act: &Act) {
    match act {
        Act::Sends(_, octets, times) => sends(rt, peer, octets, *times),
        Act::Fails(_, cells) => fails(rt, peer, *cells),
        Act::Stops(_) => peer.shutdown(Shutdown::Write).expect(rt, "an end"),
        Act::Gets(_, octets) => yes(rt, gets(rt, peer, octets), "other octets"),
        Act::Answers(_, kind, octets) => answers(rt, peer, *kind, octets, 1),
        Act::AnswersOften(_, kind, octets, times) => answers(rt, peer, *kind, octets, *times),
        Act::IsClosed(_) => yes(rt, is_closed(peer), "it isn't closed"),
        Act::Leaves(_) => peer.shutdown(Shutdown::Both).expect(rt, "an end"),
        _ => {}
    }
}

/// Does the act.
fn does<R: Abort + Clock + Net<Stream = TcpStream, Listener = TcpListener> + TextFiles>(
    rt: &R,
    alloc: Global,
    stage: &mut Stage,
    act: &Act,
) {
    match act {
        Act::Types(line, answer) => {
            yes(rt, is_answered(rt, alloc, stage, line, answer), answer);
        }
        Act::Repeats(line, answer) => repeats(rt, alloc, stage, line, answer),
        Act::Unlike(line, answer) => {
            let is_so = is_answered(rt, alloc, stage, line, answer);
            yes(rt, !is_so || is_past(rt, stage, HELD), answer);
        }
        Act::Notes => stage.noted = moment(rt),
        Act::Rests(milliseconds) => thread::sleep(rt, Duration::from_millis(*milliseconds)),
        Act::WaitsFor(number, least) => {
            next_frame(rt, peer(rt, stage, *number));
            yes(rt, is_past(rt, stage, *least), "it comes too soon");
        }
        Act::Lines(lines, answers) => types_all(rt, alloc, stage, lines, *answers),
        Act::Comment(octets) => types_comment(stage, *octets),
        Act::Stands(path, text) => yes(rt, rt.put(path, text), path),
        Act::Ends => ends(rt, stage),
        Act::Asks(path, line, answer) => yes(rt, is_told(rt, path, line, answer), answer),
        Act::Follows(path) => follows_on(rt, alloc, stage, path),
        Act::Sees(text) => sees(rt, alloc, stage, text),
        Act::Shows(lines) => shows(rt, alloc, lines),
        Act::Says(text) => says(rt, alloc, stage, text),
        Act::Listens(links) => listens(rt, alloc, stage, *links),
        Act::Connects(from, bsc) => connects(rt, stage, *from, *bsc),
        Act::Sends(number, _, _)
        | Act::Fails(number, _)
        | Act::Stops(number)
        | Act::Gets(number, _)
        | Act::Answers(number, _, _)
        | Act::AnswersOften(number, _, _, _)
        | Act::IsClosed(number)
        | Act::Leaves(number) => plays(rt, peer(rt, stage, *number), act),
    }
}

/// All that the reader still gives.
fn rest_of(rt: &impl Abort, alloc: Global, reader: &mut BufReader<UnixStream>) -> Vec<u8> {
    let mut rest = Vec::new(alloc);
    reader.read_to_end(&mut rest).expect(rt, "the rest is read");
    rest
}

/// Does the acts one after another, and types no more. The answer is what the server still answers and says.
fn acts_all<R: Abort + Clock + Net<Stream = TcpStream, Listener = TcpListener> + TextFiles>(
    rt: &R,
    alloc: Global,
    mut stage: Stage,
    acts: &[Act],
) -> (Vec<u8>, Vec<u8>) {
    for act in acts {
        does(rt, alloc, &mut stage, act);
    }
    ends(rt, &stage);
    let answers = rest_of(rt, alloc, &mut stage.answers);
    let said = rest_of(rt, alloc, &mut stage.said);
    (answers, said)
}

/// A port that somebody listens on, as long as the listener is there.
fn taken_port<R: Abort + Net<Stream = TcpStream, Listener = TcpListener>>(
    rt: &R,
) -> (TcpListener, u16) {
    let listener = TcpListener::bind(rt, ("127.0.0.1", 0)).expect(rt, "a port");
    let port = listener.local_addr().expect(rt, "its address").port();
    (listener, port)
}

/// A port that nobody listens on, nor on the next one.
pub(crate) fn free_port<R: Abort + Net<Stream = TcpStream, Listener = TcpListener>>(rt: &R) -> u16 {
    for _ in 0..100 {
        let (listener, port) = taken_port(rt);
        drop(listener);
        if TcpListener::bind(rt, ("127.0.0.1", port.saturating_add(1))).is_ok() {
            return port;
        }
    }
    0
}

/// The words of a command line.
pub(crate) fn words_of(rt: &impl Abort, alloc: Global, play: &Play, base: u16) -> Vec<String> {
    let mut words = Vec::new(alloc);
    for word in ["cbc", "serve"] {
        add_word(rt, alloc, &mut words, word);
    }
    if play.base != Base::Named {
        let base = format!(in alloc; "{base}").expect(rt, "memory");
        add_word(rt, alloc, &mut words, "--base");
        words.push(base).expect(rt, "memory");
    }
    for word in play.words {
        add_word(rt, alloc, &mut words, word);
    }
    words
}

fn add_word(rt: &impl Abort, alloc: Global, words: &mut Vec<String>, word: &str) {
    let word = String::from_str(alloc, word).expect(rt, "memory");
    words.push(word).expect(rt, "memory");
}

/// The options of the play's server, where words don't say them.
fn options_of<R: Abort + Clock>(
    rt: &R,
    alloc: Global,
    play: &Play,
    base: u16,
) -> Option<ServeOptions> {
    match play.spent {
        Some(spent) => {
            let then = moment(rt).saturating_add(HELD);
            let limits = spent_limits(spent, then);
            Some(limited(rt, alloc, base, limits))
        }
        None if play.query_ms != 0 => Some(asking(rt, alloc, base, play.query_ms)),
        None => None,
    }
}

/// The near ends of a server.
#[derive(Drop)]
struct Near {
    typed: BufReader<UnixStream>,
    written: UnixStream,
    errors: UnixStream,
}

/// Runs the server. The answer is its status.
fn runs<
    R: Abort
        + Clock
        + Files<File = File>
        + Net<Stream = TcpStream, Listener = TcpListener>
        + Sync
        + PeersSource
        + Threads
        + Wait,
>(rt: &R, alloc: Global, words: &[String], options: Option<&ServeOptions>, near: Near) -> u8 {
    let Near {
        typed,
        written,
        errors,
    } = near;
    match options {
        Some(options) => serve(rt, alloc, options, typed, written, errors),
        None => serve_words(rt, alloc, words, false, typed, written, errors),
    }
}

/// A stream whose first end waits for what comes no longer than a peer does.
fn stream<R: Abort + Net>(rt: &R) -> (UnixStream, UnixStream) {
    let (far, near) = UnixStream::pair(rt).expect(rt, "a stream");
    let patience = Some(Duration::from_secs(PATIENCE));
    far.set_read_timeout(patience).expect(rt, "a time");
    (far, near)
}

/// The two ends of what the server is typed, answers and says.
fn staged<R: Abort + Clock + Net>(rt: &R, alloc: Global, base: u16) -> (Stage, Near) {
    let (lines, typed) = stream(rt);
    let (answers, written) = stream(rt);
    let (said, errors) = stream(rt);
    let stage = Stage {
        base,
        begin: second_of(rt),
        noted: moment(rt),
        lines,
        answers: BufReader::new(alloc, answers).expect(rt, "memory"),
        said: BufReader::new(alloc, said).expect(rt, "memory"),
        peers: Vec::new(alloc),
        consoles: Vec::new(alloc),
    };
    let near = Near {
        typed: BufReader::new(alloc, typed).expect(rt, "memory"),
        written,
        errors,
    };
    (stage, near)
}

/// Runs the server on that port while the acts are done. The answer is its status, and what it answers and says after the acts.
fn ran<
    R: Abort
        + Clock
        + Files<File = File>
        + Net<Stream = TcpStream, Listener = TcpListener>
        + Sync
        + PeersSource
        + TextFiles
        + Threads
        + Wait,
>(rt: &R, alloc: Global, play: &Play, base: u16) -> (u8, Vec<u8>, Vec<u8>) {
    let words = words_of(rt, alloc, play, base);
    let words = words.as_slice();
    let options = options_of(rt, alloc, play, base);
    let options = options.as_ref();
    let (stage, near) = staged(rt, alloc, base);
    let acts = play.acts;
    let ((answers, said), status) = thread::join(
        rt,
        move || acts_all(rt, alloc, stage, acts),
        move || runs(rt, alloc, words, options, near),
    );
    (status, answers, said)
}

/// Runs the server while the acts are done. It ends as the play has it.
pub(crate) fn played<
    R: Abort
        + Clock
        + Files<File = File>
        + Net<Stream = TcpStream, Listener = TcpListener>
        + Sync
        + PeersSource
        + TextFiles
        + Threads
        + Wait,
>(rt: &R, alloc: Global, play: &Play) {
    let (taken, port) = taken_port(rt);
    let base = match play.base {
        Base::Free => free_port(rt),
        Base::Taken => port,
        Base::Named => 0,
    };
    let (status, answers, said) = ran(rt, alloc, play, base);
    drop(taken);
    same(rt, status, play.status, "another status");
    yes(rt, play.answers.is(answers.as_slice()), "another answer");
    let said = plain(rt, alloc, said.as_slice());
    yes(rt, play.said.is(said.as_slice()), "another thing is said");
}
