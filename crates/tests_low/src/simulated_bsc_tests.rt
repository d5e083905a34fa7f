//! What no clause says of a simulated BSC: that it answers, by worked frames; how a conversation ends; readers and writers
//! that fail at every place of a short stream.

ghost use Rattle.std.specs.Prelude.{IfOk};
ghost use Rattle.cbsp_messages.specs.Written.{Fits};

use crate::values::{same, yes};
use bsc_sim::{Bsc, Choices, SimEnd};
use cbsp_ie::{Cause, Cell, ElementId};
use cbsp_messages::{Message, MessageFault, read, write};
use framing::faulty::{EndsAtRead, FailsAfter, FailsAtRead, InPieces};
use framing::{FromRead, FromWrite, Sink, Source};
use std::alloc::{AllocError, Global};
use std::process::Abort;

/// The two RESTARTs with which a conversation begins.
const OPENING: &str = "130000080400010616000d01 130000080400010616010d01";

/// A WRITE-REPLACE of the message 1112 C000 in the cell (100, 7), up to its page.
const WRITE: &str =
    "010000700e111203c000 0400050100640007 1200 0500 06001e 070000 1301 0c0f 0104d4f29c0e";

/// A KILL of the message C000 in the cell (100, 7).
const KILL: &str = "040000100e111202c000 0400050100640007 1200";

/// The answers to the two.
const WRITTEN: &str = "020000100e111203c00004000501006400071200";

const KILLED: &str = "050000100e111202c00004000501006400071200";

/// The value of a hexadecimal digit.
fn digit(rt: &impl Abort, letter: u8) -> u8 {
    match letter {
        b'0'..=b'9' => letter - b'0',
        b'a'..=b'f' => letter - b'a' + 10,
        _ => {
            yes(rt, false, "a digit");
            0
        }
    }
}

/// Appends the octets of a hexadecimal text, in which spaces don't count.
fn add_octets(rt: &impl Abort, text: &str, octets: &mut Vec<u8>) {
    let mut high = None;
    for letter in text.as_bytes() {
        if *letter != b' ' {
            let value = digit(rt, *letter);
            match high {
                None => high = Some(value),
                Some(first) => {
                    octets
                        .push(first % 16 * 16 + value % 16)
                        .expect(rt, "memory");
                    high = None;
                }
            }
        }
    }
}

/// How many zeros stand behind a frame: what the page of a WRITE-REPLACE leaves unused, or the Warning Security Information.
fn zeros_behind(frame: &str) -> usize {
    if frame.as_bytes().ends_with(b"0104d4f29c0e") {
        return 78;
    }
    if frame.as_bytes().ends_with(b"1700 11") {
        return 50;
    }
    0
}

/// Appends a frame, and the zeros behind it.
fn add_frame(rt: &impl Abort, frame: &str, octets: &mut Vec<u8>) {
    add_octets(rt, frame, octets);
    for _ in 0..zeros_behind(frame) {
        octets.push(0).expect(rt, "memory");
    }
}

/// The octets of these frames.
fn stream(rt: &impl Abort, alloc: Global, frames: &[&str]) -> Vec<u8> {
    let mut octets = Vec::new(alloc);
    for frame in frames {
        add_frame(rt, frame, &mut octets);
    }
    octets
}

/// The octets of the opening and of these replies.
fn due(rt: &impl Abort, alloc: Global, replies: &[&str]) -> Vec<u8> {
    let mut octets = Vec::new(alloc);
    add_octets(rt, OPENING, &mut octets);
    for reply in replies {
        add_octets(rt, reply, &mut octets);
    }
    octets
}

/// A conversation over these frames ends so, and writes the opening and these replies.
fn converses(
    rt: &impl Abort,
    alloc: Global,
    bsc: &mut Bsc,
    choices: &Choices,
    frames: &[&str],
    end: SimEnd,
    replies: &[&str],
) {
    let octets = stream(rt, alloc, frames);
    let mut reader = FromRead::new(octets.as_slice());
    let mut writer = FromWrite::new(Vec::new(alloc));
    let ended = bsc.run(&mut reader, &mut writer, choices);
    same(rt, &ended, &end, "the end of a conversation");
    let wrote = writer.into_inner();
    let due = due(rt, alloc, replies);
    yes(rt, wrote.as_slice() == due.as_slice(), "the replies");
}

/// A BSC with the cells (100, 7) and (100, 9).
fn seven_and_nine(rt: &impl Abort, alloc: Global) -> Bsc {
    let cells = [Cell { lac: 100, ci: 7 }, Cell { lac: 100, ci: 9 }];
    Bsc::new(alloc, &cells).expect(rt, "memory")
}

#[test]
fn a_second_write_of_a_message_is_refused(rt: HostRuntime) {
    let alloc = rt.alloc();
    let mut bsc = Bsc::new(alloc, &[Cell { lac: 100, ci: 7 }]).expect(&rt, "memory");
    runs_twice(&rt, alloc, &mut bsc);
}

/// What was on air in the first conversation isn't in the second.
fn runs_twice(rt: &impl Abort, alloc: Global, bsc: &mut Bsc) {
    let again = "030000110e111203c00009000601006400070d1200";
    let choices = Choices::none(alloc);
    let replies = [WRITTEN, again];
    let ended = SimEnd::PeerEnded;
    converses(rt, alloc, bsc, &choices, &[WRITE, WRITE], ended, &replies);
    converses(rt, alloc, bsc, &choices, &[WRITE, WRITE], ended, &replies);
}

/// C001 in place of C000.
const REPLACE: &str =
    "010000730e111203c00102c000 0400050100640007 1200 0500 06001e 070000 1301 0c0f 0104d4f29c0e";

const KILL_NEWER: &str = "040000100e111202c001 0400050100640007 1200";

/// Whether C000 is on air in the cell (100, 7), and the answers.
const QUERY: &str = "0a0000100e111202c000 0400050100640007 1200";

const ABSENT: &str = "0c0000110e111202c000 090006010064000702 1200";

const THERE: &str = "0b00000c0e111202c000 08000101 1200";

/// A WRITE-REPLACE in the cells (100, 7), (100, 8) and (100, 9).
const WIDE: &str =
    "010000780e111203c000 04000d01006400070064000800640009 1200 0500 06001e 070000 1301 0c0f 0104d4f29c0e";

/// An ERROR INDICATION: the message isn't recognised. The second answers what names no channel, or is no order.
const NOT_UNDERSTOOD: &str = "150000040b04 1200";

const NOT_UNDERSTOOD_EITHER: &str = "150000020b04";

/// Frames to a BSC with the cells (100, 7) and (100, 9), and its replies.
const SCENARIOS: [(&[&str], &[&str]); 6] = [
    // a RESET takes what is on air off, and a KEEP ALIVE changes nothing
    (
        &[WRITE, "1000000404000106", KILL, WRITE, "160000021805", KILL],
        &[
            WRITTEN,
            "1100000404000106",
            "060000110e111202c000 090006010064000702 1200",
            WRITTEN,
            "17000000",
            KILLED,
        ],
    ),
    // a replace takes the older message off
    (
        &[REPLACE, WRITE, REPLACE, KILL, REPLACE, KILL_NEWER, REPLACE],
        &[
            "030000140e111203c00102c000 090006010064000702 1200",
            WRITTEN,
            "020000130e111203c00102c000 0400050100640007 1200",
            "060000110e111202c000 090006010064000702 1200",
            "030000140e111203c00102c000 09000601006400070d 1200",
            "050000100e111202c001 0400050100640007 1200",
            "030000140e111203c00102c000 090006010064000702 1200",
        ],
    ),
    // a query changes nothing
    (
        &[QUERY, WRITE, QUERY, QUERY, KILL, QUERY],
        &[ABSENT, WRITTEN, THERE, THERE, KILLED, ABSENT],
    ),
    // a cell of another controller fails alone
    (
        &[WIDE],
        &["0300001d0e111203c000 090006010064000803 0400090100640007 00640009 1200"],
    ),
    // a cell may be named twice
    (
        &[
            "010000740e111203c000 0400090100640007 00640007 1200 0500 06001e 070000 1301 0c0f 0104d4f29c0e",
            "040000140e111202c000 0400090100640007 00640007 1200",
        ],
        &[
            "030000190e111203c000 09000601006400070d 0400050100640007 1200",
            "060000190e111202c000 090006010064000702 0400050100640007 1200",
        ],
    ),
    // what is not an order in cells is not understood: a list by location area, with a channel, without one, and of an emergency
    // message; a reply; two RESTARTs; a list of no cell is an order
    (
        &[
            "0400000e0e111202c000 040003050064 1200",
            "0400000c0e111202c000 040003050064",
            "010000460e1100034000 040003050064 0f01 100580 1700 11",
            WRITTEN,
            "0400000c0e111202c000 04000101 1200",
            OPENING,
        ],
        &[
            NOT_UNDERSTOOD,
            NOT_UNDERSTOOD_EITHER,
            NOT_UNDERSTOOD_EITHER,
            NOT_UNDERSTOOD_EITHER,
            "050000080e111202c000 1200",
            NOT_UNDERSTOOD_EITHER,
            NOT_UNDERSTOOD_EITHER,
        ],
    ),
];

#[test]
fn scenarios_are_answered(rt: HostRuntime) {
    let choices = Choices::none(rt.alloc());
    for (frames, replies) in &SCENARIOS {
        answers(&rt, rt.alloc(), &choices, frames, replies);
    }
}

/// A BSC with the cells (100, 7) and (100, 9) answers so.
fn answers(rt: &impl Abort, alloc: Global, choices: &Choices, frames: &[&str], replies: &[&str]) {
    let mut bsc = seven_and_nine(rt, alloc);
    let ended = SimEnd::PeerEnded;
    converses(rt, alloc, &mut bsc, choices, frames, ended, replies);
}

/// Causes for (100, 7) and (100, 8), and numbers for (100, 7) and (100, 9). Of two for one cell the first holds.
fn choices(rt: &impl Abort, alloc: Global) -> Choices {
    let seven = Cell { lac: 100, ci: 7 };
    let eight = Cell { lac: 100, ci: 8 };
    let nine = Cell { lac: 100, ci: 9 };
    let causes = [
        (seven, Cause::CELL_MEMORY_EXCEEDED),
        (eight, Cause::CELL_BROADCAST_NOT_OPERATIONAL),
        (seven, Cause::UNSPECIFIED_ERROR),
    ];
    let counts = [(seven, 5), (nine, 258), (nine, 1)];
    Choices::new(
        Vec::from_slice(alloc, &causes).expect(rt, "memory"),
        Vec::from_slice(alloc, &counts).expect(rt, "memory"),
    )
}

#[test]
fn causes_and_numbers_are_chosen(rt: HostRuntime) {
    let chosen = choices(&rt, rt.alloc());
    let frames = [
        WIDE,
        "0a0000180e111202c000 04000d01006400070064000800640009 1200",
        "0a0000100e111202c000 0400050100640009 1200",
    ];
    let replies = [
        "0300002a0e111203c000 09000c010064000707 01006400080a 0800080100640009010200 0400050100640009 1200",
        "0c0000220e111202c000 09000c010064000707 01006400080a 0800080100640009010200 1200",
        "0b0000130e111202c000 0800080100640009010200 1200",
    ];
    answers(&rt, rt.alloc(), &chosen, &frames, &replies);
}

/// Answers the message with this type and body. The octets of the answer's frame.
fn answered(
    rt: &impl Abort,
    alloc: Global,
    bsc: &mut Bsc,
    choices: &Choices,
    kind: u8,
    body: &[u8],
) -> Vec<u8> {
    let message = read(alloc, kind, body).expect(rt, "the message is read");
    let reply = bsc.answer(&message, choices);
    drop(message);
    frame_of(rt, alloc, reply)
}

/// The octets of a message's frame.
fn frame_of(rt: &impl Abort, alloc: Global, message: Result<Message, AllocError>) -> Vec<u8>
    requires { IfOk message (λ message. Fits message) }
{
    let message = message.expect(rt, "memory");
    let octets = write(alloc, &message);
    drop(message);
    octets.expect(rt, "memory")
}

/// The body of a KILL in so many cells.
fn kill_body(rt: &impl Abort, alloc: Global, cells: u16) -> Vec<u8> {
    let mut octets = Vec::new(alloc);
    add_octets(rt, "0e111202c00004", &mut octets);
    let [high, low] = cells.wrapping_mul(4).wrapping_add(1).to_be_bytes();
    add_all(rt, &[high, low, 0x01], &mut octets);
    for ci in 0..cells {
        let [high, low] = ci.to_be_bytes();
        add_all(rt, &[0, 1, high, low], &mut octets);
    }
    add_all(rt, &[0x12, 0x00], &mut octets);
    octets
}

fn add_all(rt: &impl Abort, more: &[u8], octets: &mut Vec<u8>) {
    octets.extend_from_slice(more).expect(rt, "memory");
}

/// The answer to a KILL in so many cells is of the type, and its frame has so many octets.
fn kill_is_answered(rt: &impl Abort, alloc: Global, cells: u16, kind: u8, octets: usize) {
    let choices = Choices::none(alloc);
    let body = kill_body(rt, alloc, cells);
    let mut bsc = Bsc::any(alloc);
    let frame = answered(rt, alloc, &mut bsc, &choices, 0x04, body.as_slice());
    yes(rt, frame.first() == Some(&kind), "the type of the answer");
    yes(rt, frame.len() == octets, "its length");
}

#[test]
fn an_order_in_9000_cells_is_carried_out(rt: HostRuntime) {
    // a KILL FAILURE, and an ERROR INDICATION
    kill_is_answered(&rt, rt.alloc(), 9000, 0x06, 54_015);
    kill_is_answered(&rt, rt.alloc(), 9001, 0x15, 8);
}

/// Frames to a BSC of every cell, the end of the conversation, and its replies.
const ENDS: [(&[&str], SimEnd, &[&str]); 6] = [
    (&[], SimEnd::PeerEnded, &[]),
    (&[KILL, "04000010"], SimEnd::CutFrame, &[KILL_REFUSED]),
    (&["02040000", KILL], SimEnd::CutFrame, &[]),
    (
        &["040000060e11120e1112", KILL],
        SimEnd::BadMessage(MessageFault::Repeated {
            id: ElementId::MessageIdentifier,
        }),
        &[],
    ),
    (
        &[KILL, "07000000"],
        SimEnd::BadMessage(MessageFault::NotInProfile),
        &[KILL_REFUSED],
    ),
    (&[KILL, "02040001"], SimEnd::TooLong, &[KILL_REFUSED]),
];

/// A conversation with a BSC of every cell ends so.
fn ends(rt: &impl Abort, alloc: Global, frames: &[&str], end: SimEnd, replies: &[&str]) {
    let mut bsc = Bsc::any(alloc);
    let choices = Choices::none(alloc);
    converses(rt, alloc, &mut bsc, &choices, frames, end, replies);
}

#[test]
fn each_conversation_ends_by_its_cause(rt: HostRuntime) {
    for (frames, end, replies) in &ENDS {
        ends(&rt, rt.alloc(), frames, *end, replies);
    }
}

/// The answer to the KILL where the message isn't on air.
const KILL_REFUSED: &str = "060000110e111202c000 090006010064000702 1200";

/// Frames to a BSC of every cell, of so many octets. After how many octets each is whole, and its answer; one without an answer can't
/// be read.
struct Heard {
    frames: &'static [&'static str],
    octets: u8,
    answers: &'static [(u8, Option<&'static str>)],
}

const HEARD: [Heard; 2] = [
    Heard {
        frames: &[WRITE, KILL],
        octets: 136,
        answers: &[(116, Some(WRITTEN)), (136, Some(KILLED))],
    },
    // a reply, a type that is not in use, and a RESTART, which is not read
    Heard {
        frames: &[WRITTEN, "08000002aabb", "130000080400010616000d01"],
        octets: 38,
        answers: &[(20, Some(NOT_UNDERSTOOD_EITHER)), (26, None)],
    },
];

/// The end of a conversation with a BSC of every cell.
fn end_of(alloc: Global, reader: &mut impl Source, writer: &mut impl Sink) -> SimEnd {
    let mut bsc = Bsc::any(alloc);
    let choices = Choices::none(alloc);
    bsc.run(reader, writer, &choices)
}

/// The answers to the frames that are whole after so many octets.
fn due_after(rt: &impl Abort, alloc: Global, heard: &Heard, octets: u8) -> Vec<u8> {
    let mut replies = due(rt, alloc, &[]);
    for (whole, answer) in heard.answers {
        if let Some(answer) = answer {
            if *whole <= octets {
                add_octets(rt, answer, &mut replies);
            }
        }
    }
    replies
}

/// How a conversation has ended after so many octets, if it has.
fn ended_after(heard: &Heard, octets: u8) -> Option<SimEnd> {
    for (whole, answer) in heard.answers {
        if answer.is_none() && *whole <= octets {
            return Some(SimEnd::BadMessage(MessageFault::NotInProfile));
        }
    }
    None
}

/// How a conversation ends where the stream does after so many octets.
fn cut_after(heard: &Heard, octets: u8) -> SimEnd {
    for (whole, _) in heard.answers {
        if *whole == octets {
            return SimEnd::PeerEnded;
        }
    }
    if octets == 0 {
        SimEnd::PeerEnded
    } else {
        SimEnd::CutFrame
    }
}

/// A conversation over the reader, which gives so many octets and then ends it so, writes the answers to the frames that are whole
/// then.
fn came<R: Source>(
    rt: &impl Abort,
    alloc: Global,
    heard: &Heard,
    reader: &mut R,
    count: u8,
    end: SimEnd,
) {
    let mut writer = FromWrite::new(Vec::new(alloc));
    let ended = end_of(alloc, reader, &mut writer);
    let end = ended_after(heard, count).unwrap_or(end);
    same(rt, &ended, &end, "the end after some octets");
    let replies = due_after(rt, alloc, heard, count);
    let wrote = writer.into_inner();
    yes(rt, wrote.as_slice() == replies.as_slice(), "the replies");
}

/// A read fails after so many octets, each read alone; or the stream ends there.
fn fails_or_ends_after(rt: &impl Abort, alloc: Global, heard: &Heard, octets: &[u8], count: u8) {
    let read = u64::from(count) + 1;
    let source = InPieces::new(FromRead::new(octets), 1);
    let mut fails = FailsAtRead::new(source, read);
    came(rt, alloc, heard, &mut fails, count, SimEnd::ReadFault);
    let source = InPieces::new(FromRead::new(octets), 1);
    let mut ends = EndsAtRead::new(source, read);
    came(rt, alloc, heard, &mut ends, count, cut_after(heard, count));
}

/// The frames are heard, an octet at each read.
fn hears(rt: &impl Abort, alloc: Global, heard: &Heard) {
    let octets = stream(rt, alloc, heard.frames);
    yes(rt, octets.len() == usize::from(heard.octets), "the octets");
    for count in 0..=heard.octets {
        fails_or_ends_after(rt, alloc, heard, &octets, count);
    }
}

#[test]
fn reads_that_fail_or_end_keep_the_answers_before(rt: HostRuntime) {
    for heard in &HEARD {
        hears(&rt, rt.alloc(), heard);
    }
}

/// A writer takes so many octets of those that are due, one at a time.
fn takes(rt: &impl Abort, alloc: Global, octets: &[u8], room: usize, due: &[u8]) {
    let sink = InPieces::new(FromWrite::new(Vec::new(alloc)), 1);
    let mut writer = FailsAfter::new(sink, room);
    let mut reader = FromRead::new(octets);
    let ended = end_of(alloc, &mut reader, &mut writer);
    let end = if room == due.len() {
        SimEnd::PeerEnded
    } else {
        SimEnd::WriteFault
    };
    same(rt, &ended, &end, "the end where room is left or not");
    let wrote = writer.into_inner().into_inner().into_inner();
    yes(rt, Some(wrote.as_slice()) == due.get(..room), "the replies");
}

#[test]
fn writers_that_fail_have_taken_what_came_before(rt: HostRuntime) {
    let octets = stream(&rt, rt.alloc(), &[WRITE, KILL]);
    let all = due(&rt, rt.alloc(), &[WRITTEN, KILLED]);
    yes(&rt, all.len() == 64, "the length of the replies");
    for room in 0..=64 {
        takes(&rt, rt.alloc(), &octets, room, &all);
    }
}

/// The frame is this.
fn is_frame(rt: &impl Abort, octets: &[u8], alloc: Global, frame: &str) {
    let want = stream(rt, alloc, &[frame]);
    yes(rt, octets == want.as_slice(), frame);
}

#[test]
fn indications_are_sent(rt: HostRuntime) {
    let alloc = rt.alloc();
    let seven = [Cell { lac: 100, ci: 7 }];
    let mut bsc = Bsc::new(alloc, &seven).expect(&rt, "memory");
    indicates(&rt, alloc, &mut bsc, &seven);
    for (end, number) in &[(SimEnd::PeerEnded, 1), (SimEnd::Memory, 7)] {
        yes(&rt, end.number() == *number, "the number of an end");
    }
}

/// A FAILURE of the cell (100, 7), and both RESTARTs.
fn indicates(rt: &impl Abort, alloc: Global, bsc: &mut Bsc, seven: &[Cell; 1]) {
    let cause = Cause::CELL_BROADCAST_NOT_OPERATIONAL;
    let failure = frame_of(rt, alloc, bsc.fail(seven, cause));
    is_frame(rt, &failure, alloc, "1400000b09000601006400070a1600");
    let kept = frame_of(rt, alloc, bsc.restart(false));
    is_frame(rt, &kept, alloc, "130000080400010616000d00");
    let lost = frame_of(rt, alloc, bsc.restart(true));
    is_frame(rt, &lost, alloc, "130000080400010616000d01");
}

/// The body of a query of the message C000 in the cell (100, 7).
const QUERY_BODY: [u8; 16] = [
    0x0e, 0x11, 0x12, 0x02, 0xc0, 0x00, 0x04, 0x00, 0x05, 0x01, 0x00, 0x64, 0x00, 0x07, 0x12, 0x00,
];

/// The query is answered by this type.
fn query_is_answered(rt: &impl Abort, alloc: Global, bsc: &mut Bsc, kind: u8) {
    let choices = Choices::none(alloc);
    let frame = answered(rt, alloc, bsc, &choices, 0x0a, &QUERY_BODY);
    yes(rt, frame.first() == Some(&kind), "the type of the answer");
}

/// A QUERY COMPLETE for as long as the message is on air, and then a QUERY FAILURE.
#[test]
fn a_restart_with_data_lost_takes_messages_off(rt: HostRuntime) {
    let alloc = rt.alloc();
    let mut bsc = Bsc::any(alloc);
    let choices = Choices::none(alloc);
    let ended = SimEnd::PeerEnded;
    converses(&rt, alloc, &mut bsc, &choices, &[WRITE], ended, &[WRITTEN]);
    is_taken_off(&rt, alloc, &mut bsc);
}

fn is_taken_off(rt: &impl Abort, alloc: Global, bsc: &mut Bsc) {
    query_is_answered(rt, alloc, bsc, 0x0b);
    drop(bsc.restart(false).expect(rt, "memory"));
    query_is_answered(rt, alloc, bsc, 0x0b);
    drop(bsc.restart(true).expect(rt, "memory"));
    query_is_answered(rt, alloc, bsc, 0x0c);
}
