//! What no clause says: the frames of one stream however it comes, and streams that fail, end early or are interrupted.

ghost use Rattle.std.specs.Prelude.{◌≤◌};

use crate::values::{same, yes};
use framing::faulty::{EndsAtRead, FailsAfter, FailsAtRead, InPieces};
use framing::{Failed, FrameFault, Framer, FromRead, FromWrite, Sink, Source, write_all};
use std::alloc::Global;
use std::io;
use std::io::{ErrorKind, Read, Write};
use std::process::Abort;

/// A WRITE-REPLACE COMPLETE, a type that is not in use, and a RESTART, one after another.
const STREAM: [u8; 38] = [
    0x02, 0x00, 0x00, 0x10, 0x0e, 0x11, 0x12, 0x03, 0xc0, 0x00, 0x04, 0x00, 0x05, 0x01, 0x00, 0x64,
    0x00, 0x07, 0x12, 0x00, 0x08, 0x00, 0x00, 0x02, 0xaa, 0xbb, 0x13, 0x00, 0x00, 0x08, 0x04, 0x00,
    0x01, 0x06, 0x16, 0x00, 0x0d, 0x01,
];

/// The type of each of its frames, and where its body begins and ends.
const FRAMES: [(u8, usize, usize); 3] = [(0x02, 4, 20), (0x08, 24, 26), (0x13, 30, 38)];

/// The frames of the stream in their order, and then none.
fn gives_the_stream(rt: &impl Abort, framer: &mut Framer) {
    for (kind, begin, end) in &FRAMES {
        let frame = framer.next().expect(rt, "a frame");
        yes(rt, frame.kind == *kind, "the type of a frame");
        let body = STREAM.get(*begin..*end);
        yes(rt, Some(frame.body.as_slice()) == body, "its body");
    }
    waits(rt, framer, 0);
}

fn feed(rt: &impl Abort, framer: &mut Framer, octets: &[u8]) {
    same(rt, &framer.feed(octets), &Ok(()), "octets are fed");
}

/// The stream is fed in three pieces, cut at these places.
fn is_cut(rt: &impl Abort, alloc: Global, first: usize, second: usize)
    requires ordered { first ≤ second }
    requires within { second ≤ 38 }
{
    let mut framer = Framer::new(alloc);
    feed(rt, &mut framer, &STREAM[..first]);
    feed(rt, &mut framer, &STREAM[first..second]);
    feed(rt, &mut framer, &STREAM[second..]);
    gives_the_stream(rt, &mut framer);
}

#[test]
fn the_frames_are_the_same_however_the_stream_is_cut(rt: HostRuntime) {
    for first in 0..=STREAM.len() {
        for second in first..=STREAM.len() {
            is_cut(&rt, rt.alloc(), first, second);
        }
    }
    let mut framer = Framer::new(rt.alloc());
    for octet in &STREAM {
        feed(&rt, &mut framer, &[*octet]);
    }
    gives_the_stream(&rt, &mut framer);
}

/// The frame that is begun is refused, and so are these octets.
fn is_too_long(rt: &impl Abort, framer: &mut Framer, octets: &[u8]) {
    let too_long = FrameFault::TooLong { length: 262_145 };
    same(rt, &framer.feed(octets), &Err(too_long), "it is too long");
    yes(rt, framer.rest() == 4, "four octets are left");
}

/// No frame is ready, and so many octets wait for the rest of theirs.
fn waits(rt: &impl Abort, framer: &mut Framer, rest: usize) {
    yes(rt, framer.next().is_none(), "no frame is ready");
    yes(rt, framer.rest() == rest, "octets that wait");
}

fn a_longer_body_is_refused(rt: &impl Abort, alloc: Global) {
    let mut framer = Framer::new(alloc);
    feed(rt, &mut framer, &STREAM[..20]);
    feed(rt, &mut framer, &[0x02, 0x04, 0x00]);
    is_too_long(rt, &mut framer, &[0x01, 0x0e]);
    is_too_long(rt, &mut framer, &STREAM);
    let frame = framer.next().expect(rt, "the frame before");
    yes(rt, frame.kind == 0x02, "its type");
    waits(rt, &mut framer, 4);
    is_too_long(rt, &mut framer, &[]);
}

fn the_longest_body_is_read(rt: &impl Abort, alloc: Global) {
    let mut framer = Framer::new(alloc);
    feed(rt, &mut framer, &[0x02, 0x04, 0x00, 0x00]);
    waits(rt, &mut framer, 4);
    let piece = [0x55; 4096];
    for _ in 0..64 {
        yes(rt, framer.next().is_none(), "it isn't whole yet");
        feed(rt, &mut framer, &piece);
    }
    let frame = framer.next().expect(rt, "the longest frame");
    yes(rt, frame.body.as_slice().len() == 262_144, "its length");
    yes(rt, framer.rest() == 0, "nothing is left");
}

#[test]
fn a_body_is_read_up_to_262144_octets(rt: HostRuntime) {
    a_longer_body_is_refused(&rt, rt.alloc());
    the_longest_body_is_read(&rt, rt.alloc());
}

/// Reads to the end, or to a failure.
fn read_octets(source: &mut impl Source, gave: &mut Vec<u8>) -> Result<(), Failed> {
    let mut buffer = [0u8; 16];
    for _ in 0..100 {
        let count = source.read(&mut buffer)?;
        if count == 0 {
            return Ok(());
        }
        for octet in &buffer[..count] {
            let _ = gave.push(*octet);
        }
    }
    Ok(())
}

/// Reading on ends so, and these octets have come by then.
fn reads(
    rt: &impl Abort,
    source: &mut impl Source,
    gave: &mut Vec<u8>,
    ended: Result<(), Failed>,
    octets: &[u8],
) {
    same(rt, &read_octets(source, gave), &ended, "reading on");
    yes(rt, gave.as_slice() == octets, "the octets that came");
}

fn a_source_fails(rt: &impl Abort, alloc: Global, octets: &[u8; 5]) {
    let mut source = FailsAtRead::new(InPieces::new(FromRead::new(octets.as_slice()), 2), 2);
    let mut gave = Vec::new(alloc);
    reads(rt, &mut source, &mut gave, Err(Failed), &[1, 2]);
    reads(rt, &mut source, &mut gave, Ok(()), octets);
}

fn a_source_ends(rt: &impl Abort, alloc: Global, octets: &[u8; 5]) {
    let mut source = EndsAtRead::new(InPieces::new(FromRead::new(octets.as_slice()), 1), 4);
    let mut gave = Vec::new(alloc);
    reads(rt, &mut source, &mut gave, Ok(()), &[1, 2, 3]);
    reads(rt, &mut source, &mut gave, Ok(()), &[1, 2, 3]);
}

#[test]
fn sources_of_a_test_fail_and_end_where_they_are_told(rt: HostRuntime) {
    let octets = [1, 2, 3, 4, 5];
    a_source_fails(&rt, rt.alloc(), &octets);
    a_source_ends(&rt, rt.alloc(), &octets);
}

/// Writing all of these octets ends so.
fn writes(rt: &impl Abort, sink: &mut impl Sink, octets: &[u8], ended: Result<(), Failed>) {
    same(rt, &write_all(sink, octets), &ended, "writing all");
}

/// Four octets are written, and no octet after the tenth.
fn writes_ten(rt: &impl Abort, sink: &mut impl Sink) {
    writes(rt, sink, &STREAM[..4], Ok(()));
    writes(rt, sink, &STREAM[4..], Err(Failed));
    same(rt, &sink.write(&[1]), &Err(Failed), "a write after it");
}

#[test]
fn a_front_is_written_where_a_write_fails(rt: HostRuntime) {
    let room = Vec::with_capacity(rt.alloc(), STREAM.len()).expect(&rt, "memory");
    let mut sink = FailsAfter::new(InPieces::new(FromWrite::new(room), 3), 10);
    writes_ten(&rt, &mut sink);
    let wrote = sink.into_inner().into_inner().into_inner();
    yes(&rt, wrote.as_slice() == &STREAM[..10], "the octets written");
}

/// A stream whose first calls fail, all for one cause.
#[derive(Drop)]
struct Disturbed {
    calls_left: u8,
    cause: ErrorKind,
}

impl Disturbed {
    fn call(&mut self) -> io::Result<()> {
        if self.calls_left == 0 {
            return Ok(());
        }
        self.calls_left -= 1;
        Err(self.cause.into())
    }
}

impl Read for Disturbed {
    fn read(&mut self, buf: &mut [u8]) -> io::Result<usize> {
        self.call()?;
        Ok(buf.len())
    }
}

impl Write for Disturbed {
    fn write(&mut self, buf: &[u8]) -> io::Result<usize> {
        self.call()?;
        Ok(buf.len())
    }

    fn flush(&mut self) -> io::Result<()> {
        Ok(())
    }
}

/// A read and a write that are disturbed so both answer that.
fn is_disturbed(rt: &impl Abort, calls_left: u8, cause: ErrorKind, want: Result<usize, Failed>) {
    let mut source = FromRead::new(Disturbed { calls_left, cause });
    same(rt, &source.read(&mut [0]), &want, "a read");
    let mut sink = FromWrite::new(Disturbed { calls_left, cause });
    same(rt, &sink.write(&[0]), &want, "a write");
}

#[test]
fn an_interrupted_call_is_made_again(rt: HostRuntime) {
    is_disturbed(&rt, 3, ErrorKind::Interrupted, Ok(1));
    is_disturbed(&rt, 1, ErrorKind::ConnectionReset, Err(Failed));
}
