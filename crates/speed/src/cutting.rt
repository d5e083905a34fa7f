//! Speed of cutting a stream into frames.

use crate::stopwatch::Stopwatch;
use anyhow::{Result, ensure};
use framing::Framer;
use std::alloc::{AllocError, Global};
use std::rt::Clock;

/// The octets of a piece of the stream.
const PIECES: [usize; 3] = [1, 7, 4_096];

/// Cuts a stream of at least so many octets of short frames, and one of long frames, in pieces of each size, and
/// answers the figures.
pub fn rounds(
    rt: &(impl Clock + AllocGlobal),
    octets: usize,
    long_frame: usize,
) -> Result<Vec<String>> {
    let mut figures = Vec::new(rt.alloc());
    for frame in [30, long_frame] {
        add_figures(rt, frame, octets, &mut figures)?;
    }
    Ok(figures)
}

/// Puts the figures of a stream of frames of that size last.
fn add_figures(
    rt: &(impl Clock + AllocGlobal),
    frame: usize,
    octets: usize,
    figures: &mut Vec<String>,
) -> Result<()> {
    let (stream, count) = stream_of(rt.alloc(), frame, octets)?;
    for piece in &PIECES {
        figures.push(figure(rt, frame, stream.as_slice(), *piece, count)?)?;
    }
    Ok(())
}

/// The figure of the stream, which is cut in pieces of that size and has so many frames.
fn figure(
    rt: &(impl Clock + AllocGlobal),
    frame: usize,
    stream: &[u8],
    piece: usize,
    count: u64,
) -> Result<String> {
    let stopwatch = Stopwatch::start(rt)?;
    let frames = cut(rt.alloc(), stream, piece)?;
    let time = stopwatch.picoseconds_each(rt, stream.len() as u64)?;
    ensure!(frames == count, "other frames are cut");
    Ok(format!(in rt.alloc();
        "frames of {frame} octets in pieces of {piece}: {time} picoseconds an octet"
    )?)
}

/// A stream of frames of the size with at least so many octets, and how many frames it has.
fn stream_of(alloc: Global, frame: usize, octets: usize) -> Result<(Vec<u8>, u64), AllocError> {
    let [_, _, _, _, _, high, middle, low] = (frame.saturating_sub(4) as u64).to_be_bytes();
    let mut one = Vec::new(alloc);
    one.extend_from_slice(&[0x02, high, middle, low])?;
    one.resize(frame, 0x55)?;
    let mut stream = Vec::new(alloc);
    let mut count = 0u64;
    for _ in 0..octets {
        if stream.len() >= octets {
            break;
        }
        stream.extend_from_slice(one.as_slice())?;
        count = count.saturating_add(1);
    }
    Ok((stream, count))
}

/// Cuts the stream in pieces of the size, and answers how many frames it has.
fn cut(alloc: Global, stream: &[u8], piece: usize) -> Result<u64> {
    let mut framer = Framer::new(alloc);
    let mut count = 0u64;
    for piece in stream.chunks(piece.max(1)) {
        framer.feed(piece)?;
        for _ in 0..u64::MAX {
            if framer.next().is_none() {
                break;
            }
            count = count.saturating_add(1);
        }
    }
    ensure!(framer.rest() == 0, "octets are left over");
    Ok(count)
}
