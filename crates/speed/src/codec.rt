//! Speed of reading and writing messages.

use crate::codec_frames::{long_complete, long_write};
use crate::stopwatch::Stopwatch;
use anyhow::{Result, bail, ensure};
use cbsp_messages::{Message, MessageFault, read, write};
use std::alloc::Global;
use std::rt::Clock;

/// Reads each message and writes it, again and again until that is nearly so many octets and at least once, and
/// answers the figures.
pub fn rounds(rt: &(impl Clock + AllocGlobal), octets: u64) -> Result<Vec<String>> {
    let mut figures = Vec::new(rt.alloc());
    figures.push(complete_figure(rt, octets)?)?;
    figures.push(order_figure(rt, octets)?)?;
    Ok(figures)
}

fn complete_figure(rt: &(impl Clock + AllocGlobal), octets: u64) -> Result<String> {
    let message = long_complete(rt.alloc())?;
    let said = figure(rt, "WRITE-REPLACE COMPLETE", &message, octets);
    drop(message);
    said
}

fn order_figure(rt: &(impl Clock + AllocGlobal), octets: u64) -> Result<String> {
    let message = long_write(rt.alloc())?;
    let said = figure(rt, "WRITE-REPLACE", &message, octets);
    drop(message);
    said
}

fn figure(
    rt: &(impl Clock + AllocGlobal),
    name: &str,
    message: &Message,
    octets: u64,
) -> Result<String> {
    ensure!(message.fits(), "the message can't be written");
    let frame = write(rt.alloc(), message)?;
    let said = figure_of(rt, name, message, frame.as_slice(), octets);
    drop(frame);
    said
}

/// The figure of a message that is written as this frame.
fn figure_of(
    rt: &(impl Clock + AllocGlobal),
    name: &str,
    message: &Message,
    frame: &[u8],
    octets: u64,
) -> Result<String> {
    let length = frame.len() as u64;
    let count = octets.checked_div(length).unwrap_or(0).max(1);
    let read_rate = rate_of_reading(rt, message, frame, count)?;
    let write_rate = rate_of_writing(rt, message, frame, count)?;
    Ok(format!(in rt.alloc();
        "{name} of {length} octets: {read_rate} million octets a second read, {write_rate} written"
    )?)
}

/// Millions of octets a second that are read, where the frame is read so many times.
fn rate_of_reading(
    rt: &(impl Clock + AllocGlobal),
    message: &Message,
    frame: &[u8],
    count: u64,
) -> Result<u64> {
    let stopwatch = Stopwatch::start(rt)?;
    read_often(rt.alloc(), frame, message, count)?;
    Ok(stopwatch.rate(rt, (frame.len() as u64).saturating_mul(count))?)
}

/// Millions of octets a second that are written, where the message is written so many times.
fn rate_of_writing(
    rt: &(impl Clock + AllocGlobal),
    message: &Message,
    frame: &[u8],
    count: u64,
) -> Result<u64> {
    let stopwatch = Stopwatch::start(rt)?;
    write_often(rt.alloc(), message, frame, count)?;
    Ok(stopwatch.rate(rt, (frame.len() as u64).saturating_mul(count))?)
}

/// Whether the body is read as a message of that type.
fn is_of_type(
    alloc: Global,
    kind: u8,
    body: &[u8],
    message: &Message,
) -> Result<bool, MessageFault> {
    let again = read(alloc, kind, body)?;
    let is_same = again.message_type() == message.message_type();
    drop(again);
    Ok(is_same)
}

/// Whether the body is read as that message.
fn is_read(alloc: Global, kind: u8, body: &[u8], message: &Message) -> Result<bool, MessageFault> {
    let again = read(alloc, kind, body)?;
    let is_same = again.same(message);
    drop(again);
    Ok(is_same)
}

/// Reads the body so many times.
fn read_often(alloc: Global, frame: &[u8], message: &Message, count: u64) -> Result<()> {
    let [kind, _, _, _, body @ ..] = frame else {
        bail!("a frame without a header");
    };
    for _ in 0..count {
        ensure!(
            is_of_type(alloc, *kind, body, message)?,
            "another message is read"
        );
    }
    ensure!(
        is_read(alloc, *kind, body, message)?,
        "another message is read"
    );
    Ok(())
}

/// Writes the message so many times.
fn write_often(alloc: Global, message: &Message, frame: &[u8], count: u64) -> Result<()> {
    ensure!(message.fits(), "the message can't be written");
    for _ in 0..count {
        let again = write(alloc, message)?;
        ensure!(again.len() == frame.len(), "other octets are written");
    }
    let again = write(alloc, message)?;
    ensure!(again.as_slice() == frame, "other octets are written");
    Ok(())
}
