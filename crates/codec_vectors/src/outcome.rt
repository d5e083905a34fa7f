//! What comes of a frame: the message or the fault that it is read as, and what that message is written as.

use crate::damage::{fault_of, unnamed_damage};
use crate::faults::fault_line;
use crate::fields::{Field, fields_of};
use crate::names::layout_name;
use crate::vectors::Vector;
use anyhow::{Context, Result, ensure};
use cbsp_messages::{Message, MessageFault, read, write};
use framing::{Frame, Framer};
use std::alloc::{AllocError, Global};

/// The first line of the file on the frame that doesn't say what comes of it.
pub fn difference(alloc: Global, vector: &Vector<'_>) -> Result<Option<String>> {
    let octets = hex::decode(alloc, vector.hex)?;
    let found = difference_in(alloc, vector, octets.as_slice());
    drop(octets);
    found
}

/// The same, where the frame has these octets.
fn difference_in(alloc: Global, vector: &Vector<'_>, octets: &[u8]) -> Result<Option<String>> {
    let outcome = outcome_of(alloc, octets)?;
    let found = first_other(alloc, outcome.as_slice(), vector.outcome.as_slice());
    drop(outcome);
    match found? {
        Some(other) => Ok(Some(other)),
        None => damage_line(alloc, octets),
    }
}

/// The first of the lines that isn't the listed one at its place, if any.
fn first_other(alloc: Global, lines: &[String], listed: &[&str]) -> Result<Option<String>> {
    for (index, line) in lines.iter().enumerate() {
        let listed = listed.get(index).copied().unwrap_or("nothing");
        if line.as_str() != listed {
            return Ok(Some(format!(in alloc; "{line} where {listed} is listed")?));
        }
    }
    match listed.get(lines.len()) {
        Some(listed) => Ok(Some(format!(in alloc; "nothing where {listed} is listed")?)),
        None => Ok(None),
    }
}

/// The damage to the frame's body that is not named by its fault, where the frame is a message.
fn damage_line(alloc: Global, octets: &[u8]) -> Result<Option<String>> {
    let frame = one_frame(alloc, octets)?;
    let damage = damage_of(alloc, frame.kind, frame.body.as_slice());
    drop(frame);
    match damage? {
        Some(damage) => Ok(Some(format!(in alloc; "the fault of {damage}")?)),
        None => Ok(None),
    }
}

/// The damage to a message's body that is not named by its fault, if any.
fn damage_of(alloc: Global, kind: u8, body: &[u8]) -> Result<Option<&'static str>> {
    if fault_of(alloc, kind, body).is_some() {
        return Ok(None);
    }
    unnamed_damage(alloc, kind, body)
}

fn outcome_of(alloc: Global, octets: &[u8]) -> Result<Vec<String>> {
    match message_in(alloc, octets)? {
        Ok(message) => {
            let lines = message_lines(alloc, &message, octets);
            drop(message);
            lines
        }
        Err(fault) => one_line(alloc, fault_text(alloc, fault)?),
    }
}

/// What the file has of a frame that is no message.
fn fault_text(alloc: Global, fault: MessageFault) -> Result<String> {
    match fault {
        MessageFault::NotInProfile => Ok(String::from_str(alloc, "skipped")?),
        fault => fault_line(alloc, fault),
    }
}

/// The message in the one frame that the octets are, or the fault in it.
fn message_in(alloc: Global, octets: &[u8]) -> Result<Result<Message, MessageFault>> {
    let frame = one_frame(alloc, octets)?;
    Ok(read(alloc, frame.kind, frame.body.as_slice()))
}

/// The frame that the octets are, with none over.
fn one_frame(alloc: Global, octets: &[u8]) -> Result<Frame> {
    let mut framer = Framer::new(alloc);
    framer.feed(octets)?;
    let frame = framer.next().context("no whole frame")?;
    ensure!(framer.next().is_none(), "more than one frame");
    ensure!(framer.rest() == 0, "octets after the frame");
    Ok(frame)
}

fn one_line(alloc: Global, line: String) -> Result<Vec<String>> {
    let mut lines = Vec::new(alloc);
    lines.push(line)?;
    Ok(lines)
}

/// The lines on a message that was read from the octets.
fn message_lines(alloc: Global, message: &Message, octets: &[u8]) -> Result<Vec<String>> {
    let name = layout_name(message.layout());
    let mut lines = one_line(alloc, format!(in alloc; "read {name}")?)?;
    add_fields(alloc, &mut lines, message)?;
    lines.push(written_line(alloc, message, octets)?)?;
    Ok(lines)
}

/// Puts a line for each field last.
fn add_fields(alloc: Global, lines: &mut Vec<String>, message: &Message) -> Result<()> {
    for field in &fields_of(alloc, message)? {
        lines.push(field_line(alloc, field)?)?;
    }
    Ok(())
}

fn field_line(alloc: Global, field: &Field<'_>) -> Result<String, AllocError> {
    let name = field.name;
    let value = &field.value;
    format!(in alloc; "field {name} {value}")
}

fn is_copied(alloc: Global, message: &Message) -> Result<bool, AllocError> {
    let copy = message.copied(alloc)?;
    let is_same = copy.same(message);
    drop(copy);
    Ok(is_same)
}

/// The line on what the message is written as, which has to be read as the same message. So has its copy.
fn written_line(alloc: Global, message: &Message, octets: &[u8]) -> Result<String> {
    ensure!(is_copied(alloc, message)?, "the copy is another message");
    ensure!(message.fits(), "the message can't be written");
    let written = write(alloc, message)?;
    let line = line_on(alloc, message, written.as_slice(), octets);
    drop(written);
    line
}

/// The line on these octets, which the message is written as.
fn line_on(alloc: Global, message: &Message, written: &[u8], octets: &[u8]) -> Result<String> {
    ensure!(
        is_read_as(alloc, written, message)?,
        "what is written is read as another message"
    );
    if written == octets {
        return Ok(String::from_str(alloc, "written same")?);
    }
    let digits = hex::encode(alloc, written)?;
    Ok(format!(in alloc; "written {digits}")?)
}

fn is_read_as(alloc: Global, octets: &[u8], message: &Message) -> Result<bool> {
    match message_in(alloc, octets)? {
        Ok(again) => {
            let is_same = again.same(message);
            drop(again);
            Ok(is_same)
        }
        Err(_) => Ok(false),
    }
}
