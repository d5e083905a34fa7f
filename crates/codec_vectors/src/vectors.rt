//! The file of frames.

use anyhow::{Context, Result};
use std::alloc::Global;

/// A frame, and what it should be read as.
#[derive(Drop)]
pub struct Vector<'a> {
    pub name: &'a str,
    /// The whole frame as hexadecimal digits.
    pub hex: &'a str,
    /// The lines on its reading and writing.
    pub outcome: Vec<&'a str>,
}

/// The frames of the file: blocks of lines with an empty line between them, without the lines that begin with `#`.
pub fn vectors_in(alloc: Global, text: &str) -> Result<Vec<Vector<'_>>> {
    let mut vectors = Vec::new(alloc);
    for block in text.split("\n\n") {
        let mut lines = block.lines().filter(|line| !line.starts_with('#'));
        let Some(first) = lines.next() else {
            continue;
        };
        vectors.push(Vector {
            name: first.strip_prefix("name ").context("a block has no name")?,
            hex: lines
                .next()
                .and_then(|line| line.strip_prefix("hex "))
                .context("a block has no frame")?,
            outcome: lines.collect(alloc)?,
        })?;
    }
    Ok(vectors)
}
