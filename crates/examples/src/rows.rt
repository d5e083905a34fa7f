//! Rows: scripts with their answers in one text. `data/first-warning.rows` says how it is laid out.

use crate::comparing::{Setup, USUAL};
use anyhow::{Context, Result};
use std::alloc::Global;

/// A script and the answers that the rules give.
#[derive(Drop)]
pub struct Row {
    pub name: String,
    pub script: String,
    pub answers: String,
    pub setup: Setup,
}

/// The row of that name.
fn named<'r>(name: &str, rows: &'r [Row]) -> Option<&'r Row> {
    rows.iter().find(|row| row.name.as_str() == name)
}

/// Reads a row from its text, whose first line is its name.
fn read_row(alloc: Global, text: &str, before: &[Row], rows: &[Row]) -> Result<Row> {
    let mut lines = text.lines();
    let mut row = Row {
        name: String::from_str(alloc, lines.next().context("a row has no name")?)?,
        script: String::new(alloc),
        answers: String::new(alloc),
        setup: USUAL,
    };
    for line in lines.filter(|line| !line.is_empty() && !line.starts_with('#')) {
        if let Some(other) = line.strip_prefix("after ") {
            let other = named(other, before).or_else(|| named(other, rows));
            let other = other.context("the row that another begins with isn't there")?;
            row.script.push_str(other.script.as_str())?;
            row.answers.push_str(other.answers.as_str())?;
        } else if let Some(limit) = line.strip_prefix("journal ") {
            row.setup.journal = limit.parse()?;
        } else if let Some(number) = line.strip_prefix("broadcasts ") {
            row.setup.broadcasts = number.parse()?;
        } else if let Some(asked) = line.strip_prefix("> ") {
            row.script.push_str(asked)?;
            row.script.push('\n')?;
        } else {
            row.answers.push_str(line)?;
            row.answers.push('\n')?;
        }
    }
    Ok(row)
}

/// The rows of the text. Each may begin with one that stands above it in the text, or with one of `before`.
pub fn read_rows(alloc: Global, text: &str, before: &[Row]) -> Result<Vec<Row>> {
    let mut rows = Vec::new(alloc);
    for block in text.split("\n== ").skip(1) {
        let row = read_row(alloc, block, before, rows.as_slice())?;
        rows.push(row)?;
    }
    Ok(rows)
}
