//! Scripts run a second time, with a rebuild of the centre or a checkpoint after each line: neither changes another answer.

use crate::comparing::{Setup, USUAL, answers_to, first_unlike};
use crate::random_scripts::{Draws, random_script};
use crate::rows::Row;
use anyhow::Result;
use std::alloc::Global;

/// How many lines of each script are drawn.
const LINES: usize = 60;

/// What stands after each line.
const BETWEEN: [&str; 3] = ["rebuild\n", "checkpoint\n", "checkpoint\nrebuild\n"];

/// The script with these lines after each of its own.
fn script_with(alloc: Global, script: &str, between: &str) -> Result<String> {
    let mut longer = String::new(alloc);
    for line in script.lines() {
        longer.push_str(line)?;
        longer.push('\n')?;
        longer.push_str(between)?;
    }
    Ok(longer)
}

/// The answers but those to `rebuild` and `checkpoint`.
fn other_answers(alloc: Global, answers: &str) -> Result<String> {
    let mut others = String::new(alloc);
    for line in answers.lines() {
        if line != "rebuilt" && !line.starts_with("folded ") {
            others.push_str(line)?;
            others.push('\n')?;
        }
    }
    Ok(others)
}

/// Whether the script has these answers with those lines after each of its own.
fn is_same_with(
    alloc: Global,
    script: &str,
    wanted: &str,
    setup: Setup,
    between: &str,
) -> Result<bool> {
    let longer = script_with(alloc, script, between)?;
    let answers = answers_to(alloc, longer.as_str(), setup)?;
    let others = other_answers(alloc, answers.as_str())?;
    let wanted = other_answers(alloc, wanted)?;
    Ok(first_unlike(others.as_str(), wanted.as_str()).is_none())
}

/// Whether the script has these answers with each of the lines after each of its own.
fn is_same(alloc: Global, script: &str, wanted: &str, setup: Setup) -> Result<bool> {
    for between in BETWEEN {
        if !is_same_with(alloc, script, wanted, setup, between)? {
            return Ok(false);
        }
    }
    Ok(true)
}

/// The first row that has other answers so, if one has. A row whose journal is to be full has them.
pub fn first_changed_row<'r>(alloc: Global, rows: &'r [Row]) -> Result<Option<&'r Row>> {
    for row in rows {
        let (script, answers) = (row.script.as_str(), row.answers.as_str());
        if row.setup.journal >= USUAL.journal && !is_same(alloc, script, answers, row.setup)? {
            return Ok(Some(row));
        }
    }
    Ok(None)
}

/// The number of the first of so many drawn scripts that has other answers so, if one has.
pub fn first_changed(alloc: Global, scripts: u64) -> Result<Option<u64>> {
    for number in 0..scripts {
        let mut draws = Draws::new(number);
        let script = random_script(alloc, &mut draws, LINES)?;
        let answers = answers_to(alloc, script.as_str(), USUAL)?;
        if !is_same(alloc, script.as_str(), answers.as_str(), USUAL)? {
            return Ok(Some(number));
        }
    }
    Ok(None)
}
