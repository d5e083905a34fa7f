//! Runs the scripts of `data/` through the console, and compares their answers with those beside them, which were
//! written from the rules.
#![tactic(auto)]

mod comparing;
mod random_scripts;
mod rebuilding;
mod rows;

use anyhow::Result;
use comparing::{USUAL, difference};
use rebuilding::{first_changed, first_changed_row};
use rows::{Row, read_rows};
use std::fs;
use std::process::ExitCode;
use std::rt::Files;

/// Scripts as an operator writes them: NAME.txt, with its answers in NAME.answers.
const SCRIPTS: [&str; 12] = [
    "broadcasts-told",
    "day-of-failures",
    "first-warning",
    "flood-for-days",
    "flood-two-controllers",
    "journal-folded",
    "link-lost",
    "link-up-again",
    "replace-lost",
    "thousand-cells",
    "warning-corrected",
    "wrong-input",
];

/// How many scripts are drawn.
const SCRIPTS_DRAWN: u64 = 300;

/// Files of rows. A row may begin with one of an earlier file.
const ROWS: [&str; 12] = [
    "first-warning.rows",
    "bad-lines.rows",
    "changes.rows",
    "orders.rows",
    "failures.rows",
    "boards.rows",
    "queries.rows",
    "warnings.rows",
    "alerts.rows",
    "updates.rows",
    "checkpoints.rows",
    "broadcasts.rows",
];

/// Runs one script, prints whether its answers agree, and tells it.
fn script_agrees<R: Files + Print + AllocGlobal>(rt: &R, name: &str) -> Result<bool> {
    let script = fs::read_to_string(rt, format!(in rt.alloc(); "{name}.txt")?)?;
    let wanted = fs::read_to_string(rt, format!(in rt.alloc(); "{name}.answers")?)?;
    match difference(rt.alloc(), script.as_str(), wanted.as_str(), USUAL)? {
        None => {
            println!(rt; "{name} agrees")?;
            Ok(true)
        }
        Some(number) => {
            println!(rt; "{name} differs at answer {number}")?;
            Ok(false)
        }
    }
}

/// Runs the rows, prints how many agree or which one does not, and tells it.
fn rows_agree<R: Print + AllocGlobal>(rt: &R, file: &str, rows: &[Row]) -> Result<bool> {
    for row in rows {
        let (script, answers) = (row.script.as_str(), row.answers.as_str());
        if let Some(number) = difference(rt.alloc(), script, answers, row.setup)? {
            let name = row.name.as_str();
            println!(rt; "{file}: '{name}' differs at answer {number}")?;
            return Ok(false);
        }
    }
    let count = rows.len();
    println!(rt; "{file}: {count} rows agree")?;
    Ok(true)
}

/// Runs the rows with rebuilds and checkpoints between their lines, prints whether their answers agree, and tells it.
fn rows_agree_so<R: Print + AllocGlobal>(rt: &R, rows: &[Row]) -> Result<bool> {
    match first_changed_row(rt.alloc(), rows)? {
        None => {
            println!(rt; "the rows agree with rebuilds and checkpoints")?;
            Ok(true)
        }
        Some(row) => {
            let name = row.name.as_str();
            println!(rt; "'{name}' differs with rebuilds or checkpoints")?;
            Ok(false)
        }
    }
}

/// Runs drawn scripts so, prints whether their answers agree, and tells it.
fn drawn_agree<R: Print + AllocGlobal>(rt: &R) -> Result<bool> {
    match first_changed(rt.alloc(), SCRIPTS_DRAWN)? {
        None => {
            println!(rt; "{SCRIPTS_DRAWN} drawn scripts agree with rebuilds and checkpoints")?;
            Ok(true)
        }
        Some(number) => {
            println!(rt; "drawn script {number} differs with rebuilds or checkpoints")?;
            Ok(false)
        }
    }
}

fn main(rt: HostRuntime) -> Result<ExitCode> {
    for name in SCRIPTS {
        if !script_agrees(&rt, name)? {
            return Ok(ExitCode::FAILURE);
        }
    }
    let mut before = Vec::new(rt.alloc());
    for file in ROWS {
        let text = fs::read_to_string(&rt, file)?;
        let rows = read_rows(rt.alloc(), text.as_str(), before.as_slice())?;
        if !rows_agree(&rt, file, rows.as_slice())? {
            return Ok(ExitCode::FAILURE);
        }
        for row in rows {
            before.push(row)?;
        }
    }
    if !rows_agree_so(&rt, before.as_slice())? || !drawn_agree(&rt)? {
        return Ok(ExitCode::FAILURE);
    }
    Ok(ExitCode::SUCCESS)
}
