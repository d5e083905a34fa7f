//! What a script is answered, beside what it should be.

use anyhow::Result;
use centre_events::network::Network;
use console::replay;
use framing::{FromRead, FromWrite};
use std::alloc::Global;

/// The network code of the scripts.
const PLMN: [u8; 3] = [0x00, 0xf1, 0x10];

/// What a script is run with.
#[derive(Clone, Copy)]
pub struct Setup {
    /// The greatest number of journal entries.
    pub journal: u32,
    /// How many broadcasts a write requests.
    pub broadcasts: u16,
}

/// What a script is run with that says nothing else.
pub const USUAL: Setup = Setup {
    journal: 4_000_000,
    broadcasts: 0,
};

/// What the console answers to the script.
pub fn answers_to(alloc: Global, script: &str, setup: Setup) -> Result<String> {
    let mut reader = FromRead::new(script.as_bytes());
    let mut writer = FromWrite::new(Vec::new(alloc));
    let network = Network {
        plmn: PLMN,
        broadcasts: setup.broadcasts,
    };
    let limit = setup.journal.min(4_000_000);
    replay(alloc, &mut reader, &mut writer, network, limit)?;
    Ok(String::from_utf8(writer.into_inner())?)
}

/// A wanted line that ends in `...` is how the line has to begin.
fn is_as_wanted(given: &str, wanted: &str) -> bool {
    match wanted.strip_suffix("...") {
        Some(front) => given.starts_with(front),
        None => given == wanted,
    }
}

/// The number of the first answer that is not the wanted one, if any.
pub fn first_unlike(answers: &str, wanted: &str) -> Option<u64> {
    let mut wanted = wanted.lines();
    let mut number = 0u64;
    for given in answers.lines() {
        number = number.saturating_add(1);
        match wanted.next() {
            Some(line) if is_as_wanted(given, line) => {}
            _ => return Some(number),
        }
    }
    wanted.next().map(|_| number.saturating_add(1))
}

/// The number of the first answer to the script that is not the wanted one, if any.
pub fn difference(alloc: Global, script: &str, wanted: &str, setup: Setup) -> Result<Option<u64>> {
    let answers = answers_to(alloc, script, setup)?;
    Ok(first_unlike(answers.as_str(), wanted))
}
