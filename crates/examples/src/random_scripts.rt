//! Scripts of mixed lines, drawn over few BSCs, cells, areas and warnings, so that the lines bear on each other.

use std::alloc::{AllocError, Global};

/// Numbers without a pattern, the same in each run: a linear congruential generator.
#[derive(Clone, Copy)]
pub struct Draws {
    state: u64,
}

impl Draws {
    /// Begins with that number.
    pub fn new(seed: u64) -> Draws {
        Draws { state: seed }
    }

    /// The next number, below that bound.
    fn below(&mut self, bound: usize) -> usize {
        self.state = self
            .state
            .wrapping_mul(6_364_136_223_846_793_005)
            .wrapping_add(1_442_695_040_888_963_407);
        (self.state >> 33) as usize % bound.max(1)
    }

    /// One of the words.
    fn pick(&mut self, words: &[&'static str]) -> &'static str {
        let index = self.below(words.len());
        match words.get(index) {
            Some(word) => *word,
            None => "",
        }
    }
}

/// What each script begins with: two BSCs with three cells, an area, a warning, and links.
const BEGINNING: &str =
    "bsc add 1\nbsc add 2\ncell add 100 7 1\ncell add 100 8 1\ncell add 101 7 2\n\
    area add Coast\narea put Coast 100\nissue 4370 3 15 0 30 d4f29c0e Coast\nup 1\nup 2\n";

/// What each script ends with: questions about all that can be there.
const END: &str =
    "board 1\nboard 2\nboard 3\nboard 1 Coast\nboard 2 Port\npending 1\npending 2\npending 3\n\
    table 1\ntable 2\ntable 3\n";

// In a line a capital letter stands for a word that is drawn.

/// Lines that edit the register.
const REGISTER: &[&str] = &[
    "bsc add B",
    "bsc remove B",
    "cell add C B",
    "cell move C B",
    "cell remove C",
];

/// Lines that edit the areas.
const AREAS: &[&str] = &["area add A", "area drop A", "area put A S", "area cut A S"];

/// Lines that edit a warning.
const WARNINGS: &[&str] = &[
    "widen W A",
    "narrow W A",
    "stop W",
    "forget W",
    "issue M 3 15 0 30 P A",
    "update W 15 0 30 P",
];

/// Lines about a link, or that send.
const LINKS: &[&str] = &[
    "up B", "down B", "retry B", "ask B W", "send B", "send B", "send B", "send B",
];

/// Replies of a BSC.
const REPLIES: &[&str] = &[
    "rx B 020000060e111203N",
    "rx B 020000060e111203N",
    "rx B 0300000f0e111203N09000601OK",
    "rx B 050000110e111202N08000801OT00",
    "rx B 0600000f0e111202N09000601OK",
    "rx B 0b0000110e111202N08000801OT00",
    "rx B 0c00000f0e111202N09000601OK",
    "rx B 150000020bK",
];

/// Indications of a BSC.
const INDICATIONS: &[&str] = &[
    "rx B 1300000c04000501O16000d00",
    "rx B 1300000c04000501O16000d01",
    "rx B 1400000b09000601O0a1600",
    "rx B 130000080400010616000d01",
];

/// Questions.
const QUESTIONS: &[&str] = &["board W", "board W A", "pending B", "table B"];

/// Lines of the kind of that number, below ten.
fn lines_of(kind: usize) -> &'static [&'static str] {
    match kind {
        0 => REGISTER,
        1 => AREAS,
        2 => WARNINGS,
        3 => QUESTIONS,
        4 | 5 => REPLIES,
        6 => INDICATIONS,
        _ => LINKS,
    }
}

/// The words that the letter stands for, if any.
fn words_of(letter: char) -> &'static [&'static str] {
    match letter {
        'A' => &["Coast", "Port", "Hills"],
        'B' | 'W' => &["1", "2", "3"],
        'C' => &["100 7", "100 8", "100 9", "101 7", "101 8"],
        // the same cells in octets, and two that are registered nowhere
        'O' => &[
            "00640007", "00640008", "00640009", "00650007", "00650008", "00660007", "ffffffff",
        ],
        'S' => &["100", "101", "100 7", "101 8"],
        'M' => &["4370", "4371"],
        'P' => &["d4f29c0e", "01", "01/0203"],
        // the first serial numbers that warnings for cells get
        'N' => &["c000", "c001", "c002", "c00f", "c010"],
        // causes that the rules tell apart, and others (TS 48.049, 8.2.13)
        'K' => &["02", "03", "06", "0d", "0e"],
        // numbers of broadcasts
        'T' => &["0000", "0001", "0203", "ffff"],
        _ => &[],
    }
}

/// Puts a line last, with words drawn for its letters.
fn add_line(script: &mut String, draws: &mut Draws, line: &str) -> Result<(), AllocError> {
    for letter in line.chars() {
        match words_of(letter) {
            [] => script.push(letter)?,
            words => script.push_str(draws.pick(words))?,
        }
    }
    script.push('\n')
}

/// An update of the warning with which each script begins.
const UPDATE: &str = "update 1 15 0 30 P";

/// A script with so many lines between its beginning and its end. In one of three the first warning is updated before
/// every second line or so, so that its update numbers begin again at 0.
pub fn random_script(alloc: Global, draws: &mut Draws, lines: usize) -> Result<String, AllocError> {
    let mut script = String::from_str(alloc, BEGINNING)?;
    let is_updated = draws.below(3) == 0;
    for _ in 0..lines {
        if is_updated && draws.below(2) == 0 {
            add_line(&mut script, draws, UPDATE)?;
        }
        let kind = draws.below(10);
        let line = draws.pick(lines_of(kind));
        add_line(&mut script, draws, line)?;
    }
    script.push_str(END)?;
    Ok(script)
}
