//! The lines are said by a thread of its own.

use crate::clearance::{AtOnce, Clearance};
use crate::level::Level;
use crate::line::Line;
use crate::lines::{line_text, marked};
use crate::queue::Queue;
use crate::recent::Recent;
use crate::said::Said;
use crate::utc::time_of;
use std::alloc::{AllocError, Global};
use std::io::Write;
use std::sync::{Condvar, Mutex, Wait};
use std::time::Clock;

/// What is to be said on standard error. A thread of its own says it: so where nobody reads standard error, only that thread waits,
/// and no link or port.
#[derive(Drop)]
pub struct Errors<E: Drop> {
    queue: Mutex<Queue>,
    changed: Condvar,
    writer: Mutex<E>,
    /// A system log reads the lines: each has its level.
    has_levels: bool,
    /// What was said last, for consoles that follow.
    recent: Mutex<Recent>,
}

impl<E: Write + Drop> Errors<E> {
    pub fn new(alloc: Global, writer: E) -> Errors<E> {
        Errors::with_levels(alloc, writer, false)
    }

    /// With `has_levels` each line begins with its level, as a system log reads it.
    pub fn with_levels(alloc: Global, writer: E, has_levels: bool) -> Errors<E> {
        Errors {
            queue: Mutex::new(Queue::new(alloc)),
            changed: Condvar::new(),
            writer: Mutex::new(writer),
            has_levels,
            recent: Mutex::new(Recent::new(alloc)),
        }
    }

    /// Has the line said by the thread that says lines.
    fn push<R: Wait>(&self, rt: &R, line: Line) {
        self.queue.lock(rt).push(line);
        self.changed.notify_all();
    }

    /// Has a line said in which that is said, with the time at which this is called.
    pub(crate) fn tell<R: Wait + Clock>(&self, rt: &R, alloc: Global, level: Level, what: &str) {
        let time = time_of(rt);
        if let Ok(text) = line_text(alloc, time.as_ref().map(|time| time.as_str()), what) {
            self.push(rt, Line { level, text });
        }
    }

    /// How many lines were said of those that consoles are shown.
    pub fn said_count<R: Wait>(&self, rt: &R) -> u64 {
        self.recent.lock(rt).count()
    }

    /// What consoles are shown of the lines behind that number.
    pub fn said_after<R: Wait>(
        &self,
        rt: &R,
        alloc: Global,
        place: u64,
    ) -> Result<Said, AllocError> {
        self.recent.lock(rt).after(alloc, place)
    }

    /// Has that thread end once all lines are said.
    pub fn close<R: Wait>(&self, rt: &R) {
        self.queue.lock(rt).close();
        self.changed.notify_all();
    }

    /// Waits for lines; `None` once none more is to be said.
    fn next<R: Wait>(&self, rt: &R) -> Option<(Vec<Line>, u64)> {
        let mut queue = self.changed.wait_while(rt, self.queue.lock(rt), |queue| {
            queue.is_empty() && !queue.is_closing()
        });
        if queue.is_empty() {
            None
        } else {
            Some(queue.take())
        }
    }

    fn write<R: Wait>(&self, rt: &R, text: &[u8]) {
        let mut writer = self.writer.lock(rt);
        let _ = writer.write_all(text);
    }

    /// Says the lines at once, which are of that level. What can't be said is left out: there is nowhere to say that.
    pub fn say<R: Wait>(&self, rt: &R, alloc: Global, level: Level, text: &[u8]) {
        if self.has_levels && !text.is_empty() {
            if let Ok(text) = marked(alloc, level, text) {
                self.write(rt, text.as_slice());
                return;
            }
        }
        self.write(rt, text);
    }

    /// Says the line, and shows it to consoles that follow.
    fn say_line<R: Wait>(&self, rt: &R, alloc: Global, line: Line) {
        let Line { level, text } = line;
        self.say(rt, alloc, level, text.as_bytes());
        self.recent.lock(rt).push(text);
    }

    fn say_left_out<R: Wait + Clock>(&self, rt: &R, alloc: Global, left_out: u64) {
        if left_out == 0 {
            return;
        }
        let time = time_of(rt);
        let Ok(what) = format!(in alloc; "{left_out} lines were left out") else {
            return;
        };
        if let Ok(line) = line_text(
            alloc,
            time.as_ref().map(|time| time.as_str()),
            what.as_str(),
        ) {
            self.say(rt, alloc, Level::Error, line.as_bytes());
        }
    }

    /// Says lines as they come, each once it may be told, until it is closed and all are said. Those that may never be told are left
    /// out.
    pub fn say_lines<C: Clearance, R: Wait + Clock>(&self, rt: &R, alloc: Global, clearance: &C) {
        for _ in rt.forever() {
            match self.next(rt) {
                Some((lines, left_out)) => {
                    if clearance.may_tell(rt) {
                        for line in lines {
                            self.say_line(rt, alloc, line);
                        }
                        self.say_left_out(rt, alloc, left_out);
                    }
                }
                None => break,
            }
        }
    }

    /// Says the lines that wait, and then the text. No line is said after it.
    pub fn say_last<R: Wait + Clock>(&self, rt: &R, alloc: Global, text: &[u8]) {
        self.close(rt);
        self.say_lines(rt, alloc, &AtOnce);
        self.say(rt, alloc, Level::Error, text);
    }
}
