//! Pictures of a running server.

ghost use Rattle.std.specs.Prelude.{◌≡◌, ◌≤◌, ◌-◌, ◌*◌, ◌/◌, IfOk, IfSome};

use crate::airs::airs_of;
use cell_register::BscId;
use centre_past::lists::BscRow;
use journal_keeper::{KeptUpTo, Untold, wait_kept};
use office::desk::Desk;
use office::question::Question;
use office::seen::SeenValue;
use office::surveyed::Surveyed;
use office_picture::{Moments, down_count, picture};
use server_errors::{Level, say_of_centre_at};
use server_http::Pictures;
use server_links::{Shared, second_of};
use server_ports::Port;
use status_figures::Picture;
use std::alloc::AllocError;
use std::fs::File;
use std::io::{Read, Seek, SeekFrom, Write};
use std::sync::ledger::Ledger;
use std::sync::{Mutex, Wait};
use std::thread;
use std::time::{Clock, Duration};

/// How many octets are read of what the system says of the program.
const MOST_TEXT: usize = 2_048;

/// So often it is looked whether the entries of which a picture tells are kept.
const MOST_LOOKS: u32 = 40;

/// After how many milliseconds that is looked at again.
const PAUSE: u64 = 10;

/// What the threads of a server share, as its page knows it.
#[derive(Drop)]
pub(crate) struct RunningPictures<'a, L: Ledger, E: Drop> {
    pub(crate) shared: &'a Shared<L, E>,
    /// The desk that asks which cells are down.
    pub(crate) desk: &'a Mutex<Option<Desk<L>>>,
    pub(crate) status: &'a Mutex<Option<File>>,
}

/// The time, in milliseconds of a clock that goes on; 0 where it can't be read.
fn moment_of<R: Clock>(rt: &R) -> u64 {
    match rt.monotonic() {
        Ok(now) => u64::try_from(now.as_millis()).unwrap_or(u64::MAX),
        Err(_) => 0,
    }
}

/// The second of that moment, where the clock shows `second` and `moment` now. Moments are in milliseconds of a clock that goes on.
fn second_at(then: u64, second: u64, moment: u64) -> u64
    ensures { result ≡ second - (moment - then) / 1000 }
{
    second.saturating_sub(moment.saturating_sub(then) / 1_000)
}

/// The second at which something went out to the BSC of the port that is out still, where the clock shows those two times.
fn since_of<L: Ledger, R: Wait>(rt: &R, port: &Port<L>, second: u64, moment: u64) -> Option<u64> {
    let out = port.out_since(rt)?;
    Some(second_at(out, second, moment))
}

/// The second at which the link of the port ended, where it is down: the server began then at the latest where it had none since.
fn ended_of<L: Ledger, R: Wait>(
    rt: &R,
    port: &Port<L>,
    begun: u64,
    second: u64,
    moment: u64,
) -> Option<u64> {
    if port.is_up(rt) {
        return None;
    }
    match port.ended(rt) {
        Some(ended) => Some(second_at(ended, second, moment)),
        None => Some(begun),
    }
}

/// How much memory the program takes, in kibibytes, by the line `VmRSS` of what the system says of it (proc_pid_status(5)).
fn kibibytes_in(text: &[u8]) -> Option<u64> {
    let text = str::from_utf8(text).ok()?;
    let (_, rest) = text.split_once("VmRSS:")?;
    let word = rest.split_ascii_whitespace().next()?;
    word.parse::<u64>().ok()
}

/// So many kibibytes in octets.
fn octets_of(kibibytes: u64) -> Option<u64>
    ensures { IfSome result (λ octets. octets ≡ kibibytes * 1024) }
{
    kibibytes.checked_mul(1_024)
}

/// How much memory the program takes, in octets, where the system says it.
fn memory_of(status: &mut File) -> Option<u64> {
    let mut text = [0u8; MOST_TEXT];
    status.seek(SeekFrom::Start(0)).ok()?;
    let count = status.read(&mut text).ok()?;
    octets_of(kibibytes_in(&text[..count])?)
}

/// How many cells are down in what was seen, if cells were.
fn downs_in(value: &SeenValue) -> Option<u64> {
    match value {
        SeenValue::Cells(rows) => Some(down_count(rows.as_slice())),
        _ => None,
    }
}

/// Whether the rows have the BSC with a cell.
fn has_cells(rows: &[BscRow], b: BscId) -> bool {
    rows.iter().any(|row| row.bsc == b && row.cells != 0)
}

impl<'a, L: Ledger, E: Write + Drop> RunningPictures<'a, L, E> {
    /// How many cells of the BSC are down, if that is known.
    fn downs_of<R: Wait>(&self, rt: &R, desk: &Desk<L>, b: BscId) -> Option<u64> {
        let seen = self.shared.office.look(rt, desk, Question::Cells(b)).ok()?;
        downs_in(&seen.value)
    }

    /// How many cells of each BSC are down that has a port and, by those rows, a cell. Each is asked for by itself, so that no other
    /// caller of the office waits for all.
    fn downs<R: Wait>(&self, rt: &R, rows: &[BscRow]) -> Result<Vec<Option<u64>>, AllocError> {
        let mut downs = Vec::new(self.shared.alloc);
        let guard = self.desk.lock(rt);
        let Some(desk) = guard.as_ref() else {
            return Ok(downs);
        };
        for port in &self.shared.ports {
            let is_asked = has_cells(rows, port.bsc);
            downs.push(if is_asked {
                self.downs_of(rt, desk, port.bsc)
            } else {
                None
            })?;
        }
        Ok(downs)
    }

    fn memory<R: Wait>(&self, rt: &R) -> Option<u64> {
        memory_of(self.status.lock(rt).as_mut()?)
    }

    /// What is known before a survey, which is made next.
    fn moments<R: Wait + Clock>(&self, rt: &R) -> Result<Moments, AllocError> {
        let taken = second_of(rt);
        let moment = moment_of(rt);
        let mut sinces = Vec::new(self.shared.alloc);
        let mut resets = Vec::new(self.shared.alloc);
        let mut ends = Vec::new(self.shared.alloc);
        let begun = self.shared.broadcasts.begun();
        for port in &self.shared.ports {
            sinces.push(since_of(rt, port, taken, moment))?;
            resets.push(port.reset_since(rt))?;
            ends.push(ended_of(rt, port, begun, taken, moment))?;
        }
        Ok(Moments {
            taken,
            begun,
            sinces,
            resets,
            ends,
            downs: Vec::new(self.shared.alloc),
            airs: Vec::new(self.shared.alloc),
            kept: None,
            memory: self.memory(rt),
        })
    }
}

impl<'a, L: Ledger, E: Write + Drop> RunningPictures<'a, L, E> {
    /// Looks at what isn't in the survey: which cells are down, and what replies said of warnings.
    fn complete<R: Wait>(
        &self,
        rt: &R,
        moments: &mut Moments,
        surveyed: &Surveyed,
    ) -> Result<(), AllocError> {
        let survey = &surveyed.survey;
        moments.downs = self.downs(rt, survey.bscs.as_slice())?;
        let warnings = survey.warnings.as_slice();
        moments.airs = airs_of(rt, self.shared, warnings, moments.taken)?;
        Ok(())
    }
}

impl<'a, L: Ledger, E: Write + Drop> RunningPictures<'a, L, E> {
    /// Whether all entries up to the place are kept, where a file is kept.
    fn is_kept<R: Wait>(&self, rt: &R, place: u64) -> bool {
        match self.shared.kept_place(rt) {
            Some(last) => place <= last,
            None => true,
        }
    }

    /// Waits a while until all entries up to the place are kept. The answer is the last one that is kept then.
    fn kept_soon<R: Wait + Clock>(&self, rt: &R, place: u64) -> Option<u64> {
        for _ in 0..MOST_LOOKS {
            if self.is_kept(rt, place) {
                break;
            }
            thread::sleep(rt, Duration::from_millis(PAUSE));
        }
        self.shared.kept_place(rt)
    }

    /// The picture, which tells of no entry that there isn't yet.
    fn untold<R: Wait + Clock>(
        &self,
        rt: &R,
        surveyed: Surveyed,
        moments: &mut Moments,
    ) -> Result<Untold<Picture>, AllocError>
        ensures { IfOk result (λ untold. untold.what.status.entries ≤ untold.place) }
    {
        let entries = surveyed.survey.status.entries;
        let place = self.shared.office.position(rt).max(entries);
        moments.kept = self.kept_soon(rt, place);
        let picture = picture(self.shared.alloc, surveyed, moments)?;
        Ok(Untold::new(place, picture))
    }
}

impl<'a, L: Ledger, E: Write + Drop> Pictures for RunningPictures<'a, L, E> {
    fn take<R: Wait + Clock>(&self, rt: &R) -> Result<Untold<Picture>, AllocError> {
        let mut moments = self.moments(rt)?;
        let surveyed: Surveyed = self.shared.office.survey(rt)?;
        match self.complete(rt, &mut moments, &surveyed) {
            Ok(()) => self.untold(rt, surveyed, &mut moments),
            Err(error) => {
                drop(surveyed);
                Err(error)
            }
        }
    }

    fn kept<R: Wait>(&self, rt: &R, place: u64) -> Option<KeptUpTo> {
        if self.is_kept(rt, place) {
            wait_kept(rt, &self.shared.kept, place)
        } else {
            None
        }
    }

    fn tell<R: Wait + Clock>(&self, rt: &R, what: &str) {
        let level = Level::Warning;
        say_of_centre_at(rt, self.shared.alloc, &self.shared.errors, level, what);
    }
}
