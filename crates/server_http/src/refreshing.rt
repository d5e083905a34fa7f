//! What is shown is made anew.

ghost use Rattle.std.specs.Prelude.{◌≡◌, false};
ghost use Rattle.server_http.specs.Renewals.{is_due, tried_at};

use crate::contents::Contents;
use crate::pictures::Pictures;
use crate::site::Site;
use std::alloc::{AllocError, Global};
use std::sync::Wait;
use std::time::{Clock, SystemTime};

/// After how many milliseconds another picture is taken, where somebody looks.
const PERIOD: u64 = 500;

/// The time, in milliseconds of a clock that goes on; 0 where it can't be read.
pub(crate) fn now_of<R: Clock>(rt: &R) -> u64 {
    match rt.monotonic() {
        Ok(now) => u64::try_from(now.as_millis()).unwrap_or(u64::MAX),
        Err(_) => 0,
    }
}

/// The second, after 1970-01-01T00:00:00Z; 0 where it can't be read.
pub(crate) fn second_of<R: Clock>(rt: &R) -> u64 {
    let Ok(now) = SystemTime::now(rt) else {
        return 0;
    };
    match now.duration_since(SystemTime::UNIX_EPOCH) {
        Ok(since) => since.as_secs(),
        Err(_) => 0,
    }
}

/// What is shown of another picture. At an `Err` there was no memory for it, or entries of which it tells aren't kept yet.
fn contents<R: Wait + Clock, P: Pictures>(
    rt: &R,
    alloc: Global,
    pictures: &P,
) -> Result<Contents, AllocError> {
    let untold = pictures.take(rt)?;
    let Some(kept) = pictures.kept(rt, untold.place()) else {
        drop(untold);
        return Err(AllocError);
    };
    let picture = untold.tell(&kept);
    let contents = Contents::of(alloc, &picture);
    drop(picture);
    contents
}

/// A site, and when its picture was taken or tried to be.
#[derive(Drop)]
pub(crate) struct Renewed {
    pub(crate) site: Site,
    tried: Option<u64>,
}

impl Renewed {
    pub(crate) fn new(alloc: Global) -> Renewed {
        Renewed {
            site: Site::new(alloc),
            tried: None,
        }
    }

    /// Whether another picture may be taken.
    fn is_due(&self, now: u64) -> bool
        ensures { result ≡ is_due self.now.tried now }
    {
        match self.tried {
            None => true,
            Some(tried) => now.saturating_sub(tried) >= PERIOD,
        }
    }

    /// Takes another picture, where the last one isn't of this half second. Where there is no memory for one, or what it tells of isn't kept
    /// yet, the last stays. `second` is the second, after 1970-01-01T00:00:00Z.
    pub(crate) fn renew<R: Wait + Clock, P: Pictures>(
        &mut self,
        rt: &R,
        alloc: Global,
        pictures: &P,
        now: u64,
        second: u64,
    )
        ensures second { self.new.site.second ≡ second }
        ensures tried { self.new.tried ≡ tried_at self.old.tried now }
        ensures same { is_due self.old.tried now ≡ false → self.new.site.contents ≡ self.old.site.contents }
    {
        if self.is_due(now) {
            self.tried = Some(now);
            if let Ok(contents) = contents(rt, alloc, pictures) {
                self.site.set_contents(contents);
            }
        }
        self.site.set_second(second);
    }
}
