//! How a centre is.

ghost use Rattle.std.specs.Prelude.{◌≡◌};
ghost use Rattle.status_figures.specs.Health.{health_of, health_text, is_journal_full};

use crate::health::Health;
use crate::picture::Picture;
use centre_past::lists::CentreStatus;

/// Whether the journal has as many entries since the last fold as it may have.
fn is_journal_full(status: &CentreStatus) -> bool
    ensures { result ≡ is_journal_full status.now }
{
    status.entries.saturating_sub(status.folded) >= u64::from(status.limit)
}

/// How the centre of the picture is.
pub fn health_of(picture: &Picture) -> Health
    ensures { result ≡ health_of picture.now.status }
{
    let is_full = is_journal_full(&picture.status);
    match (picture.status.is_stale, is_full) {
        (false, false) => Health::Whole,
        (true, false) => Health::Stale,
        (false, true) => Health::JournalFull,
        (true, true) => Health::StaleAndFull,
    }
}

/// A line for each thing that is wrong, or `ok`.
pub fn health_text(health: Health) -> &'static str
    ensures { result.now ≡ health_text health }
{
    match health {
        Health::Whole => "ok\n",
        Health::Stale => "stale\n",
        Health::JournalFull => "journal full\n",
        Health::StaleAndFull => "stale\njournal full\n",
    }
}
