//! A survey that an office has made.

use crate::counts::Counts;
use centre_questions::survey::Survey;

/// What was seen of a whole centre, and what its office had counted then.
#[derive(Drop)]
pub struct Surveyed {
    pub survey: Survey,
    pub counts: Counts,
}
