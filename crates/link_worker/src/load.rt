//! What a report asks of the centre.

ghost use Rattle.std.specs.Prelude.{◌≡◌};
ghost use Rattle.std.specs.List.{list_all};
ghost use Rattle.cbsp_ie.specs.declared.fail_entry.FailEntry.{FailEntry};
ghost use Rattle.link_worker.specs.Loads.{is_of_one, load_of, named_by_failures, named_by_ids, named_in};

use cbsp_ie::{CellId, FailEntry};
use cbsp_messages::Message;

/// What a report asks of the centre, before it is submitted.
#[derive(Clone, Copy, Debug, PartialEq, Eq)]
pub struct Load {
    /// The octets of its body.
    pub octets: usize,
    /// Of how many cells it says that they failed or restarted; `None` for any number. A reply says it of none.
    pub cells: Option<usize>,
}

/// Whether the identification is taken for that of one cell: by its cell identity, which may stand in a few location areas.
fn is_of_one(id: &CellId) -> bool
    ensures { result ≡ is_of_one id.now }
{
    match id {
        CellId::Global { .. } => true,
        CellId::LacCi { .. } => true,
        CellId::Ci { .. } => true,
        CellId::Lai { .. } => false,
        CellId::Lac { .. } => false,
        CellId::All => false,
    }
}

/// Whether each of the identifications is taken for that of one cell.
fn are_ids_of_one(ids: &[CellId]) -> bool
    ensures { result ≡ list_all is_of_one ids.now }
{
    ids.iter().all(|id| is_of_one(id))
}

/// Whether each of the entries is taken for one of one cell.
fn are_failures_of_one(failures: &[FailEntry]) -> bool
    ensures { result ≡ list_all (λ (f : FailEntry). is_of_one f.id) failures.now }
{
    failures.iter().all(|entry| is_of_one(&entry.id))
}

/// How many cells a RESTART names.
fn named_by_ids(ids: &[CellId]) -> Option<usize>
    ensures { result ≡ named_by_ids ids.now }
{
    if are_ids_of_one(ids) {
        Some(ids.len())
    } else {
        None
    }
}

/// How many cells a FAILURE names.
fn named_by_failures(failures: &[FailEntry]) -> Option<usize>
    ensures { result ≡ named_by_failures failures.now }
{
    if are_failures_of_one(failures) {
        Some(failures.len())
    } else {
        None
    }
}

/// How many cells an indication names.
fn named_in(message: &Message) -> Option<usize>
    ensures { result ≡ named_in message.now }
{
    match message {
        Message::Restart(said) => named_by_ids(said.cells.ids()),
        Message::Failure(said) => named_by_failures(said.failures.as_slice()),
        _ => Some(0),
    }
}

/// What the report asks whose body has so many octets.
pub(crate) fn load_of(octets: usize, message: &Message) -> Load
    ensures { result ≡ load_of octets message.now }
{
    Load {
        octets,
        cells: named_in(message),
    }
}
