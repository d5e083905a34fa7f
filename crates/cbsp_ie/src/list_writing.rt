//! Writing the elements that are lists.

ghost use Rattle.std.specs.Prelude.{◌≡◌, ◌<◌, ◌++◌, OnOk, OnErr, take, length};
ghost use Rattle.std.specs.List.{flat_map};
ghost use Rattle.cbsp_ie.specs.CellId.{id_octets};
ghost use Rattle.cbsp_ie.specs.Written.{cells_octets, count_octets, counts_octets, element_octets, failure_octets, failures_octets};

use crate::cell_id::CellId;
use crate::cell_ids::CellIds;
use crate::count_entry::CountEntry;
use crate::counts::Counts;
use crate::element::Element;
use crate::element_id::ElementId;
use crate::fail_entry::FailEntry;
use crate::failures::Failures;
use std::alloc::AllocError;

/// Appends a Cell List: its identifier, two octets of length, the discriminator and the identifications
/// (3GPP TS 48.049, 8.2.6). There may be at most 65,535 octets after the length, as `octets_len` counts
/// them. At an `Err` nothing is appended.
pub fn write_cells(out: &mut Vec<u8>, cells: &CellIds) -> Result<(), AllocError>
    requires { length (cells_octets cells.now) < 65536 }
    ensures ok { OnOk result (out.new.items ≡ out.old.items ++ element_octets (Element.CellList cells.now)) }
    ensures err { OnErr result (out.new.items ≡ out.old.items) }
{
    let [high, low] = (cells.octets_len() as u16).to_be_bytes();
    let code = ElementId::CellList.code();
    let discriminator = cells.form().discriminator();
    let before = out.len();
    out.extend_from_slice(&[code, high, low, discriminator])?;
    match append_ids(out, cells.ids()) {
        Ok(()) => Ok(()),
        Err(error) => {
            out.truncate(before);
            Err(error)
        }
    }
}

/// Appends a Number of Broadcasts Completed List: its identifier, two octets of length, the
/// discriminator, and for each entry the identification, two octets of number and one of info (3GPP TS
/// 48.049, 8.2.10). There may be at most 65,535 octets after the length, as `octets_len` counts them. At
/// an `Err` nothing is appended.
pub fn write_counts(out: &mut Vec<u8>, counts: &Counts) -> Result<(), AllocError>
    requires { length (counts_octets counts.now) < 65536 }
    ensures ok { OnOk result (out.new.items ≡ out.old.items ++ element_octets (Element.BroadcastsCompleted counts.now)) }
    ensures err { OnErr result (out.new.items ≡ out.old.items) }
{
    let [high, low] = (counts.octets_len() as u16).to_be_bytes();
    let code = ElementId::BroadcastsCompleted.code();
    let discriminator = counts.form().discriminator();
    let before = out.len();
    out.extend_from_slice(&[code, high, low, discriminator])?;
    match append_counts(out, counts.entries()) {
        Ok(()) => Ok(()),
        Err(error) => {
            out.truncate(before);
            Err(error)
        }
    }
}

/// Appends a Failure List: its identifier, two octets of length, and for each entry a discriminator, the
/// identification and the cause (3GPP TS 48.049, 8.2.11). There may be at most 65,535 octets after the
/// length, as `octets_len` counts them. At an `Err` nothing is appended.
pub fn write_failures(out: &mut Vec<u8>, failures: &Failures) -> Result<(), AllocError>
    requires { length (failures_octets failures.now) < 65536 }
    ensures ok { OnOk result (out.new.items ≡ out.old.items ++ element_octets (Element.FailureList failures.now)) }
    ensures err { OnErr result (out.new.items ≡ out.old.items) }
{
    let [high, low] = (failures.octets_len() as u16).to_be_bytes();
    let code = ElementId::FailureList.code();
    let before = out.len();
    out.extend_from_slice(&[code, high, low])?;
    match append_failures(out, failures.as_slice()) {
        Ok(()) => Ok(()),
        Err(error) => {
            out.truncate(before);
            Err(error)
        }
    }
}

fn append_ids(out: &mut Vec<u8>, ids: &[CellId]) -> Result<(), AllocError>
    ensures ok { OnOk result (out.new.items ≡ out.old.items ++ flat_map id_octets ids.now) }
    ensures err { OnErr result (take (length out.old.items) out.new.items ≡ out.old.items) }
{
    for id in ids {
        id.write(out)?;
    }
    Ok(())
}

fn append_counts(out: &mut Vec<u8>, entries: &[CountEntry]) -> Result<(), AllocError>
    ensures ok { OnOk result (out.new.items ≡ out.old.items ++ flat_map count_octets entries.now) }
    ensures err { OnErr result (take (length out.old.items) out.new.items ≡ out.old.items) }
{
    for entry in entries {
        entry.write(out)?;
    }
    Ok(())
}

fn append_failures(out: &mut Vec<u8>, entries: &[FailEntry]) -> Result<(), AllocError>
    ensures ok { OnOk result (out.new.items ≡ out.old.items ++ flat_map failure_octets entries.now) }
    ensures err { OnErr result (take (length out.old.items) out.new.items ≡ out.old.items) }
{
    for entry in entries {
        entry.write(out)?;
    }
    Ok(())
}
