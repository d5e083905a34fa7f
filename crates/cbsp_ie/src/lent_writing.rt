//! Writing the lists that are lent from the octets that they were read from.

ghost use Rattle.std.specs.Prelude.{◌≡◌, ◌<◌, ◌++◌, OnOk, OnErr, length};
ghost use Rattle.cbsp_ie.specs.Written.{cells_octets, counts_octets, element_octets, failures_octets};

use crate::cell_list::CellList;
use crate::count_list::CountList;
use crate::element::Element;
use crate::element_id::ElementId;
use crate::failure_list::FailureList;
use std::alloc::AllocError;

pub(crate) fn write_cell_list(out: &mut Vec<u8>, cells: &CellList<'_>) -> Result<(), AllocError>
    requires { length (cells_octets cells.now) < 65536 }
    ensures ok { OnOk result (out.new.items ≡ out.old.items ++ element_octets (Element.CellList cells.now)) }
    ensures err { OnErr result (out.new.items ≡ out.old.items) }
{
    let [high, low] = (cells.octets_len() as u16).to_be_bytes();
    let code = ElementId::CellList.code();
    let discriminator = cells.form().discriminator();
    let before = out.len();
    out.extend_from_slice(&[code, high, low, discriminator])?;
    match cells.write(out) {
        Ok(()) => Ok(()),
        Err(error) => {
            out.truncate(before);
            Err(error)
        }
    }
}

pub(crate) fn write_count_list(out: &mut Vec<u8>, counts: &CountList<'_>) -> Result<(), AllocError>
    requires { length (counts_octets counts.now) < 65536 }
    ensures ok { OnOk result (out.new.items ≡ out.old.items ++ element_octets (Element.BroadcastsCompleted counts.now)) }
    ensures err { OnErr result (out.new.items ≡ out.old.items) }
{
    let [high, low] = (counts.octets_len() as u16).to_be_bytes();
    let code = ElementId::BroadcastsCompleted.code();
    let discriminator = counts.form().discriminator();
    let before = out.len();
    out.extend_from_slice(&[code, high, low, discriminator])?;
    match counts.write(out) {
        Ok(()) => Ok(()),
        Err(error) => {
            out.truncate(before);
            Err(error)
        }
    }
}

pub(crate) fn write_failure_list(
    out: &mut Vec<u8>,
    failures: &FailureList<'_>,
) -> Result<(), AllocError>
    requires { length (failures_octets failures.now) < 65536 }
    ensures ok { OnOk result (out.new.items ≡ out.old.items ++ element_octets (Element.FailureList failures.now)) }
    ensures err { OnErr result (out.new.items ≡ out.old.items) }
{
    let [high, low] = (failures.octets_len() as u16).to_be_bytes();
    let code = ElementId::FailureList.code();
    let before = out.len();
    out.extend_from_slice(&[code, high, low])?;
    match failures.write(out) {
        Ok(()) => Ok(()),
        Err(error) => {
            out.truncate(before);
            Err(error)
        }
    }
}
