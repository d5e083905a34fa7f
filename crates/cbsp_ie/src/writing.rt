//! Writing one information element.

ghost use Rattle.std.specs.Prelude.{◌≡◌, ◌<◌, ◌++◌, ◌∷◌, [], OnOk, OnErr};
ghost use Rattle.std.specs.Int.{bytes_high_first};
ghost use Rattle.cbsp_ie.specs.ElementId.{code_of};
ghost use Rattle.cbsp_ie.specs.Written.{FitsElement, element_octets};

use crate::element::Element;
use crate::element_id::ElementId;
use crate::lent_writing::{write_cell_list, write_count_list, write_failure_list};
use std::alloc::AllocError;

/// Appends the element: the octet of its identifier and its value, with spare bits as 0 (3GPP TS 48.049,
/// 8.2). A list may have at most 65,535 octets after its length. At an `Err` nothing is appended.
pub fn write_element(out: &mut Vec<u8>, element: &Element<'_>) -> Result<(), AllocError>
    requires { FitsElement element.now }
    ensures ok { OnOk result (out.new.items ≡ out.old.items ++ element_octets element.now) }
    ensures err { OnErr result (out.new.items ≡ out.old.items) }
{
    let id = element.id();
    match element {
        Element::MessageContent(page) => write_after(out, &[id.code(), page.used()], page.octets()),
        Element::OldSerialNumber(n) => write_two(out, id, *n),
        Element::NewSerialNumber(n) => write_two(out, id, *n),
        Element::CellList(cells) => write_cell_list(out, cells),
        Element::Category(n) => write_one(out, id, *n % 16),
        Element::RepetitionPeriod(n) => write_two(out, id, *n),
        Element::BroadcastsRequested(n) => write_two(out, id, *n),
        Element::BroadcastsCompleted(counts) => write_count_list(out, counts),
        Element::FailureList(failures) => write_failure_list(out, failures),
        Element::Cause(cause) => write_one(out, id, cause.0),
        Element::DataCodingScheme(n) => write_one(out, id, *n),
        Element::RecoveryIndication(n) => write_one(out, id, *n % 16),
        Element::MessageIdentifier(n) => write_two(out, id, *n),
        Element::EmergencyIndicator(n) => write_one(out, id, *n),
        Element::WarningType(n) => write_two(out, id, *n),
        Element::WarningSecurity(security) => write_after(out, &[id.code()], security.octets()),
        Element::ChannelIndicator(n) => write_one(out, id, *n % 16),
        Element::NumberOfPages(n) => write_one(out, id, *n),
        Element::BroadcastMessageType(n) => write_one(out, id, *n % 16),
        Element::WarningPeriod(n) => write_one(out, id, *n),
    }
}

fn write_two(out: &mut Vec<u8>, id: ElementId, number: u16) -> Result<(), AllocError>
    ensures ok { OnOk result (out.new.items ≡ out.old.items ++ code_of id ∷ bytes_high_first 2 number) }
    ensures err { OnErr result (out.new.items ≡ out.old.items) }
{
    let [high, low] = number.to_be_bytes();
    out.extend_from_slice(&[id.code(), high, low])
}

fn write_one(out: &mut Vec<u8>, id: ElementId, number: u8) -> Result<(), AllocError>
    ensures ok { OnOk result (out.new.items ≡ out.old.items ++ code_of id ∷ number ∷ []) }
    ensures err { OnErr result (out.new.items ≡ out.old.items) }
{
    out.extend_from_slice(&[id.code(), number])
}

// Appends both, or at an `Err` nothing.
fn write_after(out: &mut Vec<u8>, front: &[u8], rest: &[u8]) -> Result<(), AllocError>
    ensures ok { OnOk result (out.new.items ≡ out.old.items ++ (front.now ++ rest.now)) }
    ensures err { OnErr result (out.new.items ≡ out.old.items) }
{
    let before = out.len();
    out.extend_from_slice(front)?;
    match out.extend_from_slice(rest) {
        Ok(()) => Ok(()),
        Err(error) => {
            out.truncate(before);
            Err(error)
        }
    }
}
