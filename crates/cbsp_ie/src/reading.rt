//! Reading one information element.

ghost use Rattle.std.specs.Prelude.{◌≡◌, ◌≤◌, ◌<◌, ◌+◌, ◌++◌, ◌⊎◌, ℕ, List, IfOk, IfErr, OnOk, Ok, take, drop, length};
ghost use Rattle.byteorder.specs.Endian.{big_number};
ghost use Rattle.cbsp_ie.specs.declared.element.Element.{Element as AnElement};
ghost use Rattle.cbsp_ie.specs.CellList.{IsCellList};
ghost use Rattle.cbsp_ie.specs.CountList.{IsCountList};
ghost use Rattle.cbsp_ie.specs.Element.{HasValue, IsElement, IsElementFault, IsListed, IsLow, IsOne, IsTwo, IsValueFault, element_id_of};
ghost use Rattle.cbsp_ie.specs.FailureList.{AreFailures};
ghost use Rattle.cbsp_ie.specs.Page.{IsPage};

use crate::cause::Cause;
use crate::cell_list::CellList;
use crate::count_list::CountList;
use crate::element::Element;
use crate::element_id::{ElementId, UnknownElementId};
use crate::failure_list::FailureList;
use crate::ie_fault::IeFault;
use crate::page_view::PageView;
use crate::security_view::SecurityView;
use byteorder::{BigEndian, ByteOrder};

/// Reads the element at the front of the octets, and how many of them it takes. What follows it
/// changes nothing. The faults are looked for in the order that `IeFault` tells.
pub fn read_element(octets: &[u8]) -> Result<(Element<'_>, usize), IeFault>
    ensures within { IfOk result (λ r. r.1 ≤ length octets.now) }
    ensures found { IfOk result (λ r. IsElement (take r.1 octets.now) r.0) }
    ensures fault { IfErr result (IsElementFault octets.now) }
    ensures only { (text rest : List ℕ) (e : AnElement) → octets.now ≡ text ++ rest → IsElement text e → result ≡ Ok (e, length text) }
{
    element_at(octets)
}

fn element_at(octets: &[u8]) -> Result<(Element<'_>, usize), IeFault>
    ensures within { IfOk result (λ r. r.1 ≤ length octets.now) }
    ensures found { IfOk result (λ r. IsElement (take r.1 octets.now) r.0) }
    ensures fault { IfErr result (IsElementFault octets.now) }
{
    let [code, value @ ..] = octets else {
        return Err(IeFault::Cut);
    };
    match ElementId::try_from(*code) {
        Ok(id) => {
            let (element, size) = read_value(id, value)?;
            Ok((element, size + 1))
        }
        Err(UnknownElementId(code)) => Err(IeFault::UnknownElement { id: code }),
    }
}

// The value of the element, and how many octets it takes.
fn read_value(id: ElementId, octets: &[u8]) -> Result<(Element<'_>, usize), IeFault>
    ensures within { IfOk result (λ r. r.1 ≤ length octets.now) }
    ensures id { IfOk result (λ r. element_id_of r.0 ≡ id) }
    ensures found { IfOk result (λ r. HasValue r.0 (take r.1 octets.now)) }
    ensures fault { IfErr result (IsValueFault id octets.now) }
{
    match id {
        ElementId::MessageContent => Ok((Element::MessageContent(read_page(octets)?), 83)),
        ElementId::OldSerialNumber => Ok((Element::OldSerialNumber(read_two(octets)?), 2)),
        ElementId::NewSerialNumber => Ok((Element::NewSerialNumber(read_two(octets)?), 2)),
        ElementId::CellList => {
            let (cells, size) = read_cells(octets)?;
            Ok((Element::CellList(cells), size))
        }
        ElementId::Category => Ok((Element::Category(read_low(octets)?), 1)),
        ElementId::RepetitionPeriod => Ok((Element::RepetitionPeriod(read_two(octets)?), 2)),
        ElementId::BroadcastsRequested => Ok((Element::BroadcastsRequested(read_two(octets)?), 2)),
        ElementId::BroadcastsCompleted => {
            let (counts, size) = read_counts(octets)?;
            Ok((Element::BroadcastsCompleted(counts), size))
        }
        ElementId::FailureList => {
            let (failures, size) = read_failures(octets)?;
            Ok((Element::FailureList(failures), size))
        }
        ElementId::Cause => Ok((Element::Cause(Cause(read_one(octets)?)), 1)),
        ElementId::DataCodingScheme => Ok((Element::DataCodingScheme(read_one(octets)?), 1)),
        ElementId::RecoveryIndication => Ok((Element::RecoveryIndication(read_low(octets)?), 1)),
        ElementId::MessageIdentifier => Ok((Element::MessageIdentifier(read_two(octets)?), 2)),
        ElementId::EmergencyIndicator => Ok((Element::EmergencyIndicator(read_one(octets)?), 1)),
        ElementId::WarningType => Ok((Element::WarningType(read_two(octets)?), 2)),
        ElementId::WarningSecurity => Ok((Element::WarningSecurity(read_security(octets)?), 50)),
        ElementId::ChannelIndicator => Ok((Element::ChannelIndicator(read_low(octets)?), 1)),
        ElementId::NumberOfPages => Ok((Element::NumberOfPages(read_one(octets)?), 1)),
        ElementId::BroadcastMessageType => {
            Ok((Element::BroadcastMessageType(read_low(octets)?), 1))
        }
        ElementId::WarningPeriod => Ok((Element::WarningPeriod(read_one(octets)?), 1)),
    }
}

fn read_two(octets: &[u8]) -> Result<u16, IeFault>
    ensures whole { OnOk result (2 ≤ length octets.now) }
    ensures found { IfOk result (λ n. IsTwo n (take 2 octets.now)) }
    ensures fault { IfErr result (λ f. (length octets.now < 2) × (f ≡ IeFault.Cut)) }
{
    if octets.len() < 2 {
        return Err(IeFault::Cut);
    }
    Ok(BigEndian::read_u16(octets))
}

fn read_one(octets: &[u8]) -> Result<u8, IeFault>
    ensures whole { OnOk result (1 ≤ length octets.now) }
    ensures found { IfOk result (λ n. IsOne n (take 1 octets.now)) }
    ensures fault { IfErr result (λ f. (length octets.now < 1) × (f ≡ IeFault.Cut)) }
{
    match octets {
        [octet, ..] => Ok(*octet),
        [] => Err(IeFault::Cut),
    }
}

// The low four bits of an octet.
fn read_low(octets: &[u8]) -> Result<u8, IeFault>
    ensures whole { OnOk result (1 ≤ length octets.now) }
    ensures found { IfOk result (λ n. IsLow n (take 1 octets.now)) }
    ensures fault { IfErr result (λ f. (length octets.now < 1) × (f ≡ IeFault.Cut)) }
{
    match octets {
        [octet, ..] => Ok(*octet % 16),
        [] => Err(IeFault::Cut),
    }
}

fn read_page(octets: &[u8]) -> Result<PageView<'_>, IeFault>
    ensures whole { OnOk result (83 ≤ length octets.now) }
    ensures found { IfOk result (IsPage (take 83 octets.now)) }
    ensures fault { IfErr result (IsValueFault ElementId.MessageContent octets.now) }
{
    if octets.len() < 83 {
        return Err(IeFault::Cut);
    }
    let used = octets[0];
    if used > 82 {
        return Err(IeFault::LongPage);
    }
    let (page, _) = octets.split_at(83);
    let (_, text) = page.split_at(1);
    Ok(PageView::new(used, text))
}

fn read_security(octets: &[u8]) -> Result<SecurityView<'_>, IeFault>
    ensures whole { OnOk result (50 ≤ length octets.now) }
    ensures found { IfOk result (λ s. (length s ≡ 50) × (take 50 octets.now ≡ s)) }
    ensures fault { IfErr result (λ f. (length octets.now < 50) × (f ≡ IeFault.Cut)) }
{
    if octets.len() < 50 {
        return Err(IeFault::Cut);
    }
    let (security, _) = octets.split_at(50);
    Ok(SecurityView::new(security))
}

// The octets after two of length, as many as these say.
fn read_listed(octets: &[u8]) -> Result<&[u8], IeFault>
    ensures whole { IfOk result (λ listed. (2 ≤ length octets.now) × (2 + length listed.now ≤ length octets.now)) }
    ensures length { IfOk result (λ listed. length listed.now ≡ big_number 2 octets.now) }
    ensures listed { IfOk result (λ listed. listed.now ≡ take (big_number 2 octets.now) (drop 2 octets.now)) }
    ensures fault { IfErr result (λ f. ((length octets.now < 2) ⊎ (length octets.now < 2 + big_number 2 octets.now)) × (f ≡ IeFault.Cut)) }
{
    if octets.len() < 2 {
        return Err(IeFault::Cut);
    }
    let size = BigEndian::read_u16(octets) as usize;
    let (_, rest) = octets.split_at(2);
    if rest.len() < size {
        return Err(IeFault::Cut);
    }
    let (listed, _) = rest.split_at(size);
    Ok(listed)
}

fn read_cells(octets: &[u8]) -> Result<(CellList<'_>, usize), IeFault>
    ensures within { IfOk result (λ r. r.1 ≤ length octets.now) }
    ensures found { IfOk result (λ r. IsListed (λ listed. IsCellList listed r.0) (take r.1 octets.now)) }
    ensures fault { IfErr result (IsValueFault ElementId.CellList octets.now) }
{
    let listed = read_listed(octets)?;
    let cells = CellList::read(listed)?;
    Ok((cells, 2 + listed.len()))
}

fn read_counts(octets: &[u8]) -> Result<(CountList<'_>, usize), IeFault>
    ensures within { IfOk result (λ r. r.1 ≤ length octets.now) }
    ensures found { IfOk result (λ r. IsListed (λ listed. IsCountList listed r.0) (take r.1 octets.now)) }
    ensures fault { IfErr result (IsValueFault ElementId.BroadcastsCompleted octets.now) }
{
    let listed = read_listed(octets)?;
    let counts = CountList::read(listed)?;
    Ok((counts, 2 + listed.len()))
}

fn read_failures(octets: &[u8]) -> Result<(FailureList<'_>, usize), IeFault>
    ensures within { IfOk result (λ r. r.1 ≤ length octets.now) }
    ensures found { IfOk result (λ r. IsListed (λ listed. AreFailures listed r.0) (take r.1 octets.now)) }
    ensures fault { IfErr result (IsValueFault ElementId.FailureList octets.now) }
{
    let listed = read_listed(octets)?;
    let failures = FailureList::read(listed)?;
    Ok((failures, 2 + listed.len()))
}
