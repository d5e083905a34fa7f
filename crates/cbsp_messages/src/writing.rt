//! Writing a message.

ghost use Rattle.std.specs.Prelude.{◌≡◌, ◌≤◌, ◌<◌, ◌++◌, IfOk, IfSome, OnOk, length, drop, map, option_to_list};
ghost use Rattle.std.specs.List.{AllByRecursion, flat_map};
ghost use Rattle.cbsp_ie.specs.Frame.{longest_body};
ghost use Rattle.cbsp_ie.specs.Written.{FitsElement, cells_octets, counts_octets, element_octets, failures_octets};
ghost use Rattle.cbsp_messages.specs.Lent.{PartsFit, parts_lent};
ghost use Rattle.cbsp_messages.specs.Message.{type_of};
ghost use Rattle.cbsp_messages.specs.MessageType.{code_of};
ghost use Rattle.cbsp_messages.specs.Parts.{page_element, parts_of};
ghost use Rattle.cbsp_messages.specs.Spelling.{Spells};
ghost use Rattle.cbsp_messages.specs.Written.{Fits, HasShortPages, frame_of, octets_at, plain, written};

use crate::message::Message;
use crate::message_parts::MessageParts;
use crate::page::Page;
use cbsp_ie::{
    Element, ElementId, PageView, SecurityView, write_cells, write_counts, write_element,
    write_failures,
};
use std::alloc::{AllocError, Global};

/// Writes the whole frame of a message: the octet of its type, three octets of length and its elements, in
/// the order of its layout (3GPP TS 48.049, 8.1).
pub fn write(alloc: Global, message: &Message) -> Result<Vec<u8>, AllocError>
    requires { Fits message.now }
    ensures frame { IfOk result (λ octets. octets.items ≡ frame_of message.now) }
    // The body is short enough to be read, so that three octets can say its length.
    ensures short { length (written message.now) ≤ longest_body }
    // What is written is read as the message without its spare bits, where no page uses more octets than it has.
    ensures spelled { HasShortPages message.now → IfOk result (λ octets. Spells (code_of (type_of message.now)) (drop 4 octets.items) (plain message.now)) }
{
    let parts = MessageParts::of(message);
    parts.ranges();
    frame_octets(alloc, message)
}

fn frame_octets(alloc: Global, message: &Message) -> Result<Vec<u8>, AllocError>
    requires { Fits message.now }
    ensures { IfOk result (λ octets. octets.items ≡ frame_of message.now) }
{
    let mut out = Vec::new(alloc);
    out.extend_from_slice(&[0; 4])?;
    write_body(&mut out, message)?;
    let [_, _, _, _, _, high, middle, low] = (out.len() as u64 - 4).to_be_bytes();
    set_header(&mut out, [message.message_type().code(), high, middle, low]);
    Ok(out)
}

/// Sets the first four octets.
fn set_header(frame: &mut [u8], header: [u8; 4])
    requires { 4 ≤ length frame.old }
    ensures { frame.new ≡ header ++ drop 4 frame.old }
{
    frame[..4].copy_from_slice(&header);
}

/// Appends the elements in the order of the message's layout.
fn write_body(out: &mut Vec<u8>, message: &Message) -> Result<(), AllocError>
    requires { Fits message.now }
    ensures { OnOk result (out.new.items ≡ out.old.items ++ written message.now) }
{
    let parts = MessageParts::of(message);
    for id in message.layout().table().written {
        write_part(out, &parts, *id)?;
    }
    Ok(())
}

/// Appends the elements with the identifier.
fn write_part(out: &mut Vec<u8>, parts: &MessageParts<'_>, id: ElementId) -> Result<(), AllocError>
    requires { PartsFit (parts_lent parts.now) }
    ensures ok { OnOk result (out.new.items ≡ out.old.items ++ octets_at (parts_lent parts.now) id) }
{
    match id {
        ElementId::MessageContent => match parts.pages {
            None => Ok(()),
            Some(pages) => write_pages(out, pages.as_slice()),
        },
        ElementId::OldSerialNumber => write_if_there(
            out,
            parts.old_serial.map(|n| Element::OldSerialNumber(n)),
        ),
        ElementId::NewSerialNumber => write_if_there(
            out,
            parts.new_serial.map(|n| Element::NewSerialNumber(n)),
        ),
        ElementId::CellList => match parts.cells {
            None => Ok(()),
            Some(cells) => write_cells(out, cells),
        },
        ElementId::Category => write_if_there(out, parts.category.map(|n| Element::Category(n))),
        ElementId::RepetitionPeriod => write_if_there(
            out,
            parts.period.map(|n| Element::RepetitionPeriod(n)),
        ),
        ElementId::BroadcastsRequested => write_if_there(
            out,
            parts.requested.map(|n| Element::BroadcastsRequested(n)),
        ),
        ElementId::BroadcastsCompleted => match parts.counts {
            None => Ok(()),
            Some(counts) => write_counts(out, counts),
        },
        ElementId::FailureList => match parts.failures {
            None => Ok(()),
            Some(failures) => write_failures(out, failures),
        },
        ElementId::Cause => write_if_there(out, parts.cause.map(|cause| Element::Cause(cause))),
        ElementId::DataCodingScheme => write_if_there(
            out,
            parts.dcs.map(|n| Element::DataCodingScheme(n)),
        ),
        ElementId::RecoveryIndication => write_if_there(
            out,
            parts.recovery.map(|n| Element::RecoveryIndication(n)),
        ),
        ElementId::MessageIdentifier => write_if_there(
            out,
            parts.message_id.map(|n| Element::MessageIdentifier(n)),
        ),
        ElementId::ChannelIndicator => write_if_there(
            out,
            parts.channel.map(|n| Element::ChannelIndicator(n)),
        ),
        ElementId::NumberOfPages => write_if_there(
            out,
            parts.page_count.map(|n| Element::NumberOfPages(n as u8)),
        ),
        ElementId::BroadcastMessageType => write_if_there(
            out,
            parts.kind.map(|n| Element::BroadcastMessageType(n)),
        ),
        ElementId::EmergencyIndicator => write_if_there(
            out,
            parts.emergency.map(|n| Element::EmergencyIndicator(n)),
        ),
        ElementId::WarningType => write_if_there(
            out,
            parts.warning_type.map(|n| Element::WarningType(n)),
        ),
        ElementId::WarningSecurity => match parts.security {
            None => Ok(()),
            Some(octets) => write_element(
                out,
                &Element::WarningSecurity(SecurityView::new(octets)),
            ),
        },
        ElementId::WarningPeriod => write_if_there(
            out,
            parts.warning_period.map(|n| Element::WarningPeriod(n)),
        ),
    }
}

/// Appends the element, if there is one.
fn write_if_there(out: &mut Vec<u8>, element: Option<Element<'_>>) -> Result<(), AllocError>
    requires { IfSome element FitsElement }
    ensures { OnOk result (out.new.items ≡ out.old.items ++ flat_map element_octets (option_to_list element.entry)) }
{
    match element {
        None => Ok(()),
        Some(element) => write_element(out, &element),
    }
}

fn write_pages(out: &mut Vec<u8>, pages: &[Page]) -> Result<(), AllocError>
    ensures ok { OnOk result (out.new.items ≡ out.old.items ++ flat_map element_octets (map page_element pages.now)) }
{
    for page in pages {
        let view = PageView::new(page.used(), page.octets());
        write_element(out, &Element::MessageContent(view))?;
    }
    Ok(())
}
