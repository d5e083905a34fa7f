//! The message that carries an order, or a query.

ghost use Rattle.std.specs.Prelude.{◌≡◌, map, IfOk};
ghost use Rattle.std.specs.Option.{option_copied};
ghost use Rattle.cbsp_messages.specs.PageText.{page_with};
ghost use Rattle.centre_events.specs.OrderMessage.{IsCarriable, order_message, cbs_message, emergency_message, write_message, channel_of, kill_message, query_message};

use cbsp_ie::CellIds;
use cbsp_messages::{Kill, Message, Page, Pages, StatusQuery, WriteEmergency, WriteReplace};
use common::{Cell, Octets};
use order_maker::{Order, OrderKind};
use serials::Serial;
use std::alloc::{AllocError, Global};
use warning_book::{CbsContent, Content, EmergencyContent};

/// The pages as they are sent, each with zeros up to 82 octets.
fn pages_of(alloc: Global, contents: &[Octets]) -> Result<Pages, AllocError>
    ensures { IfOk result (λ pages. pages ≡ map page_with contents.now) }
{
    let mut pages = Pages::new(alloc);
    for content in contents {
        pages.push(Page::of_octets(content.as_slice()))?;
    }
    Ok(pages)
}

fn cbs_message(
    alloc: Global,
    requested: u16,
    order: &Order,
    old: Option<u16>,
    content: &CbsContent,
) -> Result<Message, AllocError>
    ensures { IfOk result (λ m. m ≡ cbs_message requested order.now old content.now) }
{
    Ok(Message::WriteReplace(WriteReplace {
        message_id: order.message_id,
        serial: order.serial.to_u16(),
        old,
        cells: CellIds::of_cells(alloc, order.cells.as_slice())?,
        channel: Some(0),
        category: content.category.to_u8(),
        period: content.period,
        requested,
        pages: pages_of(alloc, content.pages.as_slice())?,
        dcs: content.dcs,
    }))
}

fn emergency_message(
    alloc: Global,
    order: &Order,
    old: Option<u16>,
    content: &EmergencyContent,
) -> Result<Message, AllocError>
    ensures { IfOk result (λ m. m ≡ emergency_message order.now old content.now) }
{
    Ok(Message::WriteEmergency(WriteEmergency {
        message_id: order.message_id,
        serial: order.serial.to_u16(),
        old,
        cells: CellIds::of_cells(alloc, order.cells.as_slice())?,
        indicator: content.indicator,
        warning_type: content.warning_type,
        warning_period: content.warning_period,
        security: content.security,
    }))
}

fn write_message(
    alloc: Global,
    requested: u16,
    order: &Order,
    old: Option<u16>,
    content: &Content,
) -> Result<Message, AllocError>
    ensures { IfOk result (λ m. m ≡ write_message requested order.now old content.now) }
{
    match content {
        Content::Cbs(content) => cbs_message(alloc, requested, order, old, content),
        Content::Emergency(content) => emergency_message(alloc, order, old, content),
    }
}

fn channel_of(content: &Content) -> Option<u8>
    ensures { result ≡ channel_of content.now }
{
    match content {
        Content::Cbs(_) => Some(0),
        Content::Emergency(_) => None,
    }
}

fn kill_message(alloc: Global, order: &Order, content: &Content) -> Result<Message, AllocError>
    ensures { IfOk result (λ m. m ≡ kill_message order.now content.now) }
{
    Ok(Message::Kill(Kill {
        message_id: order.message_id,
        serial: order.serial.to_u16(),
        cells: CellIds::of_cells(alloc, order.cells.as_slice())?,
        channel: channel_of(content),
    }))
}

/// The message that carries the order (TS 48.049, 8.1.3.1 and 8.1.3.4), whose version has this content: a WRITE-REPLACE
/// with the Old Serial Number where it replaces a message, or a KILL. Pages are on the basic channel, and so many
/// broadcasts of them are requested, where 0 is until they are killed. An emergency warning is on no channel, and its
/// message has no such number.
pub fn message_of(
    alloc: Global,
    requested: u16,
    order: &Order,
    content: Option<&Content>,
) -> Result<Message, AllocError>
    requires { IsCarriable (option_copied content) }
    ensures { IfOk result (λ m. m ≡ order_message requested order.now (option_copied content.entry)) }
{
    let Some(content) = content else {
        unreachable!();
    };
    match order.kind {
        OrderKind::Write => write_message(alloc, requested, order, None, content),
        OrderKind::Replace { old } => {
            write_message(alloc, requested, order, Some(old.to_u16()), content)
        }
        OrderKind::Kill => kill_message(alloc, order, content),
    }
}

/// The message that asks how often a version was broadcast in these cells (TS 48.049, 8.1.3): a MESSAGE STATUS QUERY on
/// the basic channel.
pub fn query_of(
    alloc: Global,
    message_id: u16,
    serial: Serial,
    cells: &[Cell],
) -> Result<Message, AllocError>
    ensures { IfOk result (λ m. m ≡ query_message message_id serial cells.now) }
{
    Ok(Message::StatusQuery(StatusQuery {
        message_id,
        serial: serial.to_u16(),
        cells: CellIds::of_cells(alloc, cells)?,
        channel: Some(0),
    }))
}
