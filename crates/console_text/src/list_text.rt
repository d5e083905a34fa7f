//! The texts of answers that have a line for each thing that is asked for.

ghost use Rattle.std.specs.Prelude.{◌≡◌, IfOk, string_bytes};
ghost use Rattle.console_text.specs.Texts.{kind_name, old_text, group_text, pending_text, presence_name, key_text, table_text};

use crate::digits::serial_text;
use centre_past::reported::ReportedKey;
use mirror::Presence;
use order_maker::{Order, OrderKind};
use std::alloc::{AllocError, Global};

/// A line for each group, and their number.
pub fn pending_text(alloc: Global, orders: &[Order]) -> Result<String, AllocError>
    ensures { IfOk result (λ text. string_bytes text ≡ pending_text orders.now) }
{
    let mut text = String::new(alloc);
    for order in orders {
        let group = group_text(alloc, order)?;
        text.push_str(group.as_str())?;
    }
    let count = orders.len();
    let last = format!(in alloc; "groups {count}\n")?;
    text.push_str(last.as_str())?;
    Ok(text)
}

fn group_text(alloc: Global, order: &Order) -> Result<String, AllocError>
    ensures { IfOk result (λ text. string_bytes text ≡ group_text order.now) }
{
    let kind = kind_name(order.kind);
    let message_id = order.message_id;
    let serial = serial_text(alloc, order.serial)?;
    let old = old_text(alloc, order.kind)?;
    let cells = order.cells.as_slice().len();
    format!(in alloc; "{kind} {message_id} {serial}{old} cells {cells}\n")
}

fn kind_name(kind: OrderKind) -> &'static str
    ensures { result.now ≡ kind_name kind }
{
    match kind {
        OrderKind::Write => "write",
        OrderKind::Replace { .. } => "replace",
        OrderKind::Kill => "kill",
    }
}

/// The serial number of the message that a replace takes off the air.
fn old_text(alloc: Global, kind: OrderKind) -> Result<String, AllocError>
    ensures { IfOk result (λ text. string_bytes text ≡ old_text kind) }
{
    match kind {
        OrderKind::Replace { old } => {
            let old = serial_text(alloc, old)?;
            format!(in alloc; " old {old}")
        }
        OrderKind::Write | OrderKind::Kill => Ok(String::new(alloc)),
    }
}

/// A line for each key, and their number.
pub fn table_text(alloc: Global, keys: &[ReportedKey]) -> Result<String, AllocError>
    ensures { IfOk result (λ text. string_bytes text ≡ table_text keys.now) }
{
    let mut text = String::new(alloc);
    for key in keys {
        let line = key_text(alloc, *key)?;
        text.push_str(line.as_str())?;
    }
    let count = keys.len();
    let last = format!(in alloc; "keys {count}\n")?;
    text.push_str(last.as_str())?;
    Ok(text)
}

fn key_text(alloc: Global, key: ReportedKey) -> Result<String, AllocError>
    ensures { IfOk result (λ text. string_bytes text ≡ key_text key) }
{
    let lac = key.cell.lac;
    let ci = key.cell.ci;
    let message_id = key.message_id;
    let serial = serial_text(alloc, key.serial)?;
    let presence = presence_name(key.presence);
    format!(in alloc; "{lac} {ci} {message_id} {serial} {presence}\n")
}

/// How the key stands; none of a table is absent.
fn presence_name(presence: Presence) -> &'static str
    ensures { result.now ≡ presence_name presence }
{
    match presence {
        Presence::Absent => "absent",
        Presence::OnAir => "onair",
        Presence::Unknown => "unknown",
    }
}
