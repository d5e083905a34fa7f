//! The texts of answers.

ghost use Rattle.std.specs.Prelude.{◌≡◌, IfOk, string_bytes};
ghost use Rattle.cbsp_messages.specs.Written.{Fits};
ghost use Rattle.centre_past.specs.Fits.{AnswerFits};
ghost use Rattle.console_text.specs.Texts.{limit_name, refusal_name, refused_text, sent_text, accepted_text, fault_name, fault_value, fault_text, number_text, value_text, board_text, folded_text, response_text, ResponseFits};

use crate::digits::serial_text;
use crate::list_text::{pending_text, table_text};
use crate::response::Response;
use cbsp_ie::IeFault;
use cbsp_messages::{Message, MessageFault, write};
use centre_events::answer::Answer;
use centre_events::refusal::{Limit, Refusal};
use coverage_board::Numbers;
use std::alloc::{AllocError, Global};

/// The text of the answer.
pub fn response_text(alloc: Global, response: Response) -> Result<String, AllocError>
    requires { ResponseFits response }
    ensures { IfOk result (λ text. string_bytes text ≡ response_text response) }
{
    let text = text_of(alloc, &response);
    drop(response);
    text
}

fn text_of(alloc: Global, response: &Response) -> Result<String, AllocError>
    requires { ResponseFits response.now }
    ensures { IfOk result (λ text. string_bytes text ≡ response_text response.now) }
{
    match response {
        Response::Silence => Ok(String::new(alloc)),
        Response::BadLine => String::from_str(alloc, "bad line\n"),
        Response::BadHex => String::from_str(alloc, "bad hex\n"),
        Response::BadFrame => String::from_str(alloc, "bad frame\n"),
        Response::Skipped => String::from_str(alloc, "skipped\n"),
        Response::BadMessage(fault) => fault_text(alloc, *fault),
        Response::Accepted { number, answer } => accepted_text(alloc, *number, answer),
        Response::Refused(refusal) => refused_text(alloc, *refusal),
        Response::Board(numbers) => board_text(alloc, *numbers),
        Response::Set => String::from_str(alloc, "set\n"),
        Response::Pending(orders) => pending_text(alloc, orders.as_slice()),
        Response::Table(keys) => table_text(alloc, keys.as_slice()),
        Response::Rebuilt => String::from_str(alloc, "rebuilt\n"),
        Response::Folded(count) => folded_text(alloc, *count),
    }
}

/// The number of the entry, and the frame of the message.
fn sent_text(alloc: Global, number: u64, message: &Message) -> Result<String, AllocError>
    requires { Fits message.now }
    ensures { IfOk result (λ text. string_bytes text ≡ sent_text number message.now) }
{
    let octets = write(alloc, message)?;
    let digits = hex::encode(alloc, octets.as_slice())?;
    format!(in alloc; "ok {number} tx {digits}\n")
}

fn accepted_text(alloc: Global, number: u64, answer: &Answer) -> Result<String, AllocError>
    requires { AnswerFits answer.now }
    ensures { IfOk result (λ text. string_bytes text ≡ accepted_text number answer.now) }
{
    match answer {
        Answer::Done => format!(in alloc; "ok {number}\n"),
        Answer::Issued(warning, serial) => {
            let warning = warning.number();
            let serial = serial_text(alloc, *serial)?;
            format!(in alloc; "ok {number} warning {warning} serial {serial}\n")
        }
        Answer::Updated(serial) => {
            let serial = serial_text(alloc, *serial)?;
            format!(in alloc; "ok {number} serial {serial}\n")
        }
        Answer::Link(generation) => format!(in alloc; "ok {number} link {generation}\n"),
        Answer::Sent { order: _, message } => sent_text(alloc, number, message),
        Answer::Asked {
            message_id: _,
            serial: _,
            cells: _,
            message,
        } => sent_text(alloc, number, message),
        Answer::Replied(replies) => {
            let cells = replies.as_slice().len();
            format!(in alloc; "ok {number} cells {cells}\n")
        }
        Answer::Listed(cells) => {
            let cells = cells.as_slice().len();
            format!(in alloc; "ok {number} cells {cells}\n")
        }
    }
}

fn refused_text(alloc: Global, refusal: Refusal) -> Result<String, AllocError>
    ensures { IfOk result (λ text. string_bytes text ≡ refused_text refusal) }
{
    let number = refusal.number();
    let name = refusal_name(refusal);
    match refusal {
        Refusal::StaleLink { now } => format!(in alloc; "no {number} {name} {now}\n"),
        Refusal::WrongDesk { position } => format!(in alloc; "no {number} {name} {position}\n"),
        Refusal::Limit { which } => {
            let which = limit_name(which);
            format!(in alloc; "no {number} {name} {which}\n")
        }
        _ => format!(in alloc; "no {number} {name}\n"),
    }
}

fn limit_name(limit: Limit) -> &'static str
    ensures { result.now ≡ limit_name limit }
{
    match limit {
        Limit::Bscs => "Bscs",
        Limit::Cells => "Cells",
        Limit::Areas => "Areas",
        Limit::Selectors => "Selectors",
        Limit::Warnings => "Warnings",
        Limit::WarningAreas => "WarningAreas",
        Limit::Ids => "Ids",
        Limit::Desks => "Desks",
    }
}

/// The name of a refusal, as operators see it behind its number.
pub fn refusal_name(refusal: Refusal) -> &'static str
    ensures { result.now ≡ refusal_name refusal }
{
    match refusal {
        Refusal::Stale => "Stale",
        Refusal::JournalFull => "JournalFull",
        Refusal::NoSuchBsc => "NoSuchBsc",
        Refusal::BscExists => "BscExists",
        Refusal::BscHasCells => "BscHasCells",
        Refusal::LinkIsUp => "LinkIsUp",
        Refusal::CellExists => "CellExists",
        Refusal::NoSuchCell => "NoSuchCell",
        Refusal::SameBsc => "SameBsc",
        Refusal::BadName => "BadName",
        Refusal::AreaExists => "AreaExists",
        Refusal::NoSuchArea => "NoSuchArea",
        Refusal::AreaInUse => "AreaInUse",
        Refusal::SelectorThere => "SelectorThere",
        Refusal::SelectorNotThere => "SelectorNotThere",
        Refusal::NoSuchWarning => "NoSuchWarning",
        Refusal::NotActive => "NotActive",
        Refusal::StillActive => "StillActive",
        Refusal::StillReported => "StillReported",
        Refusal::StillInFlight => "StillInFlight",
        Refusal::NoAreas => "NoAreas",
        Refusal::AreaThere => "AreaThere",
        Refusal::AreaNotThere => "AreaNotThere",
        Refusal::LastArea => "LastArea",
        Refusal::BadPages => "BadPages",
        Refusal::BadPeriod => "BadPeriod",
        Refusal::WrongKind => "WrongKind",
        Refusal::StaleLink { .. } => "StaleLink",
        Refusal::LinkNotUp => "LinkNotUp",
        Refusal::InFlight => "InFlight",
        Refusal::NothingPending => "NothingPending",
        Refusal::NothingToAsk => "NothingToAsk",
        Refusal::NoOrder => "NoOrder",
        Refusal::Limit { .. } => "Limit",
        Refusal::Memory => "Memory",
        Refusal::WrongDesk { .. } => "WrongDesk",
    }
}

fn fault_text(alloc: Global, fault: MessageFault) -> Result<String, AllocError>
    ensures { IfOk result (λ text. string_bytes text ≡ fault_text fault) }
{
    let number = number_text(alloc, fault.number())?;
    let name = fault_name(fault);
    let value = value_text(alloc, fault_value(fault))?;
    format!(in alloc; "bad message{number} {name}{value}\n")
}

fn number_text(alloc: Global, number: Option<u8>) -> Result<String, AllocError>
    ensures { IfOk result (λ text. string_bytes text ≡ number_text number) }
{
    match number {
        Some(number) => format!(in alloc; " {number}"),
        None => Ok(String::new(alloc)),
    }
}

fn value_text(alloc: Global, value: Option<u8>) -> Result<String, AllocError>
    ensures { IfOk result (λ text. string_bytes text ≡ value_text value) }
{
    match value {
        Some(value) => {
            let digits = hex::encode_upper(alloc, [value])?;
            format!(in alloc; " {digits}")
        }
        None => Ok(String::new(alloc)),
    }
}

fn fault_value(fault: MessageFault) -> Option<u8>
    ensures { result ≡ fault_value fault }
{
    match fault {
        MessageFault::Element(IeFault::UnknownElement { id }) => Some(id),
        MessageFault::Element(IeFault::BadDiscriminator { discriminator }) => Some(discriminator),
        MessageFault::Repeated { id } | MessageFault::Missing { id } => Some(id.code()),
        _ => None,
    }
}

fn fault_name(fault: MessageFault) -> &'static str
    ensures { result.now ≡ fault_name fault }
{
    match fault {
        MessageFault::Element(IeFault::Cut) => "Cut",
        MessageFault::Element(IeFault::UnknownElement { .. }) => "UnknownElement",
        MessageFault::Element(IeFault::BadDiscriminator { .. }) => "BadDiscriminator",
        MessageFault::Element(IeFault::PartialEntry) => "PartialEntry",
        MessageFault::Element(IeFault::LongPage) => "LongPage",
        MessageFault::Repeated { .. } => "Repeated",
        MessageFault::Missing { .. } => "Missing",
        MessageFault::BadPages => "BadPages",
        MessageFault::NotInProfile => "NotInProfile",
        MessageFault::Memory => "Memory",
    }
}

fn folded_text(alloc: Global, count: u64) -> Result<String, AllocError>
    ensures { IfOk result (λ text. string_bytes text ≡ folded_text count) }
{
    format!(in alloc; "folded {count}\n")
}

fn board_text(alloc: Global, numbers: Numbers) -> Result<String, AllocError>
    ensures { IfOk result (λ text. string_bytes text ≡ board_text numbers) }
{
    let Numbers {
        awaited,
        on_air,
        failed,
        left,
        broadcasts,
    } = numbers;
    format!(in alloc;
        "awaited {awaited} onair {on_air} failed {failed} left {left} broadcasts {broadcasts}\n"
    )
}
