//! The fields of a message, in the order of the file.

use crate::value::Value;
use anyhow::{Result, ensure};
use cbsp_ie::{CellIds, Counts, Failures};
use cbsp_messages::{
    ErrorIndication, Failure, Kill, KillComplete, KillFailure, Message, Page, Restart,
    StatusComplete, StatusFailure, StatusQuery, WriteComplete, WriteEmergency, WriteFailure,
    WriteReplace,
};
use std::alloc::Global;

/// A field: its name and its value.
#[derive(Drop)]
pub struct Field<'m> {
    pub name: &'static str,
    pub value: Value<'m>,
}

/// The fields of a message, and whether there was no memory for one of them.
#[derive(Drop)]
struct Fields<'m> {
    fields: Vec<Field<'m>>,
    is_short: bool,
}

impl<'m> Fields<'m> {
    fn put(&mut self, name: &'static str, value: Value<'m>) {
        match self.fields.push(Field { name, value }) {
            Ok(_) => {}
            Err(error) => {
                drop(error);
                self.is_short = true;
            }
        }
    }

    fn put_number(&mut self, name: &'static str, number: Option<u16>) {
        match number {
            Some(number) => self.put(name, Value::Number(number)),
            None => {}
        }
    }

    /// The numbers that name a message.
    fn put_names(&mut self, message_id: u16, serial: u16, old: Option<u16>) {
        self.put("message_id", Value::Number(message_id));
        self.put("serial", Value::Number(serial));
        self.put_number("old", old);
    }

    fn put_failures(&mut self, failures: &'m Failures) {
        self.put("failures", Value::Failures(failures));
    }

    fn put_counts(&mut self, counts: Option<&'m Counts>) {
        match counts {
            Some(counts) => self.put("counts", Value::Counts(counts)),
            None => {}
        }
    }

    fn put_cells(&mut self, cells: Option<&'m CellIds>) {
        match cells {
            Some(cells) => self.put("cells", Value::Cells(cells)),
            None => {}
        }
    }

    fn put_octet(&mut self, name: &'static str, octet: u8) {
        self.put(name, Value::Number(u16::from(octet)));
    }

    fn put_channel(&mut self, channel: Option<u8>) {
        self.put_number("channel", channel.map(|channel| u16::from(channel)));
    }

    fn put_pages(&mut self, pages: &'m [Page]) {
        for page in pages {
            self.put("page", Value::Page(page));
        }
    }

    fn put_write_replace(&mut self, m: &'m WriteReplace) {
        self.put_names(m.message_id, m.serial, m.old);
        self.put_cells(Some(&m.cells));
        self.put_octet("category", m.category);
        self.put("period", Value::Number(m.period));
        self.put("requested", Value::Number(m.requested));
        self.put_octet("dcs", m.dcs);
        self.put_channel(m.channel);
        self.put_pages(m.pages.as_slice());
    }

    fn put_write_emergency(&mut self, m: &'m WriteEmergency) {
        self.put_names(m.message_id, m.serial, m.old);
        self.put_cells(Some(&m.cells));
        self.put_octet("indicator", m.indicator);
        self.put("warning_type", Value::Number(m.warning_type));
        self.put_octet("warning_period", m.warning_period);
        self.put("security", Value::Octets(&m.security));
    }

    fn put_write_complete(&mut self, m: &'m WriteComplete) {
        self.put_names(m.message_id, m.serial, m.old);
        self.put_counts(m.counts.as_ref());
        self.put_cells(m.cells.as_ref());
        self.put_channel(m.channel);
    }

    fn put_write_failure(&mut self, m: &'m WriteFailure) {
        self.put_names(m.message_id, m.serial, m.old);
        self.put_failures(&m.failures);
        self.put_counts(m.counts.as_ref());
        self.put_cells(m.cells.as_ref());
        self.put_channel(m.channel);
    }

    fn put_kill(&mut self, m: &'m Kill) {
        self.put_names(m.message_id, m.serial, None);
        self.put_cells(Some(&m.cells));
        self.put_channel(m.channel);
    }

    fn put_kill_complete(&mut self, m: &'m KillComplete) {
        self.put_names(m.message_id, m.serial, None);
        self.put_counts(m.counts.as_ref());
        self.put_cells(m.cells.as_ref());
        self.put_channel(m.channel);
    }

    fn put_kill_failure(&mut self, m: &'m KillFailure) {
        self.put_names(m.message_id, m.serial, None);
        self.put_failures(&m.failures);
        self.put_counts(m.counts.as_ref());
        self.put_cells(m.cells.as_ref());
        self.put_channel(m.channel);
    }

    fn put_status_query(&mut self, m: &'m StatusQuery) {
        self.put_names(m.message_id, m.serial, None);
        self.put_cells(Some(&m.cells));
        self.put_channel(m.channel);
    }

    fn put_status_complete(&mut self, m: &'m StatusComplete) {
        self.put_names(m.message_id, m.serial, None);
        self.put_counts(Some(&m.counts));
        self.put_channel(m.channel);
    }

    fn put_status_failure(&mut self, m: &'m StatusFailure) {
        self.put_names(m.message_id, m.serial, None);
        self.put_failures(&m.failures);
        self.put_counts(m.counts.as_ref());
        self.put_channel(m.channel);
    }

    fn put_restart(&mut self, m: &'m Restart) {
        self.put_cells(Some(&m.cells));
        self.put_octet("kind", m.kind);
        self.put_octet("recovery", m.recovery);
    }

    fn put_failure(&mut self, m: &'m Failure) {
        self.put_failures(&m.failures);
        self.put_octet("kind", m.kind);
    }

    fn put_error_indication(&mut self, m: &'m ErrorIndication) {
        self.put_octet("cause", m.cause.0);
        self.put_number("message_id", m.message_id);
        self.put_number("serial", m.serial);
        self.put_number("old", m.old);
        self.put_channel(m.channel);
    }

    fn put_message(&mut self, message: &'m Message) {
        match message {
            Message::WriteReplace(m) => self.put_write_replace(m),
            Message::WriteEmergency(m) => self.put_write_emergency(m),
            Message::WriteComplete(m) => self.put_write_complete(m),
            Message::WriteFailure(m) => self.put_write_failure(m),
            Message::Kill(m) => self.put_kill(m),
            Message::KillComplete(m) => self.put_kill_complete(m),
            Message::KillFailure(m) => self.put_kill_failure(m),
            Message::StatusQuery(m) => self.put_status_query(m),
            Message::StatusComplete(m) => self.put_status_complete(m),
            Message::StatusFailure(m) => self.put_status_failure(m),
            Message::Restart(m) => self.put_restart(m),
            Message::Failure(m) => self.put_failure(m),
            Message::ErrorIndication(m) => self.put_error_indication(m),
        }
    }
}

/// The fields that the message has.
pub fn fields_of(alloc: Global, message: &Message) -> Result<Vec<Field<'_>>> {
    let mut fields = Fields {
        fields: Vec::new(alloc),
        is_short: false,
    };
    fields.put_message(message);
    ensure!(!fields.is_short, "out of memory");
    Ok(fields.fields)
}
