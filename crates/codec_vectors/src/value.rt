//! Values of a message as the file has them.

use cbsp_ie::{CellId, CellIds, CountEntry, Counts, FailEntry, Failures, Form};
use cbsp_messages::Page;
use std::fmt;

/// A value, printed as in the file.
#[derive(Drop)]
pub enum Value<'m> {
    Number(u16),
    Cells(&'m CellIds),
    Counts(&'m Counts),
    Failures(&'m Failures),
    Page(&'m Page),
    Octets(&'m [u8]),
}

impl fmt::Display for Value<'_> {
    fn fmt<W: fmt::Write>(&self, f: &mut fmt::Formatter<W>) -> fmt::Result {
        match self {
            Value::Number(number) => write!(f, "{number}"),
            Value::Cells(cells) => print_cells(f, cells),
            Value::Counts(counts) => print_counts(f, counts.form(), counts.entries()),
            Value::Failures(failures) => print_failures(f, failures.as_slice()),
            Value::Page(page) => print_page(f, page),
            Value::Octets(octets) => print_octets(f, octets),
        }
    }
}

fn print_cells<W: fmt::Write>(f: &mut fmt::Formatter<W>, cells: &CellIds) -> fmt::Result {
    let form = form_name(cells.form());
    if let Form::All = cells.form() {
        return write!(f, "{form}");
    }
    write!(f, "{form}[")?;
    for (index, id) in cells.ids().iter().enumerate() {
        let space = if index == 0 { "" } else { " " };
        let id = Identification(id);
        write!(f, "{space}{id}")?;
    }
    write!(f, "]")
}

fn print_counts<W: fmt::Write>(
    f: &mut fmt::Formatter<W>,
    form: Form,
    entries: &[CountEntry],
) -> fmt::Result {
    let form = form_name(form);
    write!(f, "{form}[")?;
    for (index, entry) in entries.iter().enumerate() {
        let space = if index == 0 { "" } else { " " };
        let id = Identification(&entry.id);
        let number = entry.number;
        let info = entry.info;
        write!(f, "{space}{id}={number}/{info}")?;
    }
    write!(f, "]")
}

fn print_failures<W: fmt::Write>(f: &mut fmt::Formatter<W>, entries: &[FailEntry]) -> fmt::Result {
    write!(f, "[")?;
    for (index, entry) in entries.iter().enumerate() {
        let space = if index == 0 { "" } else { " " };
        let form = form_name(entry.id.form());
        let id = Identification(&entry.id);
        let cause = entry.cause.0;
        write!(f, "{space}{form}:{id}={cause}")?;
    }
    write!(f, "]")
}

fn print_page<W: fmt::Write>(f: &mut fmt::Formatter<W>, page: &Page) -> fmt::Result {
    let used = page.used();
    write!(f, "used {used} ")?;
    if used == 0 {
        return write!(f, "-");
    }
    for octet in page.octets().iter().take(usize::from(used)) {
        write!(f, "{octet:02x}")?;
    }
    Ok(())
}

fn print_octets<W: fmt::Write>(f: &mut fmt::Formatter<W>, octets: &[u8]) -> fmt::Result {
    for octet in octets {
        write!(f, "{octet:02x}")?;
    }
    Ok(())
}

/// An identification without its form.
#[derive(Drop)]
struct Identification<'m>(&'m CellId);

impl fmt::Display for Identification<'_> {
    fn fmt<W: fmt::Write>(&self, f: &mut fmt::Formatter<W>) -> fmt::Result {
        match self.0 {
            CellId::Global { plmn, lac, ci } => {
                let [first, second, third] = *plmn;
                write!(f, "{first:02x}{second:02x}{third:02x}.{lac}.{ci}")
            }
            CellId::LacCi { lac, ci } => write!(f, "{lac}.{ci}"),
            CellId::Ci { ci } => write!(f, "{ci}"),
            CellId::Lai { plmn, lac } => {
                let [first, second, third] = *plmn;
                write!(f, "{first:02x}{second:02x}{third:02x}.{lac}")
            }
            CellId::Lac { lac } => write!(f, "{lac}"),
            CellId::All => write!(f, "-"),
        }
    }
}

fn form_name(form: Form) -> &'static str {
    match form {
        Form::Global => "global",
        Form::LacCi => "lacci",
        Form::Ci => "ci",
        Form::Lai => "lai",
        Form::Lac => "lac",
        Form::All => "all",
    }
}
