//! The fields of a record.

ghost use Rattle.std.specs.Prelude.{◌≡◌, ◌++◌, ◌∷◌, [], OnOk, decimal};
ghost use Rattle.csv.specs.Records.{fields_of};
ghost use Rattle.status_figures.specs.Tables.{HasWholeFields, flight_fields, link_fields, number_fields, number_if, serial_if, warning_fields};

use crate::bsc_figures::BscFigures;
use crate::words::{flight_name, four_digits, kind_name, link_word, state_name};
use centre_past::lists::{FlightRow, WarningRow};
use coverage_board::Numbers;
use csv::ByteRecord;
use serials::Serial;
use std::alloc::{AllocError, Global};

/// Appends a field.
pub(crate) fn push_text(row: &mut ByteRecord, text: &[u8]) -> Result<(), AllocError>
    requires { HasWholeFields row.old }
    ensures fields { OnOk result (fields_of row.new ≡ fields_of row.old ++ text.now ∷ []) }
    ensures whole { OnOk result (HasWholeFields row.new) }
{
    row.push_field(text)
}

/// Appends a field with a number.
pub(crate) fn push_number(
    alloc: Global,
    row: &mut ByteRecord,
    number: u64,
) -> Result<(), AllocError>
    requires { HasWholeFields row.old }
    ensures fields { OnOk result (fields_of row.new ≡ fields_of row.old ++ decimal number ∷ []) }
    ensures whole { OnOk result (HasWholeFields row.new) }
{
    let digits = format!(in alloc; "{number}")?;
    push_text(row, digits.as_bytes())
}

/// Appends a field with a number, or an empty one.
pub(crate) fn push_number_if(
    alloc: Global,
    row: &mut ByteRecord,
    number: Option<u64>,
) -> Result<(), AllocError>
    requires { HasWholeFields row.old }
    ensures fields { OnOk result (fields_of row.new ≡ fields_of row.old ++ number_if number ∷ []) }
    ensures whole { OnOk result (HasWholeFields row.new) }
{
    match number {
        None => push_text(row, b""),
        Some(number) => push_number(alloc, row, number),
    }
}

fn push_digits(alloc: Global, row: &mut ByteRecord, serial: Serial) -> Result<(), AllocError>
    requires { HasWholeFields row.old }
    ensures fields { OnOk result (fields_of row.new ≡ fields_of row.old ++ serial_if (Some serial) ∷ []) }
    ensures whole { OnOk result (HasWholeFields row.new) }
{
    let digits = four_digits(alloc, serial.to_u16())?;
    push_text(row, digits.as_bytes())
}

fn push_serial(
    alloc: Global,
    row: &mut ByteRecord,
    serial: Option<Serial>,
) -> Result<(), AllocError>
    requires { HasWholeFields row.old }
    ensures fields { OnOk result (fields_of row.new ≡ fields_of row.old ++ serial_if serial ∷ []) }
    ensures whole { OnOk result (HasWholeFields row.new) }
{
    match serial {
        None => push_text(row, b""),
        Some(serial) => push_digits(alloc, row, serial),
    }
}

/// Appends a field for each number of a board.
pub(crate) fn push_numbers(
    alloc: Global,
    row: &mut ByteRecord,
    numbers: Numbers,
) -> Result<(), AllocError>
    requires { HasWholeFields row.old }
    ensures fields { OnOk result (fields_of row.new ≡ fields_of row.old ++ number_fields numbers) }
    ensures whole { OnOk result (HasWholeFields row.new) }
{
    push_number(alloc, row, numbers.awaited)?;
    push_number(alloc, row, numbers.on_air)?;
    push_number(alloc, row, numbers.failed)?;
    push_number(alloc, row, numbers.left)?;
    push_number(alloc, row, numbers.broadcasts)
}

/// Appends the fields that name a warning.
pub(crate) fn push_warning(
    alloc: Global,
    row: &mut ByteRecord,
    warning: &WarningRow,
) -> Result<(), AllocError>
    requires { HasWholeFields row.old }
    ensures fields { OnOk result (fields_of row.new ≡ fields_of row.old ++ warning_fields warning.now) }
    ensures whole { OnOk result (HasWholeFields row.new) }
{
    push_number(alloc, row, u64::from(warning.number.number()))?;
    push_number(alloc, row, u64::from(warning.message_id))?;
    push_serial(alloc, row, warning.serial)?;
    push_text(row, kind_name(warning.kind).as_bytes())?;
    push_text(row, state_name(warning.is_active).as_bytes())
}

/// Appends the fields of a BSC and its link.
pub(crate) fn push_link(
    alloc: Global,
    row: &mut ByteRecord,
    bsc: &BscFigures,
) -> Result<(), AllocError>
    requires { HasWholeFields row.old }
    ensures fields { OnOk result (fields_of row.new ≡ fields_of row.old ++ link_fields bsc.now) }
    ensures whole { OnOk result (HasWholeFields row.new) }
{
    push_number(alloc, row, u64::from(bsc.row.bsc.number()))?;
    push_number(alloc, row, bsc.row.cells as u64)?;
    push_text(row, link_word(bsc).as_bytes())?;
    push_number(alloc, row, bsc.row.last)
}

/// Appends the fields of what is in flight.
pub(crate) fn push_flight(
    alloc: Global,
    row: &mut ByteRecord,
    flight: Option<FlightRow>,
) -> Result<(), AllocError>
    requires { HasWholeFields row.old }
    ensures fields { OnOk result (fields_of row.new ≡ fields_of row.old ++ flight_fields flight) }
    ensures whole { OnOk result (HasWholeFields row.new) }
{
    match flight {
        None => {
            push_text(row, b"")?;
            push_text(row, b"")?;
            push_text(row, b"")
        }
        Some(flight) => {
            push_text(row, flight_name(flight.kind).as_bytes())?;
            push_number(alloc, row, u64::from(flight.message_id))?;
            push_digits(alloc, row, flight.serial)
        }
    }
}
