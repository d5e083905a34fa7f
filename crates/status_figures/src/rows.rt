//! Records of a table.

ghost use Rattle.std.specs.Prelude.{◌≡◌, ◌++◌, IfOk, OnOk};
ghost use Rattle.std.specs.List.{flat_map};
ghost use Rattle.csv.specs.Records.{fields_of};
ghost use Rattle.status_figures.specs.Tables.{area_record, board_fields, bsc_record, record_text, warning_records};

use crate::area_board::AreaBoard;
use crate::bsc_figures::BscFigures;
use crate::fields::{
    push_flight, push_link, push_number, push_number_if, push_numbers, push_text, push_warning,
};
use crate::warning_figures::WarningFigures;
use centre_past::lists::WarningRow;
use coverage_board::Numbers;
use csv::{ByteRecord, Error, WriterBuilder};
use std::alloc::{AllocError, Global};

/// The text of a record. A writer to memory fails only where there is none.
fn record_octets(alloc: Global, row: &ByteRecord) -> Result<Vec<u8>, Error>
    ensures { IfOk result (λ octets. octets.items ≡ record_text (fields_of row.now)) }
{
    let mut writer = WriterBuilder::new().from_writer(Vec::new(alloc));
    writer.write_byte_record(row)?;
    match writer.into_inner() {
        Ok(octets) => Ok(octets),
        Err(error) => Err(error.into_error()),
    }
}

/// Appends a record.
fn push_record(alloc: Global, out: &mut Vec<u8>, row: &ByteRecord) -> Result<(), AllocError>
    ensures { OnOk result (out.new.items ≡ out.old.items ++ record_text (fields_of row.now)) }
{
    match record_octets(alloc, row) {
        Ok(octets) => out.extend_from_slice(octets.as_slice()),
        Err(error) => {
            drop(error);
            Err(AllocError)
        }
    }
}

/// Appends the record of a board.
fn push_board(
    alloc: Global,
    out: &mut Vec<u8>,
    warning: &WarningRow,
    area: &[u8],
    numbers: Numbers,
) -> Result<(), AllocError>
    ensures { OnOk result (out.new.items ≡ out.old.items ++ record_text (board_fields warning.now area.now numbers)) }
{
    let mut row = ByteRecord::new(alloc);
    push_warning(alloc, &mut row, warning)?;
    push_text(&mut row, area)?;
    push_numbers(alloc, &mut row, numbers)?;
    push_record(alloc, out, &row)
}

/// Appends a record for each area.
fn push_areas(
    alloc: Global,
    out: &mut Vec<u8>,
    warning: &WarningRow,
    areas: &[AreaBoard],
) -> Result<(), AllocError>
    ensures { OnOk result (out.new.items ≡ out.old.items ++ flat_map (area_record warning.now) areas.now) }
{
    for area in areas {
        push_board(alloc, out, warning, area.name.as_slice(), area.numbers)?;
    }
    Ok(())
}

/// Appends the record of a warning, and those of its areas.
pub(crate) fn push_boards(
    alloc: Global,
    out: &mut Vec<u8>,
    warning: &WarningFigures,
) -> Result<(), AllocError>
    ensures { OnOk result (out.new.items ≡ out.old.items ++ warning_records warning.now) }
{
    let row = &warning.sheet.row;
    push_board(alloc, out, row, b"", row.numbers)?;
    push_areas(alloc, out, row, warning.areas.as_slice())
}

/// Appends the record of a BSC.
pub(crate) fn push_bsc(alloc: Global, out: &mut Vec<u8>, bsc: &BscFigures) -> Result<(), AllocError>
    ensures { OnOk result (out.new.items ≡ out.old.items ++ bsc_record bsc.now) }
{
    let mut row = ByteRecord::new(alloc);
    push_link(alloc, &mut row, bsc)?;
    push_flight(alloc, &mut row, bsc.row.flight)?;
    push_number_if(alloc, &mut row, bsc.since.or(bsc.reset))?;
    push_number(alloc, &mut row, bsc.row.pending as u64)?;
    push_record(alloc, out, &row)
}
