// SPDX-License-Identifier: Apache-2.0 OR MIT
//! Records of a file, one after another.
ghost use Rattle.std.specs.Prelude.{◌≡◌, [], IfOk, unwrap_or};
ghost use Rattle.csv.specs.Records.{field_at, fields_of};
ghost use Rattle.cr_base.specs.Decoding.{Decodes};
ghost use Rattle.cr_bulk.specs.Reading.{IsReading, NextTold, left_of};
ghost use Rattle.cr_bulk.specs.Rows.{records_of, parse_row};

use cr_base::{Blob, BulkRow, DecodeError};
use csv::{ByteRecord, Reader, ReaderBuilder};
use std::alloc::{AllocError, Global};

/// Returns a reader over the records of a text, with the default settings of `csv`, except that the header is a record
/// like the others, and that records may differ in length. `row_of` looks at their length, so an error is only lack of
/// memory.
pub(crate) fn reader_over(alloc: Global, text: &[u8]) -> Reader<&[u8]>
    ensures reading { IsReading result }
    ensures left { left_of result ≡ records_of text.now }
{
    ReaderBuilder::new()
        .has_headers(false)
        .flexible(true)
        .from_reader(alloc, text)
}

/// Reads the next record; false where there is none.
pub(crate) fn read_next(
    reader: &mut Reader<&[u8]>,
    fields: &mut ByteRecord,
) -> Result<bool, DecodeError>
    requires { IsReading reader.old }
    ensures { NextTold result reader.old reader.new (fields_of fields.new) }
{
    let Ok(found) = reader.read_byte_record(fields) else {
        return Err(DecodeError::OutOfMemory);
    };
    Ok(found)
}

/// Returns a field of a record by its column, copied; empty where the record is shorter.
fn field(alloc: Global, fields: &ByteRecord, column: usize) -> Result<Blob, AllocError>
    ensures { IfOk result (λ blob. blob ≡ unwrap_or (field_at (fields_of fields.now) column) []) }
{
    match fields.get(column) {
        Some(bytes) => Blob::from_slice(alloc, bytes),
        None => Ok(Blob::empty()),
    }
}

/// Returns the row of a record: `Malformed` where it hasn't four fields.
pub(crate) fn row_of(alloc: Global, fields: &ByteRecord) -> Result<BulkRow, DecodeError>
    ensures { Decodes result (parse_row (fields_of fields.now)) }
{
    if fields.len() != 4 {
        return Err(DecodeError::Malformed);
    }
    let paper = field(alloc, fields, 0)?;
    let action = field(alloc, fields, 1)?;
    let user = field(alloc, fields, 2)?;
    let tag = field(alloc, fields, 3)?;
    Ok(BulkRow {
        paper,
        action,
        user,
        tag,
    })
}
