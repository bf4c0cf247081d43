// SPDX-License-Identifier: Apache-2.0 OR MIT
//! The rows of a file.
ghost use Rattle.std.specs.Prelude.{◌≡◌, IfOk, option_and_then};
ghost use Rattle.cr_base.specs.Bulk.{IsBoundedBulk};
ghost use Rattle.cr_base.specs.Decoding.{Decodes, DecodesSeen};
ghost use Rattle.cr_bulk.specs.Reading.{IsReading, left_of};
ghost use Rattle.cr_bulk.specs.Rows.{if_few, records_of, parse_rows, rows_told, rows_under};

use crate::header::read_header;
use crate::record::{read_next, reader_over, row_of};
use cr_base::{BulkRow, BulkRows, DecodeError, MOST_ROWS, is_text};
use csv::{ByteRecord, Reader};
use std::alloc::Global;

/// Returns the rows after the header.
///
/// # Errors
///
/// `Malformed` if a record hasn't four fields, or there are more than 512.
fn read_behind(alloc: Global, reader: &mut Reader<&[u8]>) -> Result<Vec<BulkRow>, DecodeError>
    requires { IsReading reader.old }
    ensures told { DecodesSeen (λ rows. rows.items) result (option_and_then if_few (rows_told (left_of reader.old))) }
    ensures few { IfOk result (λ rows. IsBoundedBulk rows.items) }
{
    let mut fields = ByteRecord::new(alloc);
    let mut rows = Vec::new(alloc);
    'rows: while rows.len() < MOST_ROWS {
        if !read_next(reader, &mut fields)? {
            return Ok(rows);
        }
        let row = row_of(alloc, &fields)?;
        rows.reserve(1)?;
        rows.push_reserved(row);
    }
    if read_next(reader, &mut fields)? {
        return Err(DecodeError::Malformed);
    }
    Ok(rows)
}

/// Returns the rows of a text under its header.
fn read_under(alloc: Global, text: &[u8]) -> Result<Vec<BulkRow>, DecodeError>
    ensures told { DecodesSeen (λ rows. rows.items) result (rows_under (records_of text.now)) }
    ensures few { IfOk result (λ rows. IsBoundedBulk rows.items) }
{
    let mut reader = reader_over(alloc, text);
    read_header(alloc, &mut reader)?;
    read_behind(alloc, &mut reader)
}

/// Returns the rows of a file, which is comma-separated values (RFC 4180) as `csv` reads them, under the header
/// `paper,action,user,tag`: a mark of the byte order in front and empty lines don't count, and a line ends with LF, CR
/// or both. `Malformed` comes exactly if it isn't UTF-8, a record hasn't four fields, the first isn't the header, or
/// more than 512 follow, memory aside.
///
/// # Cost
///
/// Reads the file for its UTF-8, and then up to the record at which it turns out to be bad; each field is copied into
/// a block of its own.
#[tactic(auto, unfolding(crate::specs::Rows::parse_rows))]
pub fn read_rows(alloc: Global, bytes: &[u8]) -> Result<BulkRows, DecodeError>
    ensures told { Decodes result (parse_rows bytes.now) }
    ensures bounded { IfOk result IsBoundedBulk }
{
    if !is_text(bytes) {
        return Err(DecodeError::Malformed);
    }
    let rows = read_under(alloc, bytes)?;
    Ok(BulkRows::from_vec(alloc, rows)?)
}
