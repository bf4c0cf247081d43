// SPDX-License-Identifier: Apache-2.0 OR MIT
//! The header of a file.
ghost use Rattle.std.specs.Prelude.{◌≡◌, OnOk};
ghost use Rattle.cr_bulk.specs.Rows as spec;
ghost use Rattle.cr_bulk.specs.Reading.{HeaderTold, IsReading, left_of};

use crate::record::{read_next, row_of};
use cr_base::{BulkRow, DecodeError};
use csv::{ByteRecord, Reader};
use std::alloc::Global;

/// Returns whether these are the names of the columns.
fn is_header(row: &BulkRow) -> bool
    ensures { result ≡ spec.is_header row.now }
{
    row.paper.as_slice() == b"paper".as_slice()
        && row.action.as_slice() == b"action".as_slice()
        && row.user.as_slice() == b"user".as_slice()
        && row.tag.as_slice() == b"tag".as_slice()
}

/// Reads the header, which is the first record.
pub(crate) fn read_header(alloc: Global, reader: &mut Reader<&[u8]>) -> Result<(), DecodeError>
    requires { IsReading reader.old }
    ensures { HeaderTold result reader.old reader.new }
{
    let mut fields = ByteRecord::new(alloc);
    if !read_next(reader, &mut fields)? {
        return Err(DecodeError::Malformed);
    }
    let header = row_of(alloc, &fields)?;
    if is_header(&header) {
        Ok(())
    } else {
        Err(DecodeError::Malformed)
    }
}
