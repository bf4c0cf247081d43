// SPDX-License-Identifier: Apache-2.0 OR MIT
//! Bytes appended to a buffer, which grows where it has to.
ghost use Rattle.std.specs.Prelude.{length, decimal};
ghost use Rattle.cr_json.specs.Put.{Appends, Takes};

use itoa::Buffer;
use std::alloc::AllocError;

/// Appends a piece; the buffer grows where it has to.
pub(crate) fn append(into: &mut Vec<u8>, piece: &[u8]) -> Result<(), AllocError>
    ensures text { Appends result into.old into.new piece.now }
    ensures room { Takes result into.old into.new (length piece.now) }
{
    into.extend_from_slice(piece)?;
    Ok(())
}

/// Appends a number's decimal digits, at most 20; the buffer grows where it has to.
pub(crate) fn append_number(into: &mut Vec<u8>, number: u64) -> Result<(), AllocError>
    ensures text { Appends result into.old into.new (decimal number) }
    ensures room { Takes result into.old into.new 20 }
{
    let mut buffer = Buffer::new();
    append(into, buffer.format(number).as_bytes())?;
    Ok(())
}
