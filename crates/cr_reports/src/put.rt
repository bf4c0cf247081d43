// SPDX-License-Identifier: Apache-2.0 OR MIT
//! Bytes appended to a report. Each call's error is that memory ran out.
ghost use Rattle.std.specs.Prelude.{◌≡◌, ◌++◌, OnOk, decimal};
ghost use Rattle.cr_base.specs.Reports.{line_end, space};

use itoa::Buffer;
use std::alloc::AllocError;

/// Appends a piece.
pub(crate) fn append(into: &mut Vec<u8>, piece: &[u8]) -> Result<(), AllocError>
    ensures { OnOk result (into.new.items ≡ into.old.items ++ piece.now) }
{
    into.extend_from_slice(piece)?;
    Ok(())
}

/// Appends a number's decimal digits, at most 20.
pub(crate) fn append_number(into: &mut Vec<u8>, number: u64) -> Result<(), AllocError>
    ensures { OnOk result (into.new.items ≡ into.old.items ++ decimal number) }
{
    let mut buffer = Buffer::new();
    append(into, buffer.format(number).as_bytes())
}

/// Appends a space.
#[tactic(auto, unfolding(cr_base::specs::Reports::space))]
pub(crate) fn append_space(into: &mut Vec<u8>) -> Result<(), AllocError>
    ensures { OnOk result (into.new.items ≡ into.old.items ++ space) }
{
    append(into, b" ")
}

/// Ends a line.
#[tactic(auto, unfolding(cr_base::specs::Reports::line_end))]
pub(crate) fn end_line(into: &mut Vec<u8>) -> Result<(), AllocError>
    ensures { OnOk result (into.new.items ≡ into.old.items ++ line_end) }
{
    append(into, b"\n")
}
