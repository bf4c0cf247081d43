// SPDX-License-Identifier: Apache-2.0 OR MIT
//! Columns: texts and numbers filled with spaces to a width. Each call's error is that memory ran out.
ghost use Rattle.std.specs.Prelude.{◌≡◌, ◌++◌, OnOk, replicate};
ghost use Rattle.cr_base.specs.Reports.{in_four, in_two, to_left, to_right};

use crate::put::append;
use itoa::Buffer;
use std::alloc::AllocError;

/// Appends so many spaces.
fn append_spaces(into: &mut Vec<u8>, count: usize) -> Result<(), AllocError>
    ensures { OnOk result (into.new.items ≡ into.old.items ++ replicate count 32) }
{
    for _ in 0..count {
        into.push(b' ')?;
    }
    Ok(())
}

/// Appends a text at the right of a column: spaces precede it.
fn append_right(into: &mut Vec<u8>, width: usize, text: &[u8]) -> Result<(), AllocError>
    ensures { OnOk result (into.new.items ≡ into.old.items ++ to_right width text.now) }
{
    append_spaces(into, width.saturating_sub(text.len()))?;
    append(into, text)
}

/// Appends a text at the left of a column: spaces follow it.
pub(crate) fn append_left(into: &mut Vec<u8>, width: usize, text: &[u8]) -> Result<(), AllocError>
    ensures { OnOk result (into.new.items ≡ into.old.items ++ to_left width text.now) }
{
    append(into, text)?;
    append_spaces(into, width.saturating_sub(text.len()))
}

/// Appends a number at the right of a column of four.
pub(crate) fn append_in_four(into: &mut Vec<u8>, number: u64) -> Result<(), AllocError>
    ensures { OnOk result (into.new.items ≡ into.old.items ++ in_four number) }
{
    let mut buffer = Buffer::new();
    append_right(into, 4, buffer.format(number).as_bytes())
}

/// Appends a number at the right of a column of two.
pub(crate) fn append_in_two(into: &mut Vec<u8>, number: u64) -> Result<(), AllocError>
    ensures { OnOk result (into.new.items ≡ into.old.items ++ in_two number) }
{
    let mut buffer = Buffer::new();
    append_right(into, 2, buffer.format(number).as_bytes())
}
