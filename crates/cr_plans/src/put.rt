// SPDX-License-Identifier: Apache-2.0 OR MIT
//! Bytes appended to a plan's text. Each call has an error only for lack of memory.
ghost use Rattle.std.specs.Prelude.{◌≡◌, ◌++◌, OnOk};
ghost use Rattle.cr_base.specs.Plans.{plan_header, plan_row};

use itoa::Buffer;
use std::alloc::AllocError;

/// Appends a piece.
fn append(into: &mut Vec<u8>, piece: &[u8]) -> Result<(), AllocError>
    ensures { OnOk result (into.new.items ≡ into.old.items ++ piece.now) }
{
    into.extend_from_slice(piece)?;
    Ok(())
}

/// Appends the header of a bulk's file.
#[tactic(auto, unfolding(cr_base::specs::Plans::plan_header))]
pub(crate) fn append_header(into: &mut Vec<u8>) -> Result<(), AllocError>
    ensures { OnOk result (into.new.items ≡ into.old.items ++ plan_header) }
{
    append(into, b"paper,action,user,tag\n")
}

/// Appends the row that assigns the user of a name to the paper of a number.
#[tactic(auto, unfolding(cr_base::specs::Plans::plan_row))]
pub(crate) fn append_row(into: &mut Vec<u8>, paper: u64, name: &[u8]) -> Result<(), AllocError>
    ensures { OnOk result (into.new.items ≡ into.old.items ++ plan_row paper name.now) }
{
    let mut buffer = Buffer::new();
    append(into, buffer.format(paper).as_bytes())?;
    append(into, b",pcreview,")?;
    append(into, name)?;
    append(into, b",\n")
}
