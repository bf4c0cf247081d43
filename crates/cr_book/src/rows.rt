// SPDX-License-Identifier: Apache-2.0 OR MIT
//! The rows that the entries of one command or bulk are kept in, and copies of the entries.
ghost use Rattle.std.specs.Prelude.{◌≡◌, IfOk};
ghost use Rattle.cr_base.specs.Rows.{rows_of};

use cr_base::{Row, Stamped};
use std::alloc::{AllocError, Global};

/// Returns the row of each entry, in order.
///
/// # Errors
///
/// Only for lack of memory.
pub(crate) fn rows_of(alloc: Global, group: &[Stamped]) -> Result<Vec<Row>, AllocError>
    ensures { IfOk result (λ rows. rows.items ≡ rows_of group.now) }
{
    let mut rows = Vec::with_capacity(alloc, group.len())?;
    for stamped in group {
        rows.push(stamped.entry.to_row(alloc, stamped.stamp, stamped.more)?)?;
    }
    Ok(rows)
}

/// Returns an equal entry for each, in order, which shares its texts.
///
/// # Errors
///
/// Only for lack of memory.
pub(crate) fn copies_of(alloc: Global, group: &[Stamped]) -> Result<Vec<Stamped>, AllocError>
    ensures { IfOk result (λ copies. copies.items ≡ group.now) }
{
    let mut copies = Vec::with_capacity(alloc, group.len())?;
    for stamped in group {
        copies.push(stamped.copy()?)?;
    }
    Ok(copies)
}
