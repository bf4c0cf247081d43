// SPDX-License-Identifier: Apache-2.0 OR MIT
//! Lists that grow by what there is.
ghost use Rattle.std.specs.Prelude.{◌≡◌, ◌++◌, OnOk};
ghost use Rattle.cr_base.specs.Lists.{listed};

use std::alloc::AllocError;

/// Adds a value, where there is one.
///
/// # Errors
///
/// If memory runs out.
pub(crate) fn push_some<T: Drop>(items: &mut Vec<T>, item: Option<T>) -> Result<(), AllocError>
    ensures { OnOk result (items.new.items ≡ items.old.items ++ listed item) }
{
    if let Some(item) = item {
        items.push(item)?;
    }
    Ok(())
}
