// SPDX-License-Identifier: Apache-2.0 OR MIT
//! The mean of scores.
ghost use Rattle.std.specs.Prelude.{◌≡◌, ◌≤◌, ◌++◌, ◌*◌, OnOk};
ghost use Rattle.cr_base.specs.Reports.{hundredths, two_decimals};

use crate::put::{append, append_number};
use std::alloc::AllocError;

/// Returns the mean of so many scores with this sum, in hundredths: rounded to the nearest one, and up if two are as
/// near.
pub(crate) fn hundredths(sum: u64, count: u64) -> u64
    requires low { 1 ≤ count }
    requires high { count ≤ 26 }
    requires sum { sum ≤ 5 * count }
    ensures { result ≡ hundredths sum count }
{
    (200 * sum + count) / (2 * count)
}

/// Appends hundredths as a number with two decimals.
///
/// # Errors
///
/// If memory runs out.
#[tactic(auto, unfolding(cr_base::specs::Reports::two_decimals))]
pub(crate) fn append_two_decimals(into: &mut Vec<u8>, hundredths: u64) -> Result<(), AllocError>
    ensures { OnOk result (into.new.items ≡ into.old.items ++ two_decimals hundredths) }
{
    append_number(into, hundredths / 100)?;
    append(into, b".")?;
    append_number(into, hundredths % 100 / 10)?;
    append_number(into, hundredths % 10)
}
