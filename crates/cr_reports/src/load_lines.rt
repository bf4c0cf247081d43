// SPDX-License-Identifier: Apache-2.0 OR MIT
//! The report of how much each member reviews.
ghost use Rattle.std.specs.Prelude.{◌≡◌, ◌<◌, ◌++◌, OnOk, Some, length};
ghost use Rattle.cr_base.specs.Reports.{in_four, load_told, space};
ghost use Rattle.cr_base.specs.Sources.{facts_of_tables, shown_in_tables};
ghost use Rattle.cr_reports.specs.Loads.{line_of, member_line};

use crate::columns::{append_in_four, append_left};
use crate::counting::count_all;
use crate::counts::Load;
use crate::put::{append_space, end_line};
use cr_base::{AccountLine, UserNo};
use cr_view::Live;
use std::alloc::{AllocError, Global};

/// Appends a space and a number in a column of four.
fn append_count(into: &mut Vec<u8>, count: u64) -> Result<(), AllocError>
    ensures { OnOk result (into.new.items ≡ into.old.items ++ space ++ in_four count) }
{
    append_space(into)?;
    append_in_four(into, count)
}

/// Appends the line of a member who reviews so much.
fn append_line(into: &mut Vec<u8>, line: &AccountLine, load: &Load) -> Result<(), AllocError>
    ensures { OnOk result (into.new.items ≡ into.old.items ++ line_of line.now load.now) }
{
    append_left(into, 32, line.name.as_slice())?;
    append_count(into, load.primary)?;
    append_count(into, load.secondary)?;
    append_count(into, load.pc)?;
    append_count(into, load.written)?;
    end_line(into)
}

/// Appends the line of an account, if it is a member's.
fn append_member(into: &mut Vec<u8>, loads: &[Load], line: &AccountLine) -> Result<(), AllocError>
    requires { length loads.now ≡ 10000 }
    ensures text { OnOk result (into.new.items ≡ into.old.items ++ member_line loads.now line.now) }
    ensures within { line.now.user < 10000 }
{
    let index = line.user.number() as usize;
    if !line.role.is_member() {
        return Ok(());
    }
    append_line(into, line, &loads[index])
}

/// Appends the line of each member, by user number. Takes memory for the accounts and the loads besides.
pub(crate) fn append_loads(
    into: &mut Vec<u8>,
    alloc: Global,
    live: &Live,
    user: UserNo,
) -> Result<(), AllocError>
    ensures { OnOk result (into.new.items
        ≡ into.old.items ++ load_told (facts_of_tables live.now.tables (Some user))
        (shown_in_tables live.now.tables)) }
{
    let loads = count_all(alloc, live, user)?;
    let accounts = live.accounts(alloc)?;
    let lines = accounts.as_slice();
    for line in lines {
        append_member(into, loads.as_slice(), line)?;
    }
    Ok(())
}
