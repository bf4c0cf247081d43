// SPDX-License-Identifier: Apache-2.0 OR MIT
//! What is judged of a bulk: its caller, and each row after those before it.
ghost use Rattle.std.specs.Prelude.{◌≡◌, ◌≤◌, ◌<◌, ◌+◌, ◌++◌, ◌∷◌, Bool, [], IfOk, IfErr, Ok, Err, length};
ghost use Rattle.cr_base.specs.declared.bulk.Broken.TheVariants as broken;
ghost use Rattle.cr_base.specs.Bulk.{bulk_by_role, bulk_drawn, entries_of, rows_judged, tables_basis};
ghost use Rattle.cr_base.specs.Drawn.{grouped, stamped};
ghost use Rattle.cr_base.specs.Tables.{tables_from};
ghost use Rattle.cr_judge.specs.Rows.{AreEarlier, group_or_rule, row_group};
ghost use Rattle.cr_book.specs.BulkRows.{row_judged_behind};

use cr_base::{Broken, BulkRow, BulkRows, Entry, Rule, Stamp, Stamped};
use cr_bulk::row_command;
use cr_judge::{may_bulk, resolve_row};
use cr_view::Live;

/// Returns the entry that a row draws after those of the rows before it.
///
/// # Errors
///
/// The first broken rule.
fn judge_row(live: &Live, stamp: &Stamp, row: &BulkRow, earlier: &[Stamped]) -> Result<Entry, Rule>
    requires { AreEarlier live.now.tables earlier.now }
    ensures judged { row_group stamp.now result
        ≡ group_or_rule (row_judged_behind live.now.tables earlier.now stamp.now row.now) }
    ensures next { IfOk result (λ entry. (more : Bool) → AreEarlier live.now.tables
        (earlier.now ++ stamped stamp.now more entry ∷ [])) }
{
    match row_command(row) {
        Ok(command) => cr_judge::judge_row(live, stamp, resolve_row(live, command), earlier),
        Err(rule) => Err(rule),
    }
}

/// Tells that the row at this index, from 0 and under 512, breaks the rule.
fn row_broken(index: usize, rule: Rule) -> Broken
    requires { index < 512 }
    ensures { result ≡ broken.Row (index + 1) rule }
{
    Broken::Row {
        row: index as u64 + 1,
        rule,
    }
}

/// Returns the entries of all rows as one group, in a vector that is empty and has room for them.
///
/// # Errors
///
/// The first row that breaks a rule.
fn judge_rows(
    live: &Live,
    stamp: &Stamp,
    rows: &[BulkRow],
    mut entries: Vec<Stamped>,
) -> Result<Vec<Stamped>, Broken>
    requires few { length rows.now ≤ 512 }
    requires none { entries.items ≡ [] }
    requires room { length rows.now ≤ entries.cap }
    ensures group { IfOk result (λ group. group.items ≡ grouped stamp.now (entries_of group.items)) }
    ensures accepted { IfOk result
        (λ group. rows_judged (tables_basis stamp.now.maker) stamp.now live.now.tables 1 rows.now
        ≡ Ok (entries_of group.items)) }
    ensures broken { IfErr result
        (λ broken. rows_judged (tables_basis stamp.now.maker) stamp.now live.now.tables 1 rows.now ≡ Err broken) }
{
    for (i, row) in rows.iter().enumerate() {
        let entry = match judge_row(live, stamp, row, &entries) {
            Ok(entry) => entry,
            Err(rule) => return Err(row_broken(i, rule)),
        };
        entries.push_reserved(Stamped {
            stamp: *stamp,
            more: i + 1 < rows.len(),
            entry,
        });
    }
    Ok(entries)
}

/// Returns the group of a bulk with this metadata.
///
/// # Errors
///
/// What is broken: a rule on the bulk as a whole, else the first row that breaks one.
///
/// # Cost
///
/// Takes no memory. One judgement for each row, which walks over the entries of the rows before it.
pub(crate) fn judge_bulk(live: &Live, stamp: &Stamp, rows: BulkRows) -> Result<Vec<Stamped>, Broken>
    ensures accepted { IfOk result (λ group. bulk_by_role live.now.tables (record { stamp = stamp.now; rows = rows })
        ≡ Ok (bulk_drawn stamp.now (length group.items) (entries_of group.items))) }
    ensures group { IfOk result (λ group. group.items ≡ grouped stamp.now (entries_of group.items)) }
    ensures broken { IfErr result
        (λ broken. bulk_by_role live.now.tables (record { stamp = stamp.now; rows = rows }) ≡ Err broken) }
{
    match may_bulk(live, stamp.maker) {
        Ok(()) => {}
        Err(rule) => return Err(Broken::Rule(rule)),
    }
    let (rows, entries) = rows.into_parts();
    judge_rows(live, stamp, &rows, entries)
}
