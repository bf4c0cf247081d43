// SPDX-License-Identifier: Apache-2.0 OR MIT
//! What is judged of a bulk: whether its caller may send one, and of each row behind those before it.
ghost use Rattle.std.specs.Prelude.{◌≡◌, [], ◌∷◌, ◌++◌, Bool, IfOk, Some, None};
ghost use Rattle.cr_base.specs.Bulk.{bulk_checks, resolved_of_row};
ghost use Rattle.cr_base.specs.Checks.{judged};
ghost use Rattle.cr_base.specs.Drawn.{grouped, stamped};
ghost use Rattle.cr_base.specs.Lists.{is_number};
ghost use Rattle.cr_base.specs.Sources.{standing_at};
ghost use Rattle.cr_base.specs.Tables.{FitInTurn, tables_from};
ghost use Rattle.cr_base.specs.declared.resolved.ResolvedCommand.TheVariants as commands;
ghost use Rattle.cr_judge.specs.Effects.{entry_or_rule};
ghost use Rattle.cr_judge.specs.Rows.{AreEarlier, group_or_rule, row_group, row_resolved_at};

use crate::assigning::{assignment, conflict, unassignment};
use crate::writing::tag;
use cr_base::{Entry, PaperNo, ResolvedRow, Rule, Stamp, Stamped, UserNo};
use cr_view::Live;

/// Checks whether a user may send a bulk.
///
/// # Errors
///
/// The first broken rule: `NotChair`, else `WrongPhase` before the bidding and from the notification on.
///
/// # Cost
///
/// Takes no memory; a few reads by number.
pub fn may_bulk(live: &Live, caller: UserNo) -> Result<(), Rule>
    ensures { result ≡ judged (bulk_checks (standing_at live.now.tables (Some caller) None)) tt }
{
    let by = live.standing(&Some(caller), &None);
    if !by.role.is_chair() {
        return Err(Rule::NotChair);
    }
    if !by.phase.committee_works() {
        return Err(Rule::WrongPhase);
    }
    Ok(())
}

/// Returns the entry that a row of a bulk under this stamp comes to, after the `earlier` entries of the same bulk,
/// which no table has yet: each is of a kind that a row adds, and may come next in its turn. So may this one. No table
/// is changed.
///
/// # Errors
///
/// The first broken rule: `BulkSelf`, if it turns a conflict of the caller's own on or off; then the rules of the
/// command, as of `judge`.
///
/// # Cost
///
/// Takes no memory. That of the command in `judge`, and walks over the earlier entries, at most 511: three for the
/// caller's standing at the paper, and five more at most for the user named.
pub fn judge_row(
    live: &Live,
    stamp: &Stamp,
    command: ResolvedRow,
    earlier: &[Stamped],
) -> Result<Entry, Rule>
    requires { AreEarlier live.now.tables earlier.now }
    ensures judged { row_group stamp.now result
        ≡ group_or_rule (row_resolved_at (tables_from live.now.tables earlier.now) stamp.now
        (resolved_of_row command)) }
    ensures fits { IfOk result
        (λ entry. FitInTurn (tables_from live.now.tables earlier.now) (grouped stamp.now (entry ∷ []))) }
    ensures next { IfOk result (λ entry. (more : Bool)
        → AreEarlier live.now.tables
        (earlier.now ++ stamped stamp.now more entry ∷ [])) }
{
    live.law_within();
    row_entry(live, stamp, command, earlier)
}

/// Returns the row's entry by the function of its kind.
fn row_entry(
    live: &Live,
    stamp: &Stamp,
    command: ResolvedRow,
    earlier: &[Stamped],
) -> Result<Entry, Rule>
    requires { AreEarlier live.now.tables earlier.now }
    ensures { entry_or_rule live.now.tables.accounts stamp.now result
        ≡ row_resolved_at (tables_from live.now.tables earlier.now) stamp.now (resolved_of_row command) }
{
    match command {
        ResolvedRow::Conflict { paper, user, on } => {
            row_conflict(live, stamp, &paper, &user, on, earlier)
        }
        ResolvedRow::Assign { paper, user, kind } => {
            assignment(live, stamp, &paper, &user, kind, earlier)
        }
        ResolvedRow::Unassign { paper, user } => unassignment(live, stamp, &paper, &user, earlier),
        ResolvedRow::Tag {
            paper,
            tag: text,
            on,
        } => tag(live, stamp, &paper, text, on, earlier),
    }
}

/// Returns the entry of a row that turns a conflict on or off: `BulkSelf` where it is the caller's own, and else what
/// `conflict` tells.
fn row_conflict(
    live: &Live,
    stamp: &Stamp,
    paper: &Option<PaperNo>,
    user: &Option<UserNo>,
    on: bool,
    earlier: &[Stamped],
) -> Result<Entry, Rule>
    requires { AreEarlier live.now.tables earlier.now }
    ensures { entry_or_rule live.now.tables.accounts stamp.now result
        ≡ row_resolved_at (tables_from live.now.tables earlier.now) stamp.now
        (commands.SetConflict paper.now user.now on) }
{
    if is_user(user, stamp.maker) {
        return Err(Rule::BulkSelf);
    }
    conflict(live, stamp, paper, user, on, earlier)
}

/// Returns whether the user named, if there is one, is this one.
fn is_user(named: &Option<UserNo>, user: UserNo) -> bool
    ensures { result ≡ is_number named.now user }
{
    match named {
        Some(named) => named.number() == user.number(),
        None => false,
    }
}
