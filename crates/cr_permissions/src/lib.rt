// SPDX-License-Identifier: Apache-2.0 OR MIT
//! The permissions, stated a second time in a committee's words: a sentence for each command, query and bulk, and what
//! follows for a conference's course.
//!
//! # Proved
//!
//! - Which commands are accepted, which queries answered, and what an accepted command adds: `law_permissions`.
//!   [CLAIMS.md](../../../docs/CLAIMS.md#permissions) has its clauses.
//! - No conference gets stuck: `law_goes_on`.
//! - Which phases are a phase or later, which may follow it, and its number in rows: `law_phases`.
//! - A row for each pair of a plan is accepted: `law_plans_taken`.
//! - A bulk on a legal history is its rows, one after another: `law_bulk`.
//! - A legal history of an older version's kinds is legal without numbers, and of version 1 with every timestamp 0.
//!   Its rows are then those of such a store, migrated: `law_migrated`.
#![tactic(auto)]

ghost use Rattle.cr_policy.specs.Added.{AddsAsSaid};
ghost use Rattle.cr_permissions.specs.Migration.{Migrates};
ghost use Rattle.cr_permissions.specs.SingleRows.{BulkIsItsRows};
ghost use Rattle.cr_permissions.specs.GoesOn.{GoesOn};
ghost use Rattle.cr_permissions.specs.PhaseOrder.{PhasesInOrder};
ghost use Rattle.cr_permissions.specs.PlansTaken.{PlansTaken};
ghost use Rattle.cr_permissions.specs.MayBulk.{RowsAsSaid, BulksAsSaid};
ghost use Rattle.cr_permissions.specs.MayDo.{PermissionsAsSaid};
ghost use Rattle.cr_permissions.specs.MayRead.{ReadingAsSaid};

/// A command whose number is new is accepted, and a query answered, if and only if its sentence holds (`commands`,
/// `reading`). The sentences are over facts of a history, in a committee's words. A bulk whose number is new is
/// accepted if and only if its caller is a chair, the committee works, and the caller may do what each row asks for
/// when its turn comes; no row is a conflict of their own (`bulks`). An accepted command adds the entries that its line
/// says, by its actor, at its timestamp and by its number, all but the last with the mark that another follows, and is
/// answered what its line says (`adds`). Each of the eight actions of a row asks for the command that its line says
/// (`rows`).
///
/// The sentences read no list of checks, nor what these lists read of phases, roles and accepted papers. Which rule a
/// refusal names is left open.
///
/// *Scope:* legal histories; every caller, timestamp and number.
pub fn law_permissions()
    ensures commands { PermissionsAsSaid }
    ensures reading { ReadingAsSaid }
    ensures adds { AddsAsSaid }
    ensures bulks { BulksAsSaid }
    ensures rows { RowsAsSaid }
{}

/// A bulk is its rows, one after another. If it is accepted, each row tells a command; given singly, one after
/// another, without a number, all are accepted, and add what the bulk adds, except the marks that another entry
/// follows, and its number. If it is refused for a row, the commands of those before it are accepted singly, and after
/// them that row breaks the rule that is named.
///
/// *Scope:* legal histories.
pub fn law_bulk()
    ensures { BulkIsItsRows }
{}

/// The rows of the plan that a chair is told, given as a bulk of theirs with nothing between, are accepted.
///
/// *Scope:* legal histories; any timestamp, with a number or without.
pub fn law_plans_taken()
    ensures { PlansTaken }
{}

/// No conference gets stuck: once a user has registered, some registered user is a chair. Before the close there is a
/// next phase, and each chair's request for it is accepted.
///
/// *Scope:* legal histories.
pub fn law_goes_on()
    ensures { GoesOn }
{}

/// The order of phases, for all pairs: which phases are one phase or later, and which may follow it. The response is
/// between the reviewing and the discussion, and may be left out; its number in rows comes after all others.
pub fn law_phases()
    ensures { PhasesInOrder }
{}

/// A store without timestamps, or without command numbers, is migrated to one with them. A legal history of its kinds
/// is legal without command numbers and, for the first version, with every request at timestamp 0. Its rows are those
/// of the history so changed, so such a store opens unchanged.
pub fn law_migrated()
    ensures { Migrates }
{}
