// SPDX-License-Identifier: Apache-2.0 OR MIT
//! Which users entries assign to which paper, and which they invite.
ghost use Rattle.std.specs.Prelude.{◌≡◌, IfOk};
ghost use Rattle.std.specs.List.{filter_map};
ghost use Rattle.cr_assign.specs.Room.{assigned_pair, invited_pair};

use cr_base::{Entry, Pair, Stamped};
use std::alloc::{AllocError, Global};

/// Returns the paper and the user that the entry assigns to it, if it does.
fn assigned_pair(stamped: &Stamped) -> Option<Pair>
    ensures { result ≡ assigned_pair stamped.now }
{
    match &stamped.entry {
        Entry::Assigned { paper, user, .. } => Some(Pair {
            paper: *paper,
            user: *user,
        }),
        _ => None,
    }
}

/// Returns the pairs of all assignments among the entries, in their order.
///
/// # Errors
///
/// If memory runs out.
///
/// # Cost
///
/// A walk over them. Takes no memory if there are none.
pub(crate) fn assigned_pairs(alloc: Global, group: &[Stamped]) -> Result<Vec<Pair>, AllocError>
    ensures { IfOk result (λ pairs. pairs.items ≡ filter_map assigned_pair group.now) }
{
    group
        .iter()
        .filter_map(|stamped| assigned_pair(stamped))
        .collect(alloc)
}

/// Returns the paper and the user that the entry invites to it, if it does.
fn invited_pair(stamped: &Stamped) -> Option<Pair>
    ensures { result ≡ invited_pair stamped.now }
{
    match &stamped.entry {
        Entry::Invited { paper, user } => Some(Pair {
            paper: *paper,
            user: *user,
        }),
        _ => None,
    }
}

/// Returns those of all the entries, in their order.
///
/// # Errors
///
/// If memory runs out.
///
/// # Cost
///
/// A walk over them.
pub(crate) fn invited_pairs(alloc: Global, group: &[Stamped]) -> Result<Vec<Pair>, AllocError>
    ensures { IfOk result (λ pairs. pairs.items ≡ filter_map invited_pair group.now) }
{
    group
        .iter()
        .filter_map(|stamped| invited_pair(stamped))
        .collect(alloc)
}
