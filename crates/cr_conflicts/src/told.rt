// SPDX-License-Identifier: Apache-2.0 OR MIT
//! Which papers and users entries tie.
ghost use Rattle.std.specs.Prelude.{◌≡◌, IfOk};
ghost use Rattle.std.specs.List.{filter_map};
ghost use Rattle.cr_conflicts.specs.Room.{authored_pair, conflict_pair, bid_pair};

use cr_base::{Entry, Pair, Stamped};
use std::alloc::{AllocError, Global};

/// Returns the paper and the user that the entry makes its author, if it does.
fn authored_pair(stamped: &Stamped) -> Option<Pair>
    ensures { result ≡ authored_pair stamped.now }
{
    match &stamped.entry {
        Entry::Submitted { paper, .. } => Some(Pair {
            paper: *paper,
            user: stamped.stamp.maker,
        }),
        Entry::Coauthor { paper, user } => Some(Pair {
            paper: *paper,
            user: *user,
        }),
        _ => None,
    }
}

/// Returns the paper and the user whose conflict with it the entry turns on or off, if it does.
fn conflict_pair(stamped: &Stamped) -> Option<Pair>
    ensures { result ≡ conflict_pair stamped.now }
{
    match &stamped.entry {
        Entry::Conflict { paper, user, .. } => Some(Pair {
            paper: *paper,
            user: *user,
        }),
        _ => None,
    }
}

/// Returns the paper and the user who bids on it, if the entry is a bid.
fn bid_pair(stamped: &Stamped) -> Option<Pair>
    ensures { result ≡ bid_pair stamped.now }
{
    match &stamped.entry {
        Entry::Bid { paper, .. } => Some(Pair {
            paper: *paper,
            user: stamped.stamp.maker,
        }),
        _ => None,
    }
}

/// Returns the authors that the entries make, in their order.
///
/// # Errors
///
/// If memory runs out.
///
/// # Cost
///
/// A walk over them. Takes no memory if there are none.
pub(crate) fn authored_pairs(alloc: Global, group: &[Stamped]) -> Result<Vec<Pair>, AllocError>
    ensures { IfOk result (λ pairs. pairs.items ≡ filter_map authored_pair group.now) }
{
    group
        .iter()
        .filter_map(|stamped| authored_pair(stamped))
        .collect(alloc)
}

/// Returns the conflicts that the entries turn on or off, in their order.
///
/// # Errors
///
/// If memory runs out.
///
/// # Cost
///
/// A walk over them. Takes no memory if there are none.
pub(crate) fn conflict_pairs(alloc: Global, group: &[Stamped]) -> Result<Vec<Pair>, AllocError>
    ensures { IfOk result (λ pairs. pairs.items ≡ filter_map conflict_pair group.now) }
{
    group
        .iter()
        .filter_map(|stamped| conflict_pair(stamped))
        .collect(alloc)
}

/// Returns the bids that the entries tell, in their order.
///
/// # Errors
///
/// If memory runs out.
///
/// # Cost
///
/// A walk over them. Takes no memory if there are none.
pub(crate) fn bid_pairs(alloc: Global, group: &[Stamped]) -> Result<Vec<Pair>, AllocError>
    ensures { IfOk result (λ pairs. pairs.items ≡ filter_map bid_pair group.now) }
{
    group
        .iter()
        .filter_map(|stamped| bid_pair(stamped))
        .collect(alloc)
}
