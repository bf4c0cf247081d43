// SPDX-License-Identifier: Apache-2.0 OR MIT
//! What is answered after a search.

ghost use Rattle.std.specs.Prelude.{◌≡◌, ℕ, ◌+◌, ◌*◌, ◌^◌, ◌<◌, ◌≤◌, length, IfOk};
ghost use Rattle.cr_match.specs.Answer.{AreInside};
ghost use Rattle.cr_match.specs.Plan.{total_weight};
ghost use Rattle.cr_match.specs.Search.{IsSized};
ghost use Rattle.cr_match.specs.Settle.{chosen};
ghost use Rattle.cr_match.specs.Tell.{AreThose, lowered};

use crate::board::{Board, LIFT};
use crate::draft::{Choice, holds};
use crate::problem::Pair;
use crate::rows::marked;
use std::alloc::{AllocError, Global};

/// Returns the pairs that are held, in their order.
///
/// # Errors
///
/// If memory runs out.
pub fn chosen_pairs(
    alloc: Global,
    pairs: &[Pair],
    board: &Board,
    choice: &Choice,
) -> Result<Vec<Pair>, AllocError>
    requires sized { IsSized board.now }
    requires long { length choice.now.held.items ≡ board.now.papers * board.now.wide }
    requires inside { AreInside board.now.papers board.now.members pairs.now }
    ensures { IfOk result (λ pairs'. pairs'.items ≡ chosen board.now choice.now pairs.now) }
{
    let mut chosen = Vec::new(alloc);
    for i in 0..pairs.len() {
        if holds(
            choice,
            board,
            pairs[i].paper as usize,
            pairs[i].member as usize,
        ) {
            chosen.push(pairs[i])?;
        }
    }
    Ok(chosen)
}

/// Returns the sum of the pairs' weights.
pub fn weight_of(pairs: &[Pair]) -> i64
    requires few { length pairs.now < 2 ^ 31 }
    ensures { result ≡ total_weight pairs.now }
{
    let mut total: i64 = 0;
    for pair in pairs {
        total += i64::from(pair.weight);
    }
    total
}

/// Returns the papers that are reached, in order.
///
/// # Errors
///
/// If memory runs out.
pub fn reached_papers(alloc: Global, reached: &[u64], papers: usize) -> Result<Vec<u32>, AllocError>
    requires { (papers ≤ 10000) × (papers ≤ 64 * length reached.now) }
    ensures { IfOk result (λ places. AreThose reached.now papers places.items) }
{
    let mut places = Vec::new(alloc);
    for p in 0..papers {
        if marked(reached, p) {
            places.push(p as u32)?;
        }
    }
    Ok(places)
}

/// Returns the prices of papers, no longer lifted.
///
/// # Errors
///
/// If memory runs out.
pub fn lower(alloc: Global, prices: &[u32]) -> Result<Vec<i64>, AllocError>
    ensures { IfOk result (λ lower. lower.items ≡ lowered prices.now) }
{
    let mut lower = Vec::new(alloc);
    for price in prices {
        lower.push(i64::from(*price) - i64::from(LIFT))?;
    }
    Ok(lower)
}

/// Returns the prices of members.
///
/// # Errors
///
/// If memory runs out.
pub fn widen(alloc: Global, prices: &[u32]) -> Result<Vec<u64>, AllocError>
    ensures { IfOk result (λ wide. wide.items ≡ prices.now) }
{
    let mut wide = Vec::new(alloc);
    for price in prices {
        wide.push(u64::from(*price))?;
    }
    Ok(wide)
}
