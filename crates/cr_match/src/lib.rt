// SPDX-License-Identifier: Apache-2.0 OR MIT
//! Plans of who reviews what: of the greatest sum, and the first in order of these.
//!
//! A `Problem` has papers that each need `per_paper` members, members who take at most `load` papers, and pairs that
//! may be chosen, each with a weight. A plan (`IsPlanOf`) is a choice of these pairs: exactly so many members for each
//! paper, at most so many papers for each member.
//!
//! # Proved
//!
//! - `Best`: its pairs are a plan in the problem's order, `sum` is their weight, and no plan weighs more. Its prices
//!   show that: `solve` (`IsGreatest`).
//! - `NoPlan`: there is no plan. The papers named show it: `per_paper` times their number is more than all members can
//!   take of them: `solve` (`HasNoPlan`).
//! - The only other answer is `OutOfMemory`. So if there is no plan, the answer is `NoPlan` or that: `solve`.
//! - `first_best` meets the contract of `solve`. If the pairs ascend by paper, then member, every other plan of that
//!   weight comes after its plan in dictionary order (`IsSolved`, `IsAscending`, `IsFirst`, `IsBefore`).
//! - `Problem::new` gives none exactly if the parts are out of bounds (`IsAsked`). Bounds: `per_paper`, and
//!   `per_paper` times papers, at most 512; papers times members, and pairs, at most 4,096; weights -20 to 20.
//! - Four examples (proved tests).
//!
//! # Assumed
//!
//! - Lack of memory is returned only if an allocation was refused.
#![tactic(auto)]

mod asked;
mod board;
mod draft;
mod greatest;
mod moves;
mod problem;
mod raise;
mod rows;
mod settle;
mod setup;
mod tell;
mod tight;
mod trail;

pub use greatest::{first_best, solve};
pub use problem::{Pair, Prices, Problem, Solved};

#[cfg(test)]
mod tests;
