// SPDX-License-Identifier: Apache-2.0 OR MIT
//! What is asked, and what is answered.

use std::alloc::Global;

/// A paper and a member who may review it, with a weight.
#[derive(Clone, Copy, PartialEq, Eq)]
pub struct Pair {
    /// The paper's place among the papers, counted from 0.
    pub paper: u32,
    /// The member's place among the members, counted from 0.
    pub member: u32,
    /// What it is worth that the member reviews it, -20 to 20.
    pub weight: i32,
}

/// Papers that need members. Only `pairs` may be chosen, of which none stands twice.
#[derive(Drop)]
pub struct Problem {
    /// How many papers there are.
    pub papers: u32,
    /// How many members there are.
    pub members: u32,
    /// How many members each paper needs.
    pub per_paper: u32,
    /// How many papers a member takes at most.
    pub load: u32,
    /// The pairs that may be chosen, in any order.
    pub pairs: Vec<Pair>,
}

/// Prices, which bound each plan's sum: `per_paper` times those of all papers, `load` times those of all members, and
/// what each pair weighs above its two prices, together.
#[derive(Drop)]
pub struct Prices {
    /// One for each paper, of either sign.
    pub papers: Vec<i64>,
    /// One for each member.
    pub members: Vec<u64>,
}

/// The answer to a problem.
#[derive(Drop)]
pub enum Solved {
    /// The chosen pairs in the problem's order, the sum of their weights, and prices whose bound is that sum.
    Best {
        pairs: Vec<Pair>,
        sum: i64,
        prices: Prices,
    },
    /// Papers, none twice, for which the members have too little room: `per_paper` times their number is more than
    /// what all members can take of them, each at most `load` and at most the pairs that join them.
    NoPlan {
        papers: Vec<u32>,
    },
    /// Memory ran out.
    OutOfMemory,
}
