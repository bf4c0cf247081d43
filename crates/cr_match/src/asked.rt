// SPDX-License-Identifier: Apache-2.0 OR MIT
//! Tests whether a problem may be asked.

ghost use Rattle.std.specs.Prelude.{◌≡◌, ◌+◌, ◌*◌, ◌<◌, ◌≤◌, ◌↔◌, IsTrue, IfNone, IfSome, length};
ghost use Rattle.cr_match.specs.Answer.{AreDistinct, AreInside, IsAsked, IsProblem};

use crate::problem::{Pair, Problem};
use crate::rows::{has, put};

/// Returns whether each pair joins a paper and a member that there are, and weighs -20 to 20.
pub fn are_inside(pairs: &[Pair], papers: u32, members: u32) -> bool
    ensures { IsTrue result ↔ AreInside papers members pairs.now }
{
    for pair in pairs {
        if pair.paper >= papers || pair.member >= members || pair.weight < -20 || pair.weight > 20 {
            return false;
        }
    }
    true
}

/// Returns the place of a pair in a table of at most 4,096.
fn cell_of(pair: &Pair, members: u32) -> usize
    requires small { pair.now.paper * members + pair.now.member < 4096 }
    ensures is { result ≡ pair.now.paper * members + pair.now.member }
    ensures small { result < 4096 }
{
    (pair.paper * members + pair.member) as usize
}

/// Returns whether no pair stands twice.
///
/// # Cost
///
/// One walk over the pairs, and 512 bytes of the stack.
pub fn are_distinct(pairs: &[Pair], papers: u32, members: u32) -> bool
    requires grid { papers * members ≤ 4096 }
    requires inside { AreInside papers members pairs.now }
    ensures { IsTrue result ↔ AreDistinct pairs.now }
{
    let mut seen = [0; 64];
    for i in 0..pairs.len() {
        let cell = cell_of(&pairs[i], members);
        if has(&seen, 64, 0, cell) {
            return false;
        }
        put(&mut seen, 64, 0, cell);
    }
    true
}

impl Problem {
    /// Returns the problem with these parts, or `None` if `per_paper` times the papers exceeds 512, papers times
    /// members exceeds 4,096, there are more than 10,000 papers or members or more than 4,096 pairs, `per_paper`
    /// exceeds 512, a pair's paper or member isn't there, a weight isn't -20 to 20, or a pair of the same paper and
    /// member stands twice.
    ///
    /// # Cost
    ///
    /// Two walks over the pairs.
    pub fn new(
        papers: u32,
        members: u32,
        per_paper: u32,
        load: u32,
        pairs: Vec<Pair>,
    ) -> Option<Problem>
        ensures none { IfNone result (IsAsked papers members per_paper pairs.items → ⊥) }
        ensures some { IfSome result
            (λ problem. IsProblem problem × (problem.papers ≡ papers) × (problem.members ≡ members)
            × (problem.per_paper ≡ per_paper) × (problem.load ≡ load) × (problem.pairs.items ≡ pairs.items)) }
    {
        let few = papers <= 10_000 && members <= 10_000 && per_paper <= 512 && pairs.len() <= 4_096;
        if !few {
            return None;
        }
        if per_paper * papers > 512 || papers * members > 4_096 {
            return None;
        }
        if !are_inside(&pairs, papers, members) {
            return None;
        }
        if !are_distinct(&pairs, papers, members) {
            return None;
        }
        Some(Problem {
            papers,
            members,
            per_paper,
            load,
            pairs,
        })
    }
}
