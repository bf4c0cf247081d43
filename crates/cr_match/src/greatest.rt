// SPDX-License-Identifier: Apache-2.0 OR MIT
//! A plan of the greatest sum, and the first of these.

ghost use Rattle.std.specs.Prelude.{◌≡◌, ℕ, ◌*◌, ◌≤◌, ◌<◌, ◌↔◌, true, false, length, slice_index, IfOk};
ghost use Rattle.cr_match.specs.Answer.{IsAscending, IsFirstSolved, IsProblem, IsSolved};
ghost use Rattle.cr_match.specs.Raise.{IsStuck, placed};
ghost use Rattle.cr_match.specs.Search.{AreMoves, IsRoomy};
ghost use Rattle.cr_match.specs.Settle.{IsBest, IsBoardOf};
ghost use Rattle.cr_match.specs.Solve.{IsFilled, IsOrdered, IsSolution, Spares};

use crate::board::{Board, Levels};
use crate::moves::{Moves, tell_take};
use crate::problem::{Prices, Problem, Solved};
use crate::raise::fill;
use crate::settle::settle_all;
use crate::setup::{Work, new_work};
use crate::tell::{chosen_pairs, lower, reached_papers, weight_of, widen};
use std::alloc::{AllocError, Global};

/// Lets the spare paper take each member whose price is 0.
fn tell_spare(board: &Board, levels: &Levels, moves: &mut Moves)
    requires { AreMoves board.now moves.old × (length levels.now.members.items ≡ board.now.members) }
    ensures { Spares board.now levels.now moves.old moves.new }
{
    for m in 0..levels.members.len() {
        let free = levels.members[m] == 0;
        tell_take(moves, board, board.papers, m, free);
    }
}

/// Changes a plan of the greatest sum into the first of that sum.
fn order(problem: &Problem, work: &mut Work)
    requires { IsFilled problem.now work.old }
    ensures { IsOrdered problem.now work.new }
{
    tell_spare(&work.board, &work.levels, &mut work.draft.moves);
    settle_all(
        &problem.pairs,
        &work.board,
        &work.levels,
        &mut work.draft,
        &mut work.order,
    );
}

/// Does so if `first`.
fn order_if(problem: &Problem, first: bool, work: &mut Work)
    requires { IsFilled problem.now work.old }
    ensures best { IsSolution problem.now work.new }
    ensures first { first ≡ true → IsOrdered problem.now work.new }
{
    if !first {
        return;
    }
    order(problem, work);
}

/// Returns the plan that is held, its sum and its prices.
///
/// # Errors
///
/// If memory runs out.
fn tell_best(alloc: Global, problem: &Problem, work: &Work) -> Result<Solved, AllocError>
    requires problem { IsProblem problem.now }
    requires best { IsSolution problem.now work.now }
    ensures solved { IfOk result (λ solved. IsSolved problem.now solved) }
    ensures first { IfOk result (λ solved. IsOrdered problem.now work.now → IsAscending problem.now.pairs.items
        → IsFirstSolved problem.now solved) }
{
    let pairs = chosen_pairs(alloc, &problem.pairs, &work.board, &work.draft.choice)?;
    let sum = weight_of(&pairs);
    let papers = lower(alloc, &work.levels.papers)?;
    let members = widen(alloc, &work.levels.members)?;
    Ok(Solved::Best {
        pairs,
        sum,
        prices: Prices { papers, members },
    })
}

/// Returns the papers that are reached, which have no plan.
///
/// # Errors
///
/// If memory runs out.
fn tell_none(alloc: Global, problem: &Problem, work: &Work) -> Result<Solved, AllocError>
    requires problem { IsProblem problem.now × IsBoardOf problem.now work.now.board }
    requires stuck { IsStuck work.now.board work.now.draft.choice work.now.draft.moves work.now.order.trail
        × (placed work.now.board work.now.draft.choice < work.now.board.want * work.now.board.papers) }
    ensures { IfOk result (λ solved. IsSolved problem.now solved × IsFirstSolved problem.now solved) }
{
    let papers = reached_papers(alloc, &work.order.trail.papers, work.board.papers)?;
    Ok(Solved::NoPlan { papers })
}

/// Searches, and returns what there is.
///
/// # Errors
///
/// If memory runs out.
fn solve_in(alloc: Global, problem: &Problem, first: bool) -> Result<Solved, AllocError>
    requires { IsProblem problem.now }
    ensures solved { IfOk result (λ solved. IsSolved problem.now solved) }
    ensures first { IfOk result (λ solved. first ≡ true → IsAscending problem.now.pairs.items
        → IsFirstSolved problem.now solved) }
{
    let mut work = new_work(alloc, problem)?;
    if !fill(
        &work.board,
        &mut work.levels,
        &mut work.draft,
        &mut work.order.trail,
    ) {
        return tell_none(alloc, problem, &work);
    }
    order_if(problem, first, &mut work);
    tell_best(alloc, problem, &work)
}

/// Returns a plan of the greatest sum with the prices that show it, or the papers that show that there is no plan.
///
/// # Cost
///
/// A search for each place, of `per_paper` a paper, and a part of one more each time that prices move. A search looks
/// at most once at each paper and each member, and at what each may change, 64 at a time. A move of prices looks twice
/// at each paper and member together.
pub fn solve(problem: &Problem) -> Solved
    requires { IsProblem problem.now }
    ensures { IsSolved problem.now result }
{
    match solve_in(*problem.pairs.allocator(), problem, false) {
        Ok(solved) => solved,
        Err(_) => Solved::OutOfMemory,
    }
}

/// Returns the first plan of the greatest sum, or the papers that show that there is no plan. If the pairs are in
/// order, by paper, then member, every other plan of that sum comes after it, as lists of pairs in dictionary order.
///
/// # Cost
///
/// What [`solve`] takes. Then a search at most for each paper and for each pair that comes in, at most one a place, if
/// the pairs of each paper stand together. Otherwise one also for each pair that is worth its prices and stays out.
pub fn first_best(problem: &Problem) -> Solved
    requires { IsProblem problem.now }
    ensures solved { IsSolved problem.now result }
    ensures first { IsAscending problem.now.pairs.items → IsFirstSolved problem.now result }
{
    match solve_in(*problem.pairs.allocator(), problem, true) {
        Ok(solved) => solved,
        Err(_) => Solved::OutOfMemory,
    }
}
