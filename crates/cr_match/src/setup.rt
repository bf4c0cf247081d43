// SPDX-License-Identifier: Apache-2.0 OR MIT
//! Makes what a search works on from a problem. Only this and `tell.rt` take memory.

ghost use Rattle.std.specs.Prelude.{◌≡◌, ◌≢◌, ℕ, ◌+◌, ◌*◌, ◌/◌, ◌<◌, ◌≤◌, ◌⊎◌, ◌↔◌, ◌≤ℤ◌, pos, negsuc, IsTrue, true};
ghost use Rattle.std.specs.Prelude.{false};
ghost use Rattle.std.specs.Prelude.{IfOk, length, slice_index};
ghost use Rattle.cr_match.specs.Answer.{AreDistinct, AreInside, IsProblem};
ghost use Rattle.cr_match.specs.Board.{IsBoard, worth, low};
ghost use Rattle.cr_match.specs.Raise.{IsFitting, placed};
ghost use Rattle.cr_match.specs.Search.{AreMoves, Drops, IsRoomy};
ghost use Rattle.cr_match.specs.Settle.{IsBoardOf, lifted, nth};
ghost use Rattle.cr_match.specs.Setup.{AreBestPrices, AreFirst, IsBlank};

use crate::board::{Board, LIFT, Levels, worth_of};
use crate::draft::{Choice, Draft};
use crate::moves::{Moves, tell_drop};
use crate::problem::{Pair, Problem};
use crate::settle::Order;
use crate::tight::tighten;
use crate::trail::{Path, Step, Trail};
use std::alloc::{AllocError, Global};

/// Returns what a pair is worth: its weight, lifted.
fn lift(pair: &Pair) -> u32
    requires low { negsuc 19 ≤ℤ pair.now.weight }
    requires high { pair.now.weight ≤ℤ pos 20 }
    ensures { result ≡ lifted pair.now }
{
    (LIFT as i32 + pair.weight) as u32
}

/// Writes what each pair is worth into the table.
fn write_pairs(worth: &mut Vec<u32>, pairs: &[Pair], papers: usize, members: usize)
    requires long { (length worth.old.items ≡ papers * members) × (papers * members ≤ 4096) }
    requires inside { AreInside papers members pairs.now }
    requires distinct { AreDistinct pairs.now }
    requires blank { (k : ℕ) → slice_index worth.old.items k ≡ 0 }
    ensures long { length worth.new.items ≡ length worth.old.items }
    ensures weights { (j : ℕ) → j < length pairs.now
        → slice_index worth.new.items ((nth pairs.now j).paper * members + (nth pairs.now j).member)
        ≡ lifted (nth pairs.now j) }
    ensures none { (k : ℕ) → (slice_index worth.new.items k ≡ 0) ⊎ ((j : ℕ) × (j < length pairs.now)
        × ((nth pairs.now j).paper * members + (nth pairs.now j).member ≡ k)) }
{
    for i in 0..pairs.len() {
        worth[pairs[i].paper as usize * members + pairs[i].member as usize] = lift(&pairs[i]);
    }
}

/// Returns the problem as a table.
///
/// # Errors
///
/// If memory runs out.
fn new_board(alloc: Global, problem: &Problem) -> Result<Board, AllocError>
    requires { IsProblem problem.now }
    ensures { IfOk result (λ board. IsBoardOf problem.now board) }
{
    let papers = problem.papers as usize;
    let members = problem.members as usize;
    let mut worth = vec![in alloc; 0; papers * members]?;
    write_pairs(&mut worth, &problem.pairs, papers, members);
    Ok(Board {
        papers,
        members,
        want: problem.per_paper,
        load: problem.load,
        wide: (members + 63) / 64,
        tall: papers / 64 + 1,
        worth,
    })
}

/// Returns the greater number.
fn greater(a: u32, b: u32) -> u32
    ensures most { (a ≤ result) × (b ≤ result) }
    ensures either { (result ≡ a) ⊎ (result ≡ b) }
{
    if a < b { b } else { a }
}

/// Returns what the best pair of a paper is worth, or the least that any pair can be.
fn best_worth(board: &Board, p: usize) -> u32
    requires board { IsBoard board.now }
    requires inside { p < board.now.papers }
    ensures least { (low ≤ result) × (result ≤ low + 40) }
    ensures most { (m : ℕ) → m < board.now.members → worth board.now p m ≤ result }
{
    let mut best = LIFT - 20;
    for m in 0..board.members {
        best = greater(worth_of(board, p, m), best);
    }
    best
}

/// Sets the price of each paper to what its best pair is worth.
fn write_prices(prices: &mut [u32], board: &Board)
    requires board { IsBoard board.now }
    requires long { length prices.old ≡ board.now.papers }
    ensures long { length prices.new ≡ board.now.papers }
    ensures best { AreBestPrices board.now prices.new }
{
    for p in 0..prices.len() {
        prices[p] = best_worth(board, p);
    }
}

/// Notes for each paper whether nobody may drop it.
fn tell_lacks(moves: &mut Moves, board: &Board, lacks: bool)
    requires { AreMoves board.now moves.old }
    ensures moves { AreMoves board.now moves.new }
    ensures takes { moves.new.takes.items ≡ moves.old.takes.items }
    ensures told { (p : ℕ) → p < board.now.papers → Drops board.now moves.new board.now.members p ↔ IsTrue lacks }
    ensures others { (x q : ℕ) → q ≤ board.now.papers → (x ≢ board.now.members) ⊎ (q ≡ board.now.papers)
        → Drops board.now moves.new x q ↔ Drops board.now moves.old x q }
{
    for p in 0..board.papers {
        tell_drop(moves, board, board.members, p, lacks);
    }
}

/// Notes for each member whether they may drop the spare paper.
fn tell_rooms(moves: &mut Moves, board: &Board, room: bool)
    requires { AreMoves board.now moves.old }
    ensures moves { AreMoves board.now moves.new }
    ensures takes { moves.new.takes.items ≡ moves.old.takes.items }
    ensures told { (x : ℕ) → x < board.now.members → Drops board.now moves.new x board.now.papers ↔ IsTrue room }
    ensures others { (x q : ℕ) → q ≤ board.now.papers → (q ≢ board.now.papers) ⊎ (x ≡ board.now.members)
        → Drops board.now moves.new x q ↔ Drops board.now moves.old x q }
{
    for m in 0..board.members {
        tell_drop(moves, board, m, board.papers, room);
    }
}

/// What a search works on.
#[derive(Drop)]
pub struct Work {
    /// The problem as a table.
    pub board: Board,
    /// The prices.
    pub levels: Levels,
    /// The plan.
    pub draft: Draft,
    /// The search.
    pub order: Order,
}

/// Returns a draft in which nothing is held, and nothing may change.
///
/// # Errors
///
/// If memory runs out.
fn new_draft(alloc: Global, board: &Board) -> Result<Draft, AllocError>
    requires { IsBoard board.now }
    ensures { IfOk result (λ draft. IsBlank board.now draft) }
{
    Ok(Draft {
        choice: Choice {
            held: vec![in alloc; 0; board.papers * board.wide]?,
            given: vec![in alloc; 0; board.papers]?,
            used: vec![in alloc; 0; board.members]?,
        },
        moves: Moves {
            takes: vec![in alloc; 0; (board.papers + 1) * board.wide]?,
            drops: vec![in alloc; 0; (board.members + 1) * board.tall]?,
        },
    })
}

/// Returns the first prices: each paper's is what its best pair is worth, each member's is 0.
///
/// # Errors
///
/// If memory runs out.
fn new_levels(alloc: Global, board: &Board) -> Result<Levels, AllocError>
    requires { IsBoard board.now }
    ensures { IfOk result (λ levels. AreFirst board.now levels) }
{
    let mut papers = vec![in alloc; 0; board.papers]?;
    write_prices(&mut papers, board);
    Ok(Levels {
        papers,
        members: vec![in alloc; 0; board.members]?,
        nobody: 0,
    })
}

/// Returns an empty search, with room for all papers and members.
///
/// # Errors
///
/// If memory runs out.
fn new_order(alloc: Global, board: &Board) -> Result<Order, AllocError>
    requires { IsBoard board.now }
    ensures { IfOk result (λ order. IsRoomy board.now order.trail) }
{
    let none = Step {
        member: 0,
        paper: 0,
        from: 0,
    };
    Ok(Order {
        searched: 0,
        trail: Trail {
            papers: vec![in alloc; 0; board.tall]?,
            path: Path {
                members: vec![in alloc; 0; board.wide + 1]?,
                steps: vec![in alloc; none; board.members + 1]?,
                count: 0,
                root: 0,
            },
            next: 0,
        },
    })
}

/// Notes what may change at first. Nobody may drop any paper if papers need members, each member may drop the spare
/// paper if members may take papers, and each paper may take the members that prices allow.
fn start(board: &Board, levels: &Levels, draft: &mut Draft)
    requires board { IsBoard board.now }
    requires levels { AreFirst board.now levels.now }
    requires blank { IsBlank board.now draft.old }
    ensures fitting { IsFitting board.now levels.now draft.new.choice draft.new.moves }
    ensures none { placed board.now draft.new.choice ≡ 0 }
{
    tell_lacks(&mut draft.moves, board, board.want > 0);
    tell_rooms(&mut draft.moves, board, board.load > 0);
    tighten(&mut draft.moves, board, levels, &draft.choice);
}

/// Returns what a search for plans of the problem works on.
///
/// # Errors
///
/// If memory runs out.
pub fn new_work(alloc: Global, problem: &Problem) -> Result<Work, AllocError>
    requires { IsProblem problem.now }
    ensures { IfOk result (λ work. IsBoardOf problem.now work.board
        × IsFitting work.board work.levels work.draft.choice work.draft.moves
        × (placed work.board work.draft.choice ≡ 0) × (work.levels.nobody ≡ 0) × IsRoomy work.board work.order.trail) }
{
    let board = new_board(alloc, problem)?;
    let levels = new_levels(alloc, &board)?;
    let mut draft = new_draft(alloc, &board)?;
    let order = new_order(alloc, &board)?;
    start(&board, &levels, &mut draft);
    Ok(Work {
        board,
        levels,
        draft,
        order,
    })
}
