// SPDX-License-Identifier: Apache-2.0 OR MIT
//! What may change at no cost: the pairs that are worth exactly their two prices.

ghost use Rattle.std.specs.Prelude.{◌≡◌, ◌≢◌, ℕ, ◌+◌, ◌*◌, ◌^◌, ◌<◌, ◌≤◌, ◌⊎◌, ◌↔◌, IsTrue, true, false, length};
ghost use Rattle.std.specs.Prelude.{slice_index};
ghost use Rattle.cr_match.specs.Search.{Takes, Drops, AreMoves};
ghost use Rattle.cr_match.specs.Draft.{Holds};
ghost use Rattle.cr_match.specs.Board.{IsBoard, AreSmall, worth, price_of};
ghost use Rattle.cr_match.specs.Tight.{Stays, Tells, IsSame, IsTold, AreTold};

use crate::board::{Board, Levels, worth_of};
use crate::draft::{Choice, holds};
use crate::moves::{Moves, tell};

/// Returns whether the pair is worth exactly its two prices.
pub fn is_tight(board: &Board, levels: &Levels, p: usize, m: usize) -> bool
    requires board { IsBoard board.now }
    requires inside { (p < board.now.papers) × (m < board.now.members) }
    requires prices { AreSmall board.now levels.now }
    ensures { IsTrue result ↔ (worth board.now p m ≡ price_of levels.now p m) }
{
    worth_of(board, p, m) == levels.papers[p] + levels.members[m]
}

/// Notes whether the pair may change: if it is held, the member may drop the paper, and else the paper may take them.
fn tighten_pair(moves: &mut Moves, board: &Board, choice: &Choice, p: usize, m: usize, tight: bool)
    requires moves { AreMoves board.now moves.old }
    requires long { length choice.now.held.items ≡ board.now.papers * board.now.wide }
    requires inside { (p < board.now.papers) × (m < board.now.members) }
    ensures stays { Stays board.now moves.old moves.new }
    ensures told { IsTold (tight ≡ true) board.now choice.now moves.new p m }
    ensures others { (q x : ℕ) → q < board.now.papers → x < board.now.members → (q ≢ p) ⊎ (x ≢ m)
        → IsSame board.now moves.old moves.new q x }
{
    if holds(choice, board, p, m) {
        tell(moves, board, p, m, false, tight);
        return;
    }
    tell(moves, board, p, m, tight, false);
}

/// Notes so of each pair of a paper.
fn tighten_paper(moves: &mut Moves, board: &Board, levels: &Levels, choice: &Choice, p: usize)
    requires board { IsBoard board.now × AreSmall board.now levels.now }
    requires moves { AreMoves board.now moves.old }
    requires long { length choice.now.held.items ≡ board.now.papers * board.now.wide }
    requires inside { p < board.now.papers }
    ensures stays { Stays board.now moves.old moves.new }
    ensures told { (m : ℕ) → m < board.now.members → AreTold board.now levels.now choice.now moves.new p m }
    ensures others { (q x : ℕ) → q < board.now.papers → x < board.now.members → q ≢ p
        → IsSame board.now moves.old moves.new q x }
{
    for m in 0..board.members {
        let tight = is_tight(board, levels, p, m);
        tighten_pair(moves, board, choice, p, m, tight);
    }
}

/// Notes so of each pair.
pub fn tighten(moves: &mut Moves, board: &Board, levels: &Levels, choice: &Choice)
    requires board { IsBoard board.now × AreSmall board.now levels.now }
    requires moves { AreMoves board.now moves.old }
    requires long { length choice.now.held.items ≡ board.now.papers * board.now.wide }
    ensures stays { Stays board.now moves.old moves.new }
    ensures told { (p m : ℕ) → p < board.now.papers → m < board.now.members
        → AreTold board.now levels.now choice.now moves.new p m }
{
    for p in 0..board.papers {
        tighten_paper(moves, board, levels, choice, p);
    }
}
