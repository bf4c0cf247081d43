// SPDX-License-Identifier: Apache-2.0 OR MIT
//! What may change at no cost, as rows of bits.

ghost use Rattle.std.specs.Prelude.{◌≡◌, ◌≢◌, ℕ, ◌+◌, ◌*◌, ◌/◌, ◌%◌, ◌<◌, ◌≤◌, ◌⊎◌, ◌↔◌, IsTrue, true, false, length};
ghost use Rattle.std.specs.Prelude.{slice_index};
ghost use Rattle.cr_match.specs.Rows.{RowHas, OthersStay};
ghost use Rattle.cr_match.specs.Search.{Takes, Drops, AreMoves};
ghost use Rattle.cr_match.specs.Tight.{Tells};

use crate::board::Board;
use crate::rows::write;

/// What may change at no cost.
#[derive(Drop)]
pub struct Moves {
    /// By paper, the spare one last, `wide` words each: the members that it may take.
    pub takes: Vec<u64>,
    /// By member, nobody last, `tall` words each: the papers that they may drop.
    pub drops: Vec<u64>,
}

/// Notes whether paper q may take member m.
pub fn tell_take(moves: &mut Moves, board: &Board, q: usize, m: usize, bit: bool)
    requires inside { AreMoves board.now moves.old × (q ≤ board.now.papers) × (m < board.now.members) }
    ensures moves { AreMoves board.now moves.new }
    ensures drops { moves.new.drops.items ≡ moves.old.drops.items }
    ensures same { Takes board.now moves.new q m ↔ IsTrue bit }
    ensures others { (s x : ℕ) → x < board.now.members → (s ≢ q) ⊎ (x ≢ m)
        → Takes board.now moves.new s x ↔ Takes board.now moves.old s x }
{
    write(&mut moves.takes, board.wide, q, m, bit);
}

/// Notes whether member m may drop paper q.
pub fn tell_drop(moves: &mut Moves, board: &Board, m: usize, q: usize, bit: bool)
    requires inside { AreMoves board.now moves.old × (m ≤ board.now.members) × (q ≤ board.now.papers) }
    ensures moves { AreMoves board.now moves.new }
    ensures takes { moves.new.takes.items ≡ moves.old.takes.items }
    ensures same { Drops board.now moves.new m q ↔ IsTrue bit }
    ensures others { (x s : ℕ) → s ≤ board.now.papers → (x ≢ m) ⊎ (s ≢ q)
        → Drops board.now moves.new x s ↔ Drops board.now moves.old x s }
{
    write(&mut moves.drops, board.tall, m, q, bit);
}

/// Notes whether the paper may take the member, and whether they may drop it.
pub fn tell(moves: &mut Moves, board: &Board, p: usize, m: usize, takes: bool, drops: bool)
    requires { AreMoves board.now moves.old × (p < board.now.papers) × (m < board.now.members) }
    ensures { Tells board.now p m takes drops moves.old moves.new }
{
    tell_take(moves, board, p, m, takes);
    tell_drop(moves, board, m, p, drops);
}
