// SPDX-License-Identifier: Apache-2.0 OR MIT
//! The first plan of the greatest sum.
//!
//! The pairs are settled one after another. A pair that is held stays. Another that is worth its prices comes in if a
//! search can make room for it at no cost. If none can, no best plan that agrees so far has it. What is settled changes
//! no longer.
//!
//! What a search that failed has reached still leads nowhere while only pairs of its own paper are settled, since none
//! of them is a step of it. So all pairs of a paper that fail, one after another, share one search.

ghost use Rattle.std.specs.Prelude.{◌≡◌, ◌≢◌, ℕ, ◌+◌, ◌*◌, ◌^◌, ◌<◌, ◌≤◌, ◌⊎◌, ◌↔◌, ◌==◌, ◌&&◌, IsTrue, true, false};
ghost use Rattle.std.specs.Prelude.{length, slice_index};
ghost use Rattle.cr_match.specs.Board.{AreSmall, worth, price_of};
ghost use Rattle.cr_match.specs.Draft.{Holds, IsDraft, IsFree};
ghost use Rattle.cr_match.specs.Search.{AreMoves, IsRoomy, IsSearched};
ghost use Rattle.cr_match.specs.Settle.{Brings, IsBoardFor, IsSettling};
ghost use Rattle.cr_match.specs.Rows.{Has};
ghost use Rattle.cr_match.specs.declared.draft.Draft.{Draft};
ghost use Rattle.cr_match.specs.declared.moves.Moves.{Moves};

use crate::board::{Board, Levels};
use crate::draft::{Draft, add, holds, turn};
use crate::moves::tell;
use crate::problem::Pair;
use crate::tight::is_tight;
use crate::trail::{Trail, explore_from, forget};

/// A search that is kept from pair to pair.
#[derive(Drop)]
pub struct Order {
    /// The search.
    pub trail: Trail,
    /// The paper that it is for.
    pub searched: usize,
}

/// Brings in a pair that the plan lacks, if later pairs can make room for it at no cost.
fn bring(draft: &mut Draft, board: &Board, trail: &mut Trail, p: usize, m: usize)
    requires draft { IsDraft board.now draft.old.choice draft.old.moves }
    requires trail { IsSearched board.now draft.old.moves p trail.old }
    requires inside { (p < board.now.papers) × (m < board.now.members) }
    requires closed { IsFree board.now draft.old.moves p m → ⊥ }
    requires lacks { Holds board.now draft.old.choice p m → ⊥ }
    ensures draft { IsDraft board.now draft.new.choice draft.new.moves }
    ensures trail { IsSearched board.now draft.new.moves p trail.new }
    ensures brings { Brings board.now p m draft.old.choice draft.old.moves draft.new.choice draft.new.moves
        ⊎ ((◌≡◌ {A = Draft} draft.new draft.old) × Has trail.new.path.members.items m) }
{
    let Some(last) = explore_from(board, &draft.moves, trail, p, m) else {
        return;
    };
    turn(draft, board, &trail.path, p, last);
    add(draft, board, p, m);
    forget(board, trail);
}

/// Forgets what is reached if the search is for another paper.
fn attend(board: &Board, order: &mut Order, p: usize)
    requires { IsRoomy board.now order.old.trail }
    ensures searched { (v : Moves) → IsSearched board.now v order.old.searched order.old.trail
        → IsSearched board.now v p order.new.trail }
    ensures paper { order.new.searched ≡ p }
{
    if order.searched == p {
        return;
    }
    forget(board, &mut order.trail);
    order.searched = p;
}

/// Settles pair i.
fn settle(
    pairs: &[Pair],
    board: &Board,
    levels: &Levels,
    draft: &mut Draft,
    order: &mut Order,
    i: usize,
)
    requires board { IsBoardFor pairs.now board.now × AreSmall board.now levels.now }
    requires place { i < length pairs.now }
    requires settling { IsSettling pairs.now board.now levels.now draft.old.choice draft.old.moves i i }
    requires trail { IsSearched board.now draft.old.moves order.old.searched order.old.trail }
    ensures settling { IsSettling pairs.now board.now levels.now draft.new.choice draft.new.moves (i + 1) (i + 1) }
    ensures trail { IsSearched board.now draft.new.moves order.new.searched order.new.trail }
{
    let p = pairs[i].paper as usize;
    let m = pairs[i].member as usize;
    attend(board, order, p);
    let held = holds(&draft.choice, board, p, m);
    tell(&mut draft.moves, board, p, m, false, false);
    if held {
        return;
    }
    if !is_tight(board, levels, p, m) {
        return;
    }
    bring(draft, board, &mut order.trail, p, m);
}

/// Settles each pair in order.
///
/// # Cost
///
/// A search at most for each paper and each pair that comes in, if the pairs of each paper stand together. Otherwise
/// one also for each pair that is worth its prices and stays out.
pub fn settle_all(
    pairs: &[Pair],
    board: &Board,
    levels: &Levels,
    draft: &mut Draft,
    order: &mut Order,
)
    requires board { IsBoardFor pairs.now board.now × AreSmall board.now levels.now }
    requires settling { IsSettling pairs.now board.now levels.now draft.old.choice draft.old.moves 0 0 }
    requires trail { IsRoomy board.now order.old.trail }
    ensures { IsSettling pairs.now board.now levels.now draft.new.choice draft.new.moves (length pairs.now)
        (length pairs.now) }
{
    forget(board, &mut order.trail);
    for i in 0..pairs.len() {
        settle(pairs, board, levels, draft, order, i);
    }
}
