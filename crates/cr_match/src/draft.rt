// SPDX-License-Identifier: Apache-2.0 OR MIT
//! An unfinished plan, and what may change in it at no cost.
//!
//! Beside the papers there is a spare one, number `papers`, for the room that members have left. Beside the members
//! there is nobody, number `members`, for the members that papers lack.

ghost use Rattle.std.specs.Prelude.{◌≡◌, ◌≢◌, ℕ, ◌+◌, ◌-◌, ◌*◌, ◌/◌, ◌%◌, ◌^◌, ◌<◌, ◌≤◌, ◌⊎◌, ◌↔◌, ◌==◌};
ghost use Rattle.std.specs.Prelude.{IsTrue, true, false, Bool, List, length, slice_index, if◌then◌else◌};
ghost use Rattle.cr_match.specs.Board.{IsBoard};
ghost use Rattle.cr_match.specs.Draft.{Holds, IsCounted, IsDraft, IsFree, Alters, Limits, Flips, Counts, Turns, at};
ghost use Rattle.cr_match.specs.Rows.{RowHas};
ghost use Rattle.cr_match.specs.Search.{Takes, Drops, step_of, AreMoves, AreSteps, IsLong, IsSized};

use crate::board::Board;
use crate::moves::{Moves, tell, tell_drop};
use crate::rows::{has, write};
use crate::trail::{Path, step_at};

/// Which pairs are held.
#[derive(Drop)]
pub struct Choice {
    /// By paper, `wide` words each: the members that it has.
    pub held: Vec<u64>,
    /// How many members each paper has.
    pub given: Vec<u32>,
    /// How many papers each member has.
    pub used: Vec<u32>,
}

/// A choice, and what may change in it.
#[derive(Drop)]
pub struct Draft {
    /// Which pairs are held.
    pub choice: Choice,
    /// Which of them may go, and which others may come.
    pub moves: Moves,
}

/// Returns whether the paper has the member.
pub fn holds(choice: &Choice, board: &Board, p: usize, m: usize) -> bool
    requires sized { IsSized board.now }
    requires inside { (p < board.now.papers) × (m < board.now.members) }
    requires long { length choice.now.held.items ≡ board.now.papers * board.now.wide }
    ensures { IsTrue result ↔ Holds board.now choice.now p m }
{
    has(&choice.held, board.wide, p, m)
}

/// Counts one more at place i if `more`, and else one less.
fn count(counts: &mut [u32], i: usize, more: bool)
    requires inside { i < length counts.old }
    requires small { slice_index counts.old i < 20000 }
    requires some { more ≡ false → 0 < slice_index counts.old i }
    ensures long { length counts.new ≡ length counts.old }
    ensures counted { (k : ℕ) → Counts more (at i k) (slice_index counts.old k) (slice_index counts.new k) }
{
    if more {
        counts[i] += 1;
    } else {
        counts[i] -= 1;
    }
}

/// Gives the paper the member if `holds`, and else takes them away.
fn hold(choice: &mut Choice, board: &Board, p: usize, m: usize, holds: bool)
    requires counted { IsSized board.now × IsCounted board.now choice.old }
    requires inside { (p < board.now.papers) × (m < board.now.members) }
    requires lacks { holds ≡ true → Holds board.now choice.old p m → ⊥ }
    requires has { holds ≡ false → Holds board.now choice.old p m }
    ensures { Alters board.now p m holds choice.old choice.new }
{
    write(&mut choice.held, board.wide, p, m, holds);
    count(&mut choice.given, p, holds);
    count(&mut choice.used, m, holds);
}

/// Notes whether nobody may drop the paper, and whether the member may drop the spare one.
fn tell_limits(moves: &mut Moves, board: &Board, choice: &Choice, p: usize, m: usize)
    requires moves { AreMoves board.now moves.old }
    requires inside { (p < board.now.papers) × (m < board.now.members) }
    requires long { (length choice.now.given.items ≡ board.now.papers)
        × (length choice.now.used.items ≡ board.now.members) }
    ensures { Limits board.now choice.now p m moves.old moves.new }
{
    let lacks = choice.given[p] < board.want;
    tell_drop(moves, board, board.members, p, lacks);
    let room = choice.used[m] < board.load;
    tell_drop(moves, board, m, board.papers, room);
}

/// Gives the paper the member if `holds`, and else takes them away, so that the pair may change back. Changes nothing
/// for the spare paper, and for nobody.
fn flip(draft: &mut Draft, board: &Board, p: usize, m: usize, holds: bool)
    requires draft { IsDraft board.now draft.old.choice draft.old.moves }
    requires inside { (p ≤ board.now.papers) × (m ≤ board.now.members) }
    requires takes { p < board.now.papers → m < board.now.members → holds ≡ true → Takes board.now draft.old.moves p m }
    requires drops { p < board.now.papers → m < board.now.members → holds ≡ false
        → Drops board.now draft.old.moves m p }
    ensures { Flips board.now p m holds draft.old.choice draft.old.moves draft.new.choice draft.new.moves }
{
    if p == board.papers || m == board.members {
        return;
    }
    hold(&mut draft.choice, board, p, m, holds);
    tell_limits(&mut draft.moves, board, &draft.choice, p, m);
    tell(&mut draft.moves, board, p, m, !holds, holds);
}

/// Takes the member of the step `last` from the target, and gives them to the paper of that step in place of the
/// member of the step before, and so on. The member of the root is left for the target to take.
pub fn turn(draft: &mut Draft, board: &Board, path: &Path, target: usize, last: usize)
    requires draft { IsDraft board.now draft.old.choice draft.old.moves }
    requires path { AreSteps board.now draft.old.moves path.now × IsLong board.now path.now }
    requires places { (target ≤ board.now.papers) × (last < path.now.count) × (path.now.root ≤ last) }
    requires member { (step_of path.now last).member < board.now.members }
    requires drops { Drops board.now draft.old.moves (step_of path.now last).member target }
    ensures draft { IsDraft board.now draft.new.choice draft.new.moves }
    ensures turns { Turns board.now target (step_of path.now path.now.root).member draft.old.choice draft.old.moves
        draft.new.choice draft.new.moves }
{
    let mut at = last;
    let mut holder = target;
    'steps: while at != path.root {
        let step = step_at(path, at);
        flip(draft, board, holder, step.member, false);
        flip(draft, board, step.paper, step.member, true);
        holder = step.paper;
        at = step.from;
    }
    let first = step_at(path, at);
    flip(draft, board, holder, first.member, false);
}

/// Gives the paper the member, for good.
pub fn add(draft: &mut Draft, board: &Board, p: usize, m: usize)
    requires draft { IsDraft board.now draft.old.choice draft.old.moves }
    requires inside { (p < board.now.papers) × (m < board.now.members) }
    requires closed { IsFree board.now draft.old.moves p m → ⊥ }
    requires lacks { Holds board.now draft.old.choice p m → ⊥ }
    ensures draft { IsDraft board.now draft.new.choice draft.new.moves }
    ensures alters { Alters board.now p m true draft.old.choice draft.new.choice }
    ensures limits { Limits board.now draft.new.choice p m draft.old.moves draft.new.moves }
{
    hold(&mut draft.choice, board, p, m, true);
    tell_limits(&mut draft.moves, board, &draft.choice, p, m);
}
