// SPDX-License-Identifier: Apache-2.0 OR MIT
//! A search in breadth along what may change: from a member, the root, to a paper, the target.

ghost use Rattle.std.specs.Prelude.{◌≡◌, ◌≢◌, ℕ, ◌+◌, ◌*◌, ◌/◌, ◌%◌, ◌^◌, ◌<◌, ◌≤◌, ◌↔◌, IsTrue, IfSome, IfNone};
ghost use Rattle.std.specs.Prelude.{length, slice_index, slice_set};
ghost use Rattle.cr_match.specs.Rows.{Has, RowHas, Covers, gone};
ghost use Rattle.cr_match.specs.Search.{Takes, Drops, step_of, AreMoves, IsLong, IsRoomy, AreSteps, NoneDrops};
ghost use Rattle.cr_match.specs.Search.{IsSpread};
ghost use Rattle.cr_match.specs.Search.{Goes, GoesOn, IsReached, IsExpanded, IsDone, IsSearched, Reaches};
ghost use Rattle.cr_match.specs.declared.moves.Moves.{Moves};

use crate::board::Board;
use crate::moves::Moves;
use crate::rows::{clear, has, mark, marked, next};

/// How a member is reached.
#[derive(Clone, Copy)]
pub struct Step {
    /// The member.
    pub member: usize,
    /// The paper that takes them.
    pub paper: usize,
    /// The earlier step whose member drops that paper; a root's own.
    pub from: usize,
}

/// The members that are reached.
#[derive(Drop)]
pub struct Path {
    /// The set of them.
    pub members: Vec<u64>,
    /// How each was reached, in order.
    pub steps: Vec<Step>,
    /// How many steps there are.
    pub count: usize,
    /// The last step that is a root.
    pub root: usize,
}

/// A search.
#[derive(Drop)]
pub struct Trail {
    /// The set of papers that are reached.
    pub papers: Vec<u64>,
    /// The members that are reached.
    pub path: Path,
    /// The step to look at next.
    pub next: usize,
}

/// Returns step i.
pub fn step_at(path: &Path, i: usize) -> Step
    requires { i < length path.now.steps.items }
    ensures { result ≡ step_of path.now i }
{
    path.steps[i]
}

/// Returns whether the member is reached.
fn is_reached(path: &Path, member: usize) -> bool
    requires { member < 64 * length path.now.members.items }
    ensures { IsTrue result ↔ Has path.now.members.items member }
{
    marked(&path.members, member)
}

/// Returns the first member from `from` on that the paper may take and that isn't reached, or `None` if there is none.
fn next_taken(board: &Board, moves: &Moves, path: &Path, paper: usize, from: usize) -> Option<usize>
    requires moves { AreMoves board.now moves.now × IsLong board.now path.now }
    requires paper { paper ≤ board.now.papers }
    ensures some { IfSome result (λ m. (from ≤ m) × (m < board.now.members) × Takes board.now moves.now paper m
        × (Has path.now.members.items m → ⊥)
        × ((j : ℕ) → from ≤ j → j < m → Takes board.now moves.now paper j → Has path.now.members.items j)) }
    ensures none { IfNone result ((j : ℕ) → from ≤ j → j < board.now.members → Takes board.now moves.now paper j
        → Has path.now.members.items j) }
{
    next(&moves.takes, board.wide, paper, &path.members, from)
}

/// Returns the first paper from `from` on that the member may drop and that isn't reached, or `None` if there is none.
fn next_dropped(
    board: &Board,
    moves: &Moves,
    papers: &[u64],
    member: usize,
    from: usize,
) -> Option<usize>
    requires moves { AreMoves board.now moves.now × (length papers.now ≡ board.now.tall) }
    requires member { member ≤ board.now.members }
    ensures some { IfSome result (λ q. (from ≤ q) × (q < board.now.papers + 1) × Drops board.now moves.now member q
        × (Has papers.now q → ⊥)
        × ((j : ℕ) → from ≤ j → j < q → Drops board.now moves.now member j → Has papers.now j)) }
    ensures none { IfNone result ((j : ℕ) → from ≤ j → j < board.now.papers + 1 → Drops board.now moves.now member j
        → Has papers.now j) }
{
    next(&moves.drops, board.tall, member, papers, from)
}

/// Reaches the member by one more step.
fn reach(path: &mut Path, member: usize, paper: usize, from: usize)
    requires room { (path.old.count < length path.old.steps.items) × (member < 64 * length path.old.members.items) }
    ensures reaches { Reaches member paper from path.old path.new }
    ensures root { path.new.root ≡ path.old.root }
{
    mark(&mut path.members, member);
    path.steps[path.count] = Step {
        member,
        paper,
        from,
    };
    path.count += 1;
}

/// Reaches all members that the paper may take, which the member of the step `from` may drop. Stops at one who may drop
/// the target, and returns that step.
fn spread(
    board: &Board,
    moves: &Moves,
    path: &mut Path,
    target: usize,
    paper: usize,
    from: usize,
) -> Option<usize>
    requires moves { AreMoves board.now moves.now × IsLong board.now path.old }
    requires places { (target ≤ board.now.papers) × (paper ≤ board.now.papers) × (from < path.old.count)
        × (path.old.root ≤ from) }
    requires leads { Drops board.now moves.now (step_of path.old from).member paper }
    requires steps { AreSteps board.now moves.now path.old × NoneDrops board.now moves.now target path.old }
    ensures long { IsLong board.now path.new }
    ensures steps { AreSteps board.now moves.now path.new }
    ensures goes { Goes path.old path.new × (path.new.root ≡ path.old.root) }
    ensures some { IfSome result
        (λ i. (i < path.new.count) × Drops board.now moves.now (step_of path.new i).member target) }
    ensures none { IfNone result (NoneDrops board.now moves.now target path.new
        × IsSpread board.now moves.now path.new paper) }
{
    let mut at = 0;
    'members: loop {
        let Some(m) = next_taken(board, moves, path, paper, at) else {
            return None;
        };
        reach(path, m, paper, from);
        if has(&moves.drops, board.tall, m, target) {
            return Some(path.count - 1);
        }
        at = m + 1;
    }
}

/// Puts the paper among those that are reached.
fn reach_paper(papers: &mut Vec<u64>, paper: usize)
    requires { paper < 64 * length papers.old.items }
    ensures long { length papers.new.items ≡ length papers.old.items }
    ensures same { Has papers.new.items paper }
    ensures others { (j : ℕ) → j ≢ paper → Has papers.new.items j ↔ Has papers.old.items j }
{
    mark(papers, paper);
}

/// Reaches all members that the papers may take that the member of the step may drop. Stops at one who may drop the
/// target, and returns that step.
fn expand(
    board: &Board,
    moves: &Moves,
    trail: &mut Trail,
    target: usize,
    from: usize,
) -> Option<usize>
    requires moves { AreMoves board.now moves.now × IsRoomy board.now trail.old }
    requires places { (target ≤ board.now.papers) × (from < trail.old.path.count) × (trail.old.path.root ≤ from) }
    requires steps { AreSteps board.now moves.now trail.old.path
        × IsReached board.now moves.now target trail.old.papers.items trail.old.path }
    ensures roomy { IsRoomy board.now trail.new }
    ensures steps { AreSteps board.now moves.now trail.new.path }
    ensures goes { GoesOn trail.old trail.new × (trail.new.next ≡ trail.old.next) }
    ensures some { IfSome result
        (λ i. (i < trail.new.path.count) × Drops board.now moves.now (step_of trail.new.path i).member target) }
    ensures none { IfNone result (IsReached board.now moves.now target trail.new.papers.items trail.new.path
        × IsExpanded board.now moves.now trail.new.papers.items trail.new.path from) }
{
    let member = step_at(&trail.path, from).member;
    let mut at = 0;
    'papers: loop {
        let Some(paper) = next_dropped(board, moves, &trail.papers, member, at) else {
            return None;
        };
        reach_paper(&mut trail.papers, paper);
        let found = spread(board, moves, &mut trail.path, target, paper, from);
        if found.is_some() {
            return found;
        }
        at = paper + 1;
    }
}

/// Reaches all that can be reached. Stops at a member who may drop the target, and returns that step.
///
/// # Cost
///
/// At most one look at each paper and each member that isn't reached, and at what each may change, 64 at a time.
pub fn explore(board: &Board, moves: &Moves, trail: &mut Trail, target: usize) -> Option<usize>
    requires moves { AreMoves board.now moves.now × IsRoomy board.now trail.old }
    requires places { (target ≤ board.now.papers) × (trail.old.next ≤ trail.old.path.count)
        × (trail.old.path.root ≤ trail.old.next) }
    requires steps { AreSteps board.now moves.now trail.old.path
        × IsReached board.now moves.now target trail.old.papers.items trail.old.path }
    requires done { (i : ℕ) → i < trail.old.next
        → IsExpanded board.now moves.now trail.old.papers.items trail.old.path i }
    ensures roomy { IsRoomy board.now trail.new }
    ensures steps { AreSteps board.now moves.now trail.new.path }
    ensures goes { GoesOn trail.old trail.new }
    ensures some { IfSome result
        (λ i. (i < trail.new.path.count) × Drops board.now moves.now (step_of trail.new.path i).member target) }
    ensures none { IfNone result (IsDone board.now moves.now target trail.new) }
{
    'steps: while trail.next < trail.path.count {
        let found = expand(board, moves, trail, target, trail.next);
        if found.is_some() {
            return found;
        }
        trail.next += 1;
    }
    None
}

/// Forgets the papers, so that they are reached anew.
pub fn forget_papers(papers: &mut Vec<u64>)
    ensures long { length papers.new.items ≡ length papers.old.items }
    ensures zero { (k : ℕ) → slice_index papers.new.items k ≡ 0 }
{
    clear(papers);
}

/// Empties the search.
fn wipe(trail: &mut Trail)
    ensures long { (length trail.new.papers.items ≡ length trail.old.papers.items)
        × (length trail.new.path.members.items ≡ length trail.old.path.members.items)
        × (length trail.new.path.steps.items ≡ length trail.old.path.steps.items) }
    ensures none { (trail.new.path.count ≡ 0) × (trail.new.next ≡ 0) }
    ensures papers { (k : ℕ) → slice_index trail.new.papers.items k ≡ 0 }
    ensures members { (k : ℕ) → slice_index trail.new.path.members.items k ≡ 0 }
{
    clear(&mut trail.papers);
    clear(&mut trail.path.members);
    trail.path.count = 0;
    trail.path.root = 0;
    trail.next = 0;
}

/// Forgets all that is reached. So a search for any target is done.
pub fn forget(board: &Board, trail: &mut Trail)
    requires { IsRoomy board.now trail.old }
    ensures searched { (v : Moves) (target : ℕ) → IsSearched board.now v target trail.new }
    ensures none { trail.new.path.count ≡ 0 }
{
    wipe(trail);
}

/// Reaches one more member by a step of its own, the root from now on.
pub fn root(path: &mut Path, member: usize)
    requires room { (path.old.count < length path.old.steps.items) × (member < 64 * length path.old.members.items) }
    ensures reaches { Reaches member 0 path.old.count path.old path.new }
    ensures root { path.new.root ≡ path.old.count }
{
    let here = path.count;
    reach(path, member, 0, here);
    path.root = here;
}

/// Looks for a way from one more member to the target, going on with a search that has found none. Returns the step of
/// the member who may drop the target, or `None` if there is none.
pub fn explore_from(
    board: &Board,
    moves: &Moves,
    trail: &mut Trail,
    target: usize,
    member: usize,
) -> Option<usize>
    requires moves { AreMoves board.now moves.now }
    requires searched { IsSearched board.now moves.now target trail.old }
    requires places { (target < board.now.papers) × (member < board.now.members) }
    requires closed { Drops board.now moves.now member target → ⊥ }
    ensures steps { AreSteps board.now moves.now trail.new.path × IsRoomy board.now trail.new }
    ensures some { IfSome result (λ i. (i < trail.new.path.count) × (trail.new.path.root ≤ i)
        × Drops board.now moves.now (step_of trail.new.path i).member target
        × ((step_of trail.new.path trail.new.path.root).member ≡ member)) }
    ensures none { IfNone result (IsSearched board.now moves.now target trail.new
        × Has trail.new.path.members.items member) }
{
    if is_reached(&trail.path, member) {
        return None;
    }
    root(&mut trail.path, member);
    explore(board, moves, trail, target)
}
