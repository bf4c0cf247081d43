// SPDX-License-Identifier: Apache-2.0 OR MIT
//! The greatest sum: one place after another is filled, and prices move where a search ends too early.

ghost use Rattle.std.specs.Prelude.{◌≡◌, ◌≢◌, ℕ, ◌+◌, ◌*◌, ◌^◌, ◌<◌, ◌≤◌, ◌⊎◌, ◌↔◌, IsTrue, true, false, length};
ghost use Rattle.std.specs.Prelude.{slice_index};
ghost use Rattle.cr_match.specs.Rows.{Has};
ghost use Rattle.cr_match.specs.Search.{AreMoves, IsRoomy};
ghost use Rattle.cr_match.specs.Draft.{Holds, IsDraft};
ghost use Rattle.cr_match.specs.Board.{IsBoard, AreSmall, Suits, worth, price_of, far};
ghost use Rattle.cr_match.specs.Raise.{Clears, Meets, IsGap, IsGapOf, AreLower, AreHigher, IsRepriced, IsFitting};
ghost use Rattle.cr_match.specs.Raise.{IsStuck, placed};

use crate::board::{Board, FAR, Levels, worth_of};
use crate::draft::{Choice, Draft, holds, turn};
use crate::rows::marked;
use crate::tight::tighten;
use crate::trail::{Trail, explore, forget, forget_papers, root};

/// Returns the lesser number.
fn lesser(a: u32, b: u32) -> u32
    ensures least { (result ≤ a) × (result ≤ b) }
    ensures either { (result ≡ a) ⊎ (result ≡ b) }
{
    if a < b { a } else { b }
}

/// Returns how far the pair is from its prices: above them if it is held, and else below.
fn distance(board: &Board, levels: &Levels, held: bool, p: usize, m: usize) -> u32
    requires board { IsBoard board.now × AreSmall board.now levels.now }
    requires inside { (p < board.now.papers) × (m < board.now.members) }
    requires less { held ≡ true → price_of levels.now p m ≤ worth board.now p m }
    requires more { held ≡ false → worth board.now p m ≤ price_of levels.now p m }
    ensures less { held ≡ true → price_of levels.now p m + result ≡ worth board.now p m }
    ensures more { held ≡ false → worth board.now p m + result ≡ price_of levels.now p m }
{
    let price = levels.papers[p] + levels.members[m];
    if held {
        return worth_of(board, p, m) - price;
    }
    price - worth_of(board, p, m)
}

/// Returns how far the pair is from its prices, if they keep it from leading the search on, and else `FAR`.
fn gap_of(board: &Board, levels: &Levels, choice: &Choice, trail: &Trail, p: usize, m: usize) -> u32
    requires board { IsBoard board.now × AreSmall board.now levels.now }
    requires roomy { IsRoomy board.now trail.now }
    requires suits { Suits board.now levels.now choice.now }
    requires long { length choice.now.held.items ≡ board.now.papers * board.now.wide }
    requires inside { (p < board.now.papers) × (m < board.now.members) }
    ensures clears { Clears board.now levels.now choice.now trail.now result p m }
    ensures meets { (result ≡ far) ⊎ Meets board.now levels.now choice.now trail.now result p m }
{
    let reached = marked(&trail.papers, p);
    if reached == marked(&trail.path.members, m) {
        return FAR;
    }
    let held = holds(choice, board, p, m);
    if held == reached {
        return FAR;
    }
    distance(board, levels, held, p, m)
}

/// Returns how far the nearest such pair of the paper is, or `FAR` if there is none.
fn gap_of_paper(board: &Board, levels: &Levels, choice: &Choice, trail: &Trail, p: usize) -> u32
    requires board { IsBoard board.now × AreSmall board.now levels.now }
    requires roomy { IsRoomy board.now trail.now }
    requires suits { Suits board.now levels.now choice.now }
    requires long { length choice.now.held.items ≡ board.now.papers * board.now.wide }
    requires inside { p < board.now.papers }
    ensures { IsGapOf board.now levels.now choice.now trail.now p result }
{
    let mut least = FAR;
    for m in 0..board.members {
        least = lesser(gap_of(board, levels, choice, trail, p, m), least);
    }
    least
}

/// Returns how far the nearest such pair is, or `FAR` if there is none.
fn gap(board: &Board, levels: &Levels, choice: &Choice, trail: &Trail) -> u32
    requires board { IsBoard board.now × AreSmall board.now levels.now }
    requires roomy { IsRoomy board.now trail.now }
    requires suits { Suits board.now levels.now choice.now }
    requires long { length choice.now.held.items ≡ board.now.papers * board.now.wide }
    ensures { IsGap board.now levels.now choice.now trail.now result }
{
    let mut least = FAR;
    for p in 0..board.papers {
        least = lesser(gap_of_paper(board, levels, choice, trail, p), least);
    }
    least
}

/// Lowers the prices of what is reached by `step`.
fn lower(prices: &mut [u32], reached: &[u64], step: u32)
    requires long { length prices.old ≤ 64 * length reached.now }
    requires room { (k : ℕ) → k < length prices.old → Has reached.now k → step ≤ slice_index prices.old k }
    ensures { AreLower reached.now step prices.old prices.new }
{
    for k in 0..prices.len() {
        if marked(reached, k) {
            prices[k] -= step;
        }
    }
}

/// Raises the prices of what is reached by `step`.
fn higher(prices: &mut [u32], reached: &[u64], step: u32)
    requires long { length prices.old ≤ 64 * length reached.now }
    requires room { (k : ℕ) → k < length prices.old → slice_index prices.old k + step < 2 ^ 32 }
    ensures { AreHigher reached.now step prices.old prices.new }
{
    for k in 0..prices.len() {
        if marked(reached, k) {
            prices[k] += step;
        }
    }
}

/// Lowers the prices of the papers that are reached by `step`, and raises those of the members that are, and nobody's.
fn reprice(levels: &mut Levels, trail: &Trail, step: u32)
    requires long { (length levels.old.papers.items ≤ 64 * length trail.now.papers.items)
        × (length levels.old.members.items ≤ 64 * length trail.now.path.members.items) }
    requires papers { (p : ℕ) → p < length levels.old.papers.items → Has trail.now.papers.items p
        → step ≤ slice_index levels.old.papers.items p }
    requires members { (m : ℕ) → m < length levels.old.members.items
        → slice_index levels.old.members.items m + step < 2 ^ 32 }
    requires nobody { levels.old.nobody + step < 2 ^ 32 }
    ensures { IsRepriced trail.now step levels.old levels.new }
{
    lower(&mut levels.papers, &trail.papers, step);
    higher(&mut levels.members, &trail.path.members, step);
    levels.nobody += step;
}

/// Gives some paper that lacks a member one more. Returns false if no such paper can have one, whatever the prices:
/// what is reached then shows it.
///
/// # Cost
///
/// One search; for each move of prices, two looks at each paper and member together.
fn serve(
    board: &Board,
    levels: &mut Levels,
    draft: &mut Draft,
    trail: &mut Trail,
    place: u32,
) -> bool
    requires board { IsBoard board.now × (place < 512) }
    requires fitting { IsFitting board.now levels.old draft.old.choice draft.old.moves }
    requires trail { IsRoomy board.now trail.old }
    requires top { levels.old.nobody ≤ 400040 * place }
    ensures served { result ≡ true → IsFitting board.now levels.new draft.new.choice draft.new.moves
        × (placed board.now draft.new.choice ≡ placed board.now draft.old.choice + 1) }
    ensures trail { IsRoomy board.now trail.new }
    ensures top { levels.new.nobody ≤ 400040 * (place + 1) }
    ensures stuck { result ≡ false → IsStuck board.now draft.new.choice draft.new.moves trail.new
        × (placed board.now draft.new.choice ≡ placed board.now draft.old.choice) }
{
    forget(board, trail);
    root(&mut trail.path, board.members);
    'prices: loop {
        if let Some(last) = explore(board, &draft.moves, trail, board.papers) {
            turn(draft, board, &trail.path, board.papers, last);
            return true;
        }
        let step = gap(board, levels, &draft.choice, trail);
        if step == FAR {
            return false;
        }
        reprice(levels, trail, step);
        tighten(&mut draft.moves, board, levels, &draft.choice);
        forget_papers(&mut trail.papers);
        trail.next = 0;
    }
}

/// Gives each paper as many members as it needs. Returns false if there is no such plan.
pub fn fill(board: &Board, levels: &mut Levels, draft: &mut Draft, trail: &mut Trail) -> bool
    requires board { IsBoard board.now }
    requires fitting { IsFitting board.now levels.old draft.old.choice draft.old.moves }
    requires trail { IsRoomy board.now trail.old }
    requires begun { (levels.old.nobody ≡ 0) × (placed board.now draft.old.choice ≡ 0) }
    ensures filled { result ≡ true → IsFitting board.now levels.new draft.new.choice draft.new.moves
        × (placed board.now draft.new.choice ≡ board.now.want * board.now.papers) }
    ensures trail { IsRoomy board.now trail.new }
    ensures top { levels.new.nobody ≤ 204820480 }
    ensures stuck { result ≡ false → IsStuck board.now draft.new.choice draft.new.moves trail.new
        × (placed board.now draft.new.choice < board.now.want * board.now.papers) }
{
    for place in 0..board.want * board.papers as u32 {
        if !serve(board, levels, draft, trail, place) {
            return false;
        }
    }
    true
}
