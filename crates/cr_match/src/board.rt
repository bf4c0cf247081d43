// SPDX-License-Identifier: Apache-2.0 OR MIT
//! The problem as a table, and prices.
//!
//! Numbers are lifted by `LIFT`, so that none is below 0: what a pair is worth, and the price of a paper. A member's
//! price isn't.

ghost use Rattle.std.specs.Prelude.{◌≡◌, ◌≢◌, ℕ, ◌+◌, ◌*◌, ◌^◌, ◌<◌, ◌≤◌, ◌⊎◌, ◌↔◌, IsTrue, length, slice_index};
ghost use Rattle.cr_match.specs.Board.{IsBoard, worth};

/// What is added to a weight, so that no price is below 0.
pub const LIFT: u32 = 1_073_741_824;

/// More than the distance of any pair from its prices, and less than `LIFT`.
pub const FAR: u32 = 536_870_912;

/// The problem as a table, a number for each paper and member.
#[derive(Drop)]
pub struct Board {
    /// How many papers there are.
    pub papers: usize,
    /// How many members there are.
    pub members: usize,
    /// How many members each paper needs.
    pub want: u32,
    /// How many papers a member takes at most.
    pub load: u32,
    /// How many words a row of members takes.
    pub wide: usize,
    /// How many words a row of papers and the spare one takes.
    pub tall: usize,
    /// By paper, `members` each: `LIFT` and the pair's weight, or 0 if the two are no pair.
    pub worth: Vec<u32>,
}

/// Prices of papers, lifted, of members, and of nobody, who stands for the members that papers lack.
#[derive(Drop)]
pub struct Levels {
    /// The price of each paper, lifted.
    pub papers: Vec<u32>,
    /// The price of each member.
    pub members: Vec<u32>,
    /// The price of nobody, which no member's exceeds.
    pub nobody: u32,
}

/// Returns what the pair is worth.
pub fn worth_of(board: &Board, p: usize, m: usize) -> u32
    requires board { IsBoard board.now }
    requires inside { (p < board.now.papers) × (m < board.now.members) }
    ensures { result ≡ worth board.now p m }
{
    board.worth[p * board.members + m]
}
