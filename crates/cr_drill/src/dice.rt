// SPDX-License-Identifier: Apache-2.0 OR MIT
//! The numbers that a drill draws.
ghost use Rattle.std.specs.Prelude.{◌≡◌, ◌≤◌};
ghost use Rattle.cr_drill.specs.Dice.{turned, drawn, roll_of, after_roll};

use cr_base::{PaperNo, UserNo};

/// The factor of the generator: that of ISO C's example of `rand` (7.22.2), as is the summand.
const FACTOR: u64 = 1_103_515_245;

/// Its summand.
const SUMMAND: u64 = 12_345;

/// Its modulus, half that of the example.
const MODULUS: u64 = 2_147_483_648;

/// By what a draw divides, which leaves out the lower 16 bits.
const DIVISOR: u64 = 65_536;

/// A generator of numbers: equal seeds give equal numbers.
#[derive(Clone, Copy)]
pub struct Dice {
    /// What the next draw begins with.
    pub seed: u64,
}

/// What one step draws.
#[derive(Clone, Copy)]
pub struct Roll {
    /// The user who acts, unless a chair does in their place: one of the eight.
    pub user: UserNo,
    /// Which of the four operations of the phase, from 0 to 3.
    pub operation: u64,
    /// On which paper; 1 where there is none.
    pub paper: PaperNo,
    /// The user concerned, and the number told: one of the eight.
    pub other: UserNo,
}

impl Dice {
    /// Returns the next number, from 0 to 32,767.
    #[tactic(auto, unfolding(crate::specs::Dice::turned, crate::specs::Dice::drawn))]
    fn draw(&mut self) -> u64
        requires { self.old.seed ≤ 4294967295 }
        ensures left { self.new.seed ≡ turned self.old.seed }
        ensures value { result ≡ drawn (turned self.old.seed) }
        ensures few { self.new.seed ≤ 4294967295 }
    {
        self.seed = (FACTOR * self.seed + SUMMAND) % MODULUS;
        self.seed / DIVISOR
    }

    /// Returns the four numbers of a step, if there are so many papers.
    #[tactic(auto, unfolding(crate::specs::Dice::roll_of, crate::specs::Dice::after_roll))]
    pub(crate) fn roll(&mut self, papers: u64) -> Roll
        requires seed { self.old.seed ≤ 4294967295 }
        requires papers { papers ≤ 9999 }
        ensures value { result ≡ roll_of papers self.old.seed }
        ensures left { self.new.seed ≡ after_roll self.old.seed }
        ensures few { self.new.seed ≤ 4294967295 }
        ensures among { (1 ≤ result.user) × (result.user ≤ 8) × (1 ≤ result.other) × (result.other ≤ 8) }
    {
        let user = 1 + self.draw() % 8;
        let operation = self.draw() % 4;
        let paper = 1 + self.draw() % papers.max(1);
        let other = 1 + self.draw() % 8;
        Roll {
            user: UserNo::new(user),
            operation,
            paper: PaperNo::new(paper),
            other: UserNo::new(other),
        }
    }
}
