// SPDX-License-Identifier: Apache-2.0 OR MIT
//! What a plan of assignments is asked to be.
ghost use Rattle.std.specs.Prelude.{◌≡◌, ◌≤◌};

use std::marker::Model;

/// The most papers that a plan may be asked to give a member.
pub const MOST_LOAD: u64 = 512;

/// How many more members a plan gives each paper: 1 to 26.
#[derive(Clone, Copy, PartialEq, Eq)]
pub struct PerPaper {
    number: u8,
}

impl Model for PerPaper {
    ghost use Rattle.std.specs.Prelude.{ℕ, ◌≤◌};

    ghost Value = { ℕ };

    ghost view = { λ k. k.number };

    ghost invariant = { λ k. (1 ≤ k.number) × (k.number ≤ 26) };

    ghost inverse = { λ n. record { number = n } };
}

impl PerPaper {
    /// Returns this number of members, from 1 to 26.
    pub fn new(number: u64) -> PerPaper
        requires low { 1 ≤ number }
        requires high { number ≤ 26 }
        ensures { result ≡ number }
    {
        PerPaper {
            number: number as u8,
        }
    }

    /// Returns the number, from 1 to 26.
    pub fn number(self) -> u64
        ensures value { result ≡ self }
        ensures low { 1 ≤ result }
        ensures high { result ≤ 26 }
    {
        u64::from(self.number)
    }
}

/// How many papers a plan gives a member at most: 1 to 512.
#[derive(Clone, Copy, PartialEq, Eq)]
pub struct PlanLoad {
    number: u16,
}

impl Model for PlanLoad {
    ghost use Rattle.std.specs.Prelude.{ℕ, ◌≤◌};

    ghost Value = { ℕ };

    ghost view = { λ l. l.number };

    ghost invariant = { λ l. (1 ≤ l.number) × (l.number ≤ 512) };

    ghost inverse = { λ n. record { number = n } };
}

impl PlanLoad {
    /// Returns this number of papers, from 1 to 512.
    pub fn new(number: u64) -> PlanLoad
        requires low { 1 ≤ number }
        requires high { number ≤ 512 }
        ensures { result ≡ number }
    {
        PlanLoad {
            number: number as u16,
        }
    }

    /// Returns the number, from 1 to 512.
    pub fn number(self) -> u64
        ensures value { result ≡ self }
        ensures low { 1 ≤ result }
        ensures high { result ≤ 512 }
    {
        u64::from(self.number)
    }
}
