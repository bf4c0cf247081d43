// SPDX-License-Identifier: Apache-2.0 OR MIT
//! Ties of papers and users: the pair that is tied, and what is kept of it.
ghost use Rattle.std.specs.Prelude.{◌≡◌, ◌≤◌};
ghost use Rattle.cr_base.specs.Pairs.{major, minor};

use crate::numbers::{PaperNo, UserNo};

/// A paper and a user.
#[derive(Clone, Copy)]
pub struct Pair {
    /// The paper.
    pub paper: PaperNo,
    /// The user who is tied to it.
    pub user: UserNo,
}

/// A paper and a user who are tied, and what is kept of the two: `()` where nothing is but that.
#[derive(Clone, Copy)]
pub struct Tie<V> {
    /// The paper and the user.
    pub pair: Pair,
    /// What is kept of the two.
    pub value: V,
}

/// The order of pairs, and so the number by which they are found.
#[derive(Clone, Copy, PartialEq, Eq)]
pub enum Order {
    /// By the paper, and those of one paper by the user.
    ByPaper,
    /// By the user, and those of one user by the paper.
    ByUser,
}

impl Pair {
    /// Returns the number by which the pair is found in this order, 1 to 9,999.
    pub fn major(&self, order: Order) -> u64
        ensures value { result ≡ major order self.now }
        ensures few { result ≤ 9999 }
    {
        match order {
            Order::ByPaper => self.paper.number(),
            Order::ByUser => self.user.number(),
        }
    }

    /// Returns the number that orders those with the same first one, 1 to 9,999.
    pub fn minor(&self, order: Order) -> u64
        ensures { result ≡ minor order self.now }
    {
        match order {
            Order::ByPaper => self.user.number(),
            Order::ByUser => self.paper.number(),
        }
    }
}
