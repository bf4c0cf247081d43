// SPDX-License-Identifier: Apache-2.0 OR MIT
//! How much a member wants to review a paper.
ghost use Rattle.std.specs.Prelude.{◌≡◌, ◌≤◌, nat_lt, if◌then◌else◌};
ghost use Rattle.cr_base.specs.Words.{no_bid, bid_of_value, bid_size};

use std::marker::Model;

/// The highest bid plus 20, as rows spell it.
pub(crate) const HIGHEST_RAISED: u64 = 40;

/// A bid on a paper, from -20 to 20; 0 where none was told.
///
/// # Model
///
/// It plus 20, as rows spell it.
#[derive(Clone, Copy, PartialEq, Eq)]
pub struct Bid {
    raised: u8,
}

impl Model for Bid {
    ghost use Rattle.std.specs.Prelude.{ℕ, ◌≤◌};

    ghost Value = { ℕ };

    ghost view = { λ b. b.raised };

    ghost invariant = { λ b. b.raised ≤ 40 };

    ghost inverse = { λ n. record { raised = n } };
}

impl Bid {
    /// Returns the bid of who has told none: 0.
    pub fn zero() -> Bid
        ensures { result ≡ no_bid }
    {
        Bid { raised: 20 }
    }

    /// Returns the bid of this value, or `None` if it isn't one from -20 to 20.
    pub fn from_value(value: i64) -> Option<Bid>
        ensures { result ≡ bid_of_value value }
    {
        if value < -20 || value > 20 {
            return None;
        }
        Some(Bid {
            raised: (value + 20) as u8,
        })
    }

    /// Returns the bid that a number from 0 to 40 is, plus 20.
    pub(crate) fn from_raised(number: u64) -> Bid
        requires { number ≤ 40 }
        ensures { result ≡ number }
    {
        Bid {
            raised: number as u8,
        }
    }

    /// Returns the bid plus 20, from 0 to 40.
    pub fn raised(self) -> u64
        ensures value { result ≡ self }
        ensures high { result ≤ 40 }
    {
        u64::from(self.raised)
    }

    /// Returns whether it is less than 0.
    pub fn is_negative(self) -> bool
        ensures { result ≡ nat_lt self no_bid }
    {
        self.raised < 20
    }

    /// Returns the bid without its sign, from 0 to 20.
    pub fn size(self) -> u64
        ensures value { result ≡ bid_size self }
        ensures high { result ≤ 20 }
    {
        if self.raised < 20 {
            20 - u64::from(self.raised)
        } else {
            u64::from(self.raised) - 20
        }
    }
}
