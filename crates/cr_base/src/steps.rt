// SPDX-License-Identifier: Apache-2.0 OR MIT
//! How many stored records were read.
ghost use Rattle.std.specs.Prelude.{◌≡◌, ◌<◌, Some, None};
ghost use Rattle.cr_base.specs.Steps.{Takes};

use std::marker::{Brand, Model};
use std::sync::ledger::{Blank, Book, Ledger, Share};

/// The ledger of those who count nothing: none is ever opened for it.
pub type Uncounted = Brand;

/// How many stored records were read, each by a call that ticks. It counts only for a caller that opens a ledger;
/// ticking is no code in any case.
///
/// # Model
///
/// The number, or none if nothing is counted.
pub struct Steps<L: Ledger> {
    tokens: Option<(Book<L>, Share<L>)>,
}

// Written out, so that a caller doesn't prove again how the tokens are dropped.
impl<L: Ledger> Drop for Steps<L> {
    fn drop(self) {
        let Steps { tokens: _ } = self;
    }
}

impl<L: Ledger> Model for Steps<L> {
    ghost use Rattle.std.specs.Prelude.{ℕ, ◌<◌, Option};
    ghost use Rattle.std.specs.Option.{option_map, IfSome};

    ghost Value = { Option ℕ };

    ghost view = { λ s. option_map (λ t. t.0.total) s.tokens };

    ghost invariant = { λ s. IfSome s.tokens (λ t. 0 < t.1.parts) };
}

impl Steps<Uncounted> {
    /// Returns steps that no ledger counts.
    pub fn uncounted() -> Steps<Uncounted>
        ensures { result ≡ None }
    {
        Steps { tokens: None }
    }
}

impl<L: Ledger> Steps<L> {
    /// Returns no steps yet, to be counted in a ledger of their own.
    pub fn new(blank: Blank) -> Steps<L>
        requires name { blank.name ≡ L.name }
        requires parts { blank.parts ≡ L.parts }
        requires some { 0 < L.parts }
        ensures { result ≡ Some 0 }
    {
        Steps {
            tokens: Some(blank.open()),
        }
    }

    /// Adds this many steps.
    pub fn ticks(&mut self, count: u64)
        ensures { Takes count self.old self.new }
    {
        match &mut self.tokens {
            Some((book, share)) => book.add(share, count),
            None => {}
        }
    }
}
