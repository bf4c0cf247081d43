// SPDX-License-Identifier: Apache-2.0 OR MIT
//! Which labels of a paper have something said of them.
ghost use Rattle.std.specs.Prelude.{◌≡◌, ℕ, ◌||◌, ◌==◌, false};
ghost use Rattle.cr_reviews.specs.Labels.{has_label};

use cr_base::{MOST_LABELS, Ordinal};
use std::marker::Model;

/// A flag for each ordinal, and one for 0, which no label has.
const FLAGS: usize = MOST_LABELS as usize + 1;

/// Some of the labels of a paper.
///
/// # Model
///
/// A flag for each ordinal.
#[derive(Clone, Copy)]
pub struct Labels {
    flags: [bool; FLAGS],
}

impl Model for Labels {
    ghost use Rattle.std.specs.Prelude.{Bool, List};

    ghost Value = { List Bool };

    ghost view = { λ l. l.flags };

    ghost inverse = { λ flags. record { flags = flags } };
}

impl Labels {
    /// Returns no labels.
    pub(crate) fn none() -> Labels
        ensures { (o : ℕ) → has_label result o ≡ false }
    {
        Labels {
            flags: [false; FLAGS],
        }
    }

    /// Returns whether the label of this ordinal is among them.
    ///
    /// # Cost
    ///
    /// One read.
    pub fn has(&self, ordinal: Ordinal) -> bool
        ensures { result ≡ has_label self.now ordinal }
    {
        self.flags[ordinal.number() as usize]
    }

    /// Adds the label of this ordinal.
    pub(crate) fn add(&mut self, ordinal: Ordinal)
        ensures { (o : ℕ) → has_label self.new o ≡ (ordinal == o || has_label self.old o) }
    {
        self.flags[ordinal.number() as usize] = true;
    }
}
