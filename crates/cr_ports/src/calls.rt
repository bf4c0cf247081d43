// SPDX-License-Identifier: Apache-2.0 OR MIT
//! Which calls of something in memory fail.
ghost use Rattle.std.specs.Prelude.{◌≡◌, [], IfOk};
ghost use Rattle.cr_ports.specs.Calls.{Advances, fails};

use std::alloc::AllocError;
use std::marker::Model;

/// The calls that were made of one kind, numbered from 0, and the numbers of those that fail.
///
/// # Model
///
/// The numbers, and how many calls were made.
#[derive(Drop)]
pub struct Calls {
    failing: Vec<u64>,
    made: u64,
}

impl Model for Calls {
    ghost use Rattle.cr_ports.specs.Calls.{Listed};

    ghost Value = { Listed };

    ghost view = { λ c. record { failing = c.failing.items; made = c.made } };
}

impl Calls {
    /// Creates a list of the calls that fail, none of which is made yet.
    pub(crate) fn new(failing: Vec<u64>) -> Self
        ensures failing { result.failing ≡ failing.items }
        ensures made { result.made ≡ 0 }
    {
        Calls { failing, made: 0 }
    }

    /// Copies the lists and the count.
    ///
    /// # Errors
    ///
    /// If memory runs out.
    pub(crate) fn copy(&self) -> Result<Self, AllocError>
        ensures { IfOk result (λ copy. copy ≡ self.now) }
    {
        let failing = self.failing.clone()?;
        Ok(Calls {
            failing,
            made: self.made,
        })
    }

    /// Returns the number of the next call.
    pub(crate) fn number(&self) -> u64
        ensures { result ≡ self.now.made }
    {
        self.made
    }

    /// Counts a call, and returns whether it is listed as one that fails.
    pub(crate) fn begin(&mut self) -> bool
        ensures listed { result ≡ fails self.old }
        ensures advances { Advances self.old self.new }
    {
        let listed = self.failing.contains(&self.made);
        self.made = self.made.saturating_add(1);
        listed
    }
}
