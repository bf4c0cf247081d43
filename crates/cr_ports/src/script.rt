// SPDX-License-Identifier: Apache-2.0 OR MIT
//! How a stream in memory is told to behave, call by call.
ghost use Rattle.std.specs.Prelude.{◌≡◌, ◌≤◌, IfOk};
ghost use Rattle.cr_ports.specs.Calls.{Advances, fails};
ghost use Rattle.cr_ports.specs.Count.{counted};
ghost use Rattle.cr_ports.specs.Script.{moved};

use crate::calls::Calls;
use std::alloc::AllocError;
use std::marker::Model;

/// How many bytes each call of a stream in memory moves at most, which calls fail, and how many faults were counted.
///
/// # Model
///
/// The lengths, the calls and the fault counter.
#[derive(Drop)]
pub struct Script {
    pieces: Vec<usize>,
    calls: Calls,
    faults: u64,
}

impl Model for Script {
    ghost use Rattle.cr_ports.specs.Script.{Scripted};

    ghost Value = { Scripted };

    ghost view = { λ s. record { pieces = s.pieces.items; calls = s.calls; faults = s.faults } };
}

impl Script {
    /// Creates a script of these lengths and of the calls that fail, with no call made and no fault counted.
    pub(crate) fn new(pieces: Vec<usize>, failing: Vec<u64>) -> Self
        ensures pieces { result.pieces ≡ pieces.items }
        ensures failing { result.calls.failing ≡ failing.items }
        ensures made { result.calls.made ≡ 0 }
        ensures faults { result.faults ≡ 0 }
    {
        Script {
            pieces,
            calls: Calls::new(failing),
            faults: 0,
        }
    }

    /// Copies the lists and the counts.
    ///
    /// # Errors
    ///
    /// If memory runs out.
    pub(crate) fn copy(&self) -> Result<Self, AllocError>
        ensures { IfOk result (λ copy. copy ≡ self.now) }
    {
        let pieces = self.pieces.clone()?;
        let calls = self.calls.copy()?;
        Ok(Script {
            pieces,
            calls,
            faults: self.faults,
        })
    }

    /// Returns how many bytes the next call moves if so many are wanted.
    pub(crate) fn moved(&self, wanted: usize) -> usize
        ensures { result ≡ moved self.now wanted }
    {
        match self.pieces.get(self.calls.number() as usize) {
            Some(most) => (*most).max(1).min(wanted),
            None => wanted,
        }
    }

    /// Counts a call, and returns whether it is listed as one that fails.
    pub(crate) fn begin(&mut self) -> bool
        ensures listed { result ≡ fails self.old.calls }
        ensures advances { Advances self.old.calls self.new.calls }
        ensures pieces { self.new.pieces ≡ self.old.pieces }
        ensures faults { self.new.faults ≡ self.old.faults }
    {
        self.calls.begin()
    }

    /// Counts a fault.
    pub(crate) fn fail(&mut self)
        ensures later { self.old.faults ≤ self.new.faults }
        ensures faults { self.new.faults ≡ counted self.old.faults }
        ensures calls { self.new.calls ≡ self.old.calls }
        ensures pieces { self.new.pieces ≡ self.old.pieces }
    {
        self.faults = self.faults.saturating_add(1);
    }
}
