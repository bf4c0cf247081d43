// SPDX-License-Identifier: Apache-2.0 OR MIT
//! Clocks in memory.
ghost use Rattle.std.specs.Prelude.{◌≡◌, ◌≢◌, ◌≤◌, ℕ, List, None, Option, Some, drop, slice_get, IfOk};
ghost use Rattle.cr_ports.specs.Calls.{Advances};
ghost use Rattle.cr_ports.specs.Clocks.{IsGiven, clock_faults, clock_step, moment_given};
ghost use Rattle.cr_ports.specs.Count.{Rises};
ghost use Rattle.cr_ports.specs.Stream.{and_left};

use crate::calls::Calls;
use crate::{Clock, ClockStep};
use cr_base::Moment;
use std::alloc::AllocError;
use std::marker::Model;

/// Returns this time as a clock's answer; it is within the range of a `Moment`.
fn step_at(moment: Moment) -> ClockStep
    ensures step { result ≡ ClockStep.Now moment }
    ensures range { IsGiven result }
{
    // That it is within the range is a clause of this call.
    let _ = moment.seconds();
    ClockStep::Now(moment)
}

/// Gives its times in order, and fails exactly at the listed calls and if none is left.
///
/// # Model
///
/// The times that it has still to give, the calls and the fault counter.
pub struct MemClock {
    moments: Vec<Moment>,
    // How many of them were given.
    given: usize,
    calls: Calls,
    faults: u64,
}

// Written out, so that a caller doesn't prove again how each part is dropped.
impl Drop for MemClock {
    fn drop(self) {
        let MemClock {
            moments: _,
            given: _,
            calls: _,
            faults: _,
        } = self;
    }
}

impl Model for MemClock {
    ghost use Rattle.std.specs.Prelude.{◌≤◌, drop, vec_len};
    ghost use Rattle.cr_ports.specs.Clocks.{Timed};

    ghost Value = { Timed };

    ghost view = { λ c. record { coming = drop c.given c.moments.items; calls = c.calls; faults = c.faults } };

    ghost invariant = { λ c. c.given ≤ vec_len c.moments };
}

impl MemClock {
    /// Creates a clock that gives `moments`, with no call made and no fault counted. They need not rise.
    ///
    /// The calls numbered in `failing` fail, counted from 0, and give no time; so do all past the last of the times.
    pub fn new(moments: Vec<Moment>, failing: Vec<u64>) -> Self
        ensures coming { result.coming ≡ moments.items }
        ensures calls { result.calls ≡ record { failing = failing.items; made = 0 } }
        ensures faults { result.faults ≡ 0 }
    {
        MemClock {
            moments,
            given: 0,
            calls: Calls::new(failing),
            faults: 0,
        }
    }

    /// Copies the times, lists and counts.
    ///
    /// # Errors
    ///
    /// If memory runs out.
    pub(crate) fn copy(&self) -> Result<Self, AllocError>
        ensures { IfOk result (λ copy. copy ≡ self.now) }
    {
        let moments = self.moments.clone()?;
        let calls = self.calls.copy()?;
        Ok(MemClock {
            moments,
            given: self.given,
            calls,
            faults: self.faults,
        })
    }

    /// Returns the times that it has still to give.
    pub fn coming(&self) -> &[Moment]
        ensures { result.now ≡ self.now.coming }
    {
        &self.moments[self.given..]
    }

    /// Returns how often it has failed, up to 2^64 - 1.
    pub fn fault_count(&self) -> u64
        ensures { result ≡ self.now.faults }
    {
        self.faults
    }

    /// Takes the next time, if one is left.
    fn take_next(&mut self) -> Option<Moment>
        ensures next { result ≡ slice_get self.old.coming 0 }
        ensures coming { self.new.coming ≡ drop 1 self.old.coming }
        ensures calls { self.new.calls ≡ self.old.calls }
        ensures faults { self.new.faults ≡ self.old.faults }
    {
        let next = *self.moments.get(self.given)?;
        self.given += 1;
        Some(next)
    }
}

impl Clock for MemClock {
    ghost coming = { λ c. Some c.coming };

    ghost faults = { λ c. c.faults };

    fn now(&mut self) -> ClockStep
        ensures moments { Some self.old.coming ≡ and_left (moment_given result) (Some self.new.coming) }
        ensures range { IsGiven result }
        ensures count { self.old.faults ≤ self.new.faults }
        ensures failed { result ≡ ClockStep.Failed → Rises self.old.faults self.new.faults }
        ensures steady { result ≢ ClockStep.Failed → self.new.faults ≡ self.old.faults }

        // It fails at the listed calls and past the last moment, and at no other.
        ensures step { result ≡ clock_step self.old }
        ensures calls { Advances self.old.calls self.new.calls }
        ensures faults { self.new.faults ≡ clock_faults result self.old.faults }
    {
        let listed = self.calls.begin();
        if !listed {
            if let Some(next) = self.take_next() {
                return step_at(next);
            }
        }
        self.faults = self.faults.saturating_add(1);
        ClockStep::Failed
    }
}

/// Gives one time for ever, and never fails: its fault counter is 0. What it gives has no end, so it doesn't tell it
/// as a list; its own clause says it.
///
/// # Model
///
/// The time.
#[derive(Drop)]
pub struct PlainClock {
    moment: Moment,
}

impl Model for PlainClock {
    ghost Value = { ℕ };

    ghost view = { λ c. c.moment };
}

impl PlainClock {
    /// Creates a clock that is always at `moment`.
    pub fn new(moment: Moment) -> Self
        ensures { result ≡ moment }
    {
        PlainClock { moment }
    }
}

impl Clock for PlainClock {
    ghost coming = { λ _. None };

    ghost faults = { λ _. 0 };

    fn now(&mut self) -> ClockStep
        ensures moments { ◌≡◌ {A = Option (List ℕ)} None (and_left (moment_given result) None) }
        ensures range { IsGiven result }
        ensures count { 0 ≤ 0 }
        ensures failed { result ≡ ClockStep.Failed → Rises 0 0 }
        ensures steady { result ≢ ClockStep.Failed → ◌≡◌ {A = ℕ} 0 0 }

        ensures step { result ≡ ClockStep.Now self.old }
        ensures same { self.new ≡ self.old }
    {
        step_at(self.moment)
    }
}
