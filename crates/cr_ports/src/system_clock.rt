// SPDX-License-Identifier: Apache-2.0 OR MIT
//! The trusted edge: std's clock, which tells a port nothing of what it will give.
//!
//! What the adapter makes of the time that the system tells stands in a clause of its own.
ghost use Rattle.std.specs.Prelude.{◌≡◌, ◌≢◌, ◌≤◌, ℕ, List, None, Option};
ghost use Rattle.cr_ports.specs.Adapter.{Adapter};
ghost use Rattle.cr_ports.specs.Clocks.{IsGiven, clock_faults, moment_given, system_step};
ghost use Rattle.cr_ports.specs.Count.{Rises};
ghost use Rattle.cr_ports.specs.Stream.{and_left};

use crate::{Clock, ClockStep};
use cr_base::Moment;
use std::io;
use std::marker::Model;
use std::time::{self, SystemTime, UNIX_EPOCH};

/// The system's clock, as one that doesn't tell its times.
///
/// # Model
///
/// The handle that reads it, and the fault counter.
#[derive(Drop)]
pub struct SystemClock<R: time::Clock> {
    rt: R,
    faults: u64,
}

impl<R: time::Clock> Model for SystemClock<R> {
    ghost Value = { Adapter R };

    ghost view = { λ c. record { stream = c.rt; faults = c.faults } };
}

/// Turns what the system gave into a clock's answer: the whole seconds since 1970-01-01T00:00:00Z. It is a fault if
/// the time can't be read, is before that second (std gives an error for that too), or is past the last `Moment`.
fn system_step(read: &io::Result<SystemTime>) -> ClockStep
    ensures step { result ≡ system_step read.now }
    ensures range { IsGiven result }
{
    let Ok(read) = read else {
        return ClockStep::Failed;
    };
    let Ok(since) = read.duration_since(UNIX_EPOCH) else {
        return ClockStep::Failed;
    };
    match Moment::new(since.as_secs()) {
        Some(moment) => ClockStep::Now(moment),
        None => ClockStep::Failed,
    }
}

impl<R: time::Clock> SystemClock<R> {
    /// Creates a clock that `rt` reads, with no fault counted.
    pub fn new(rt: R) -> Self
        ensures handle { result.stream ≡ rt }
        ensures faults { result.faults ≡ 0 }
    {
        SystemClock { rt, faults: 0 }
    }
}

impl<R: time::Clock> Clock for SystemClock<R> {
    ghost coming = { λ _. None };

    ghost faults = { λ c. c.faults };

    /// Looks once at the system's clock, which may be before what it gave last.
    fn now(&mut self) -> ClockStep
        ensures moments { ◌≡◌ {A = Option (List ℕ)} None (and_left (moment_given result) None) }
        ensures range { IsGiven result }
        ensures count { self.old.faults ≤ self.new.faults }
        ensures failed { result ≡ ClockStep.Failed → Rises self.old.faults self.new.faults }
        ensures steady { result ≢ ClockStep.Failed → self.new.faults ≡ self.old.faults }

        ensures faults { self.new.faults ≡ clock_faults result self.old.faults }
    {
        let step = system_step(&SystemTime::now(&self.rt));
        if step == ClockStep::Failed {
            self.faults = self.faults.saturating_add(1);
        }
        step
    }
}
