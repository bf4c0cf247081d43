// SPDX-License-Identifier: Apache-2.0 OR MIT
//! What tells the time.
ghost use Rattle.std.specs.Prelude.{◌≡◌, ◌≢◌, ◌≤◌, ℕ, List, Option};
ghost use Rattle.cr_ports.specs.Clocks.{IsGiven, moment_given};
ghost use Rattle.cr_ports.specs.Count.{Rises};
ghost use Rattle.cr_ports.specs.Stream.{and_left};

use cr_base::Moment;

/// What a clock gave, asked once.
#[derive(Clone, Copy, PartialEq, Eq)]
pub enum ClockStep {
    /// The time at which it was read.
    Now(Moment),
    /// No time: a fault, which was counted.
    Failed,
}

/// Tells the time. Times need not rise: a clock that is set back is no fault.
pub trait Clock {
    /// The times that it has still to give, in order, if the clock tells them.
    ghost coming: { Self → Option (List ℕ) };

    /// How often it has failed.
    ghost faults: { Self → ℕ };

    /// Reads the time.
    ///
    /// After `Failed` the times to come are as before.
    ///
    /// # Errors
    ///
    /// `Failed`: the fault counter rose. With every other answer it is unchanged.
    ///
    /// # Cost
    ///
    /// Takes no memory. In memory a look at each call that is listed as one that fails; an adapter asks its system,
    /// and waits for nothing else.
    fn now(&mut self) -> ClockStep
        // What was given, and then what is to come, is what was to come.
        ensures moments { coming self.old ≡ and_left (moment_given result) (coming self.new) }
        ensures range { IsGiven result }

        ensures count { faults self.old ≤ faults self.new }
        ensures failed { result ≡ ClockStep.Failed → Rises (faults self.old) (faults self.new) }
        ensures steady { result ≢ ClockStep.Failed → faults self.new ≡ faults self.old };
}
