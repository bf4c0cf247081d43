// SPDX-License-Identifier: Apache-2.0 OR MIT
//! Moments: when a request came, and until when something may be done.
ghost use Rattle.std.specs.Prelude.{◌≡◌, ℕ, ◌≤◌};
ghost use Rattle.cr_base.specs.Moments.{IsMoment, moment_of};

use std::marker::Model;

/// The last moment: 9999-12-31T23:59:59Z.
pub(crate) const LAST_MOMENT: u64 = 253_402_300_799;

/// A moment: whole seconds since 1970-01-01T00:00:00Z, no leap second counted (POSIX.1-2017, section 4.16), from 0 to
/// 253,402,300,799, which is 9999-12-31T23:59:59Z.
///
/// # Model
///
/// The seconds.
#[derive(Clone, Copy, PartialEq, Eq)]
pub struct Moment {
    seconds: u64,
}

impl Model for Moment {
    ghost Value = { ℕ };

    ghost view = { λ m. m.seconds };

    ghost invariant = { λ m. m.seconds ≤ 253402300799 };

    ghost inverse = { λ n. record { seconds = n } };
}

impl Moment {
    /// Returns the first one: 1970-01-01T00:00:00Z.
    pub fn epoch() -> Moment
        ensures { result ≡ 0 }
    {
        Moment { seconds: 0 }
    }

    /// Returns the moment of so many seconds since 1970-01-01T00:00:00Z; None past 253,402,300,799.
    pub fn new(seconds: u64) -> Option<Moment>
        ensures { result ≡ moment_of seconds }
    {
        if seconds > LAST_MOMENT {
            return None;
        }
        Some(Moment { seconds })
    }

    /// Returns its seconds since 1970-01-01T00:00:00Z.
    pub fn seconds(self) -> u64
        ensures value { result ≡ self }
        ensures high { IsMoment result }
    {
        self.seconds
    }
}
