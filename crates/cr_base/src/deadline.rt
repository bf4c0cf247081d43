// SPDX-License-Identifier: Apache-2.0 OR MIT
//! Deadlines: until when what a phase opens may be done.
ghost use Rattle.std.specs.Prelude.{◌≡◌, ◌≤◌, Some};
ghost use Rattle.cr_base.specs.Deadlines.{deadline_in, deadline_of_seconds, is_past, no_deadlines, with_deadline};

use crate::items::Items;
use crate::moment::Moment;
use crate::words::Phase;
use std::marker::Model;

/// The last deadline: 9999-12-30T22:00:00Z, the last whole second that `jiff` has in every time zone.
pub(crate) const LAST_DEADLINE: u64 = 253_402_207_200;

/// A deadline: whole seconds since 1970-01-01T00:00:00Z, as those of a [`Moment`], from 1 to 253,402,207,200, which is
/// 9999-12-30T22:00:00Z. What has one may be done up to that very second.
///
/// # Model
///
/// The seconds.
#[derive(Clone, Copy, PartialEq, Eq)]
pub struct Deadline {
    seconds: u64,
}

impl Model for Deadline {
    ghost use Rattle.std.specs.Prelude.{ℕ, ◌≤◌};

    ghost Value = { ℕ };

    ghost view = { λ d. d.seconds };

    ghost invariant = { λ d. (1 ≤ d.seconds) × (d.seconds ≤ 253402207200) };

    ghost inverse = { λ n. record { seconds = n } };
}

impl Deadline {
    /// Returns the deadline of so many seconds since 1970-01-01T00:00:00Z; None for 0, and past 253,402,207,200.
    pub fn new(seconds: u64) -> Option<Deadline>
        ensures { result ≡ deadline_of_seconds seconds }
    {
        if seconds == 0 || seconds > LAST_DEADLINE {
            return None;
        }
        Some(Deadline { seconds })
    }

    /// Returns its seconds since 1970-01-01T00:00:00Z.
    pub fn seconds(self) -> u64
        ensures value { result ≡ self }
        ensures low { 1 ≤ result }
        ensures high { result ≤ 253402207200 }
    {
        self.seconds
    }

    /// Returns whether that moment is later than the deadline's second.
    pub fn is_past(self, at: Moment) -> bool
        ensures { result ≡ is_past (Some self) at }
    {
        self.seconds < at.seconds()
    }
}

/// The deadlines of a conference: of each phase that may have one its deadline, if it has one.
#[derive(Clone, Copy)]
pub struct Deadlines {
    /// That of submission.
    pub submission: Option<Deadline>,
    /// That of bidding.
    pub bidding: Option<Deadline>,
    /// That of reviewing.
    pub reviewing: Option<Deadline>,
    /// That of the response.
    pub response: Option<Deadline>,
    /// That of the discussion.
    pub discussion: Option<Deadline>,
}

impl Deadlines {
    /// Returns deadlines of which no phase has one.
    pub fn none() -> Deadlines
        ensures { result ≡ no_deadlines }
    {
        Deadlines {
            submission: None,
            bidding: None,
            reviewing: None,
            response: None,
            discussion: None,
        }
    }

    /// Returns the deadline of a phase. `None` if it has none; setup, notification and closed never have one.
    pub fn of(&self, phase: Phase) -> Option<Deadline>
        ensures { result ≡ deadline_in self.now phase }
    {
        match phase {
            Phase::Setup => None,
            Phase::Submission => self.submission,
            Phase::Bidding => self.bidding,
            Phase::Reviewing => self.reviewing,
            Phase::Response => self.response,
            Phase::Discussion => self.discussion,
            Phase::Notification => None,
            Phase::Closed => None,
        }
    }

    /// Gives this phase another deadline, or none. A phase that may have none isn't changed.
    pub fn set(&mut self, phase: Phase, until: Option<Deadline>)
        ensures { self.new ≡ with_deadline phase until self.old }
    {
        match phase {
            Phase::Setup => {}
            Phase::Submission => self.submission = until,
            Phase::Bidding => self.bidding = until,
            Phase::Reviewing => self.reviewing = until,
            Phase::Response => self.response = until,
            Phase::Discussion => self.discussion = until,
            Phase::Notification => {}
            Phase::Closed => {}
        }
    }
}

/// A phase that has a deadline, and it.
#[derive(Clone, Copy)]
pub struct PhaseDeadline {
    /// The phase.
    pub phase: Phase,
    /// Its deadline.
    pub until: Deadline,
}

/// The phases that have a deadline, in the order of phases.
pub type PhaseDeadlines = Items<PhaseDeadline>;
