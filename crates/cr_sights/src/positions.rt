// SPDX-License-Identifier: Apache-2.0 OR MIT
//! Where each entry of a history is among those of its series, entry by entry.
ghost use Rattle.std.specs.Prelude.{◌≡◌, ◌+◌, ◌<◌, ◌≤◌, ◌&&◌, length, not, IfOk, OnOk};
ghost use Rattle.cr_base.specs.History.{opens};
ghost use Rattle.cr_base.specs.Lists.{until};
ghost use Rattle.cr_sights.specs.Positions.{AreNoted, IsPositionIn};

use crate::places::Places;
use crate::position::Position;
use crate::series::series;
use cr_base::{COMMITTEE_READS_FROM, Entry, Phase, Stamped};
use std::alloc::{AllocError, Global};

/// The place of each entry of a history in its series, as a walk comes to it: the last places of series among the
/// entries that were passed, in the whole history, among those before the response was opened, and among those before
/// the discussion was.
#[derive(Drop)]
pub(crate) struct Positions {
    passed: Places,
    all: Places,
    before_response: Places,
    before_discussion: Places,
    /// How many entries precede the one that opens the response.
    response_at: usize,
    /// How many entries precede the one that opens the discussion.
    discussion_at: usize,
}

impl Positions {
    /// Returns the positions at the beginning of a history.
    ///
    /// # Errors
    ///
    /// If memory runs out.
    pub(crate) fn of(alloc: Global, log: &[Stamped]) -> Result<Positions, AllocError>
        ensures { IfOk result (λ positions. AreNoted positions log.now 0) }
    {
        let response_at = opening(log, Phase::Response);
        let discussion_at = opening(log, COMMITTEE_READS_FROM);
        let all = Places::of(alloc, log)?;
        let before_response = Places::of(alloc, &log[..response_at])?;
        let before_discussion = Places::of(alloc, &log[..discussion_at])?;
        Ok(Positions {
            passed: Places::new(alloc),
            all,
            before_response,
            before_discussion,
            response_at,
            discussion_at,
        })
    }

    /// Returns the position of the entry at this place, to which the walk has come.
    ///
    /// # Errors
    ///
    /// If memory runs out.
    pub(crate) fn pass(&mut self, log: &[Stamped], at: usize) -> Result<Position, AllocError>
        requires noted { AreNoted self.old log.now at }
        requires within { at < length log.now }
        ensures position { IfOk result (IsPositionIn log.now at) }
        ensures noted { OnOk result (AreNoted self.new log.now (at + 1)) }
    {
        let series = series(&log[at].entry);
        let from_discussion = self.discussion_at < at;
        let ends_at_response = self.before_response.is_last_at(&series, at + 1);
        let ends_at_discussion = self.before_discussion.is_last_at(&series, at + 1);
        let position = Position {
            first: self.passed.is_last_at(&series, 0),
            last: self.all.is_last_at(&series, at + 1),
            last_before_response: is_last_before(self.response_at < at, ends_at_response),
            last_before_discussion: is_last_before(from_discussion, ends_at_discussion),
            from_discussion,
        };
        self.passed.note(&series, at + 1)?;
        Ok(position)
    }
}

/// Returns whether an entry precedes the opening of a phase, as the last of its series there.
fn is_last_before(from_phase: bool, last_before: bool) -> bool
    ensures { result ≡ (not from_phase && last_before) }
{
    !from_phase && last_before
}

/// Returns whether an entry opens the phase told.
fn opens(entry: &Entry, told: Phase) -> bool
    ensures { result ≡ opens told entry.now }
{
    match entry {
        Entry::PhaseSet { phase } => phase.is(told),
        _ => false,
    }
}

/// Returns how many entries precede the first that opens the phase; all if none does.
fn opening(log: &[Stamped], phase: Phase) -> usize
    ensures before { result ≡ length (until (λ s. opens phase s.entry) log.now) }
    ensures within { result ≤ length log.now }
{
    let mut at = 0;
    'entries: while at < log.len() {
        if opens(&log[at].entry, phase) {
            return at;
        }
        at += 1;
    }
    at
}
