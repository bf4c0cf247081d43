// SPDX-License-Identifier: Apache-2.0 OR MIT
//! How many papers were decided which way.
ghost use Rattle.std.specs.Prelude.{◌≡◌, ◌+◌, ◌<◌, ◌^◌};
ghost use Rattle.cr_base.specs.Reports.{is_accepting, is_undecided, is_rejecting};
ghost use Rattle.cr_reports.specs.ReportLines.{one};

use cr_base::Decision;

/// How many papers were decided which way.
#[derive(Clone, Copy)]
pub(crate) struct Tally {
    /// How many were accepted.
    pub(crate) accepted: u64,
    /// How many were rejected.
    pub(crate) rejected: u64,
    /// Of how many nothing was decided.
    pub(crate) undecided: u64,
}

impl Tally {
    /// Counts one more paper, with this decision.
    pub(crate) fn add(&mut self, decision: &Option<Decision>)
        requires accepted { self.old.accepted < 2 ^ 32 }
        requires rejected { self.old.rejected < 2 ^ 32 }
        requires undecided { self.old.undecided < 2 ^ 32 }
        ensures accepted { self.new.accepted ≡ self.old.accepted + one (is_accepting decision.now) }
        ensures rejected { self.new.rejected ≡ self.old.rejected + one (is_rejecting decision.now) }
        ensures undecided { self.new.undecided ≡ self.old.undecided + one (is_undecided decision.now) }
    {
        match decision {
            Some(Decision::Accept) => self.accepted += 1,
            Some(Decision::Reject) => self.rejected += 1,
            None => self.undecided += 1,
        }
    }
}
