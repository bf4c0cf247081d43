// SPDX-License-Identifier: Apache-2.0 OR MIT
//! What a caller is to the conference, and to one paper.
ghost use Rattle.std.specs.Prelude.{◌≡◌, true};
ghost use Rattle.cr_base.specs.Checks.{judged, of_there, member_checks, chair_checks};
ghost use Rattle.cr_base.specs.Checks.{reads_all_forms, reads_own_forms};
ghost use Rattle.cr_base.specs.Page.{is_clear_member, is_clear_chair};
ghost use Rattle.cr_base.specs.Page.{is_admitted, is_clear_external, reads_paper};

use crate::reply::Rule;
use crate::words::{Mode, Phase, Role};

/// What the rules ask about a caller: the phase and the mode of the conference, their role, and their relations to the
/// paper in question. An unauthenticated caller has no relations, and there are none if no paper is named.
#[derive(Clone, Copy, PartialEq, Eq)]
pub struct Standing {
    /// The conference's phase.
    pub phase: Phase,
    /// The conference's mode.
    pub mode: Mode,
    /// The caller's role; `Account` for an unauthenticated one.
    pub role: Role,
    /// True if the caller is an author of the paper.
    pub author: bool,
    /// True if the caller is in conflict with the paper, as each author is.
    pub conflicted: bool,
    /// True if the caller reviews the paper.
    pub reviewer: bool,
    /// True if the caller is an external of the paper: no member of the committee, and invited to the paper.
    pub external: bool,
}

impl Standing {
    /// Returns whether the caller is an unconflicted member of the committee.
    pub fn is_clear_member(&self) -> bool
        ensures { result ≡ is_clear_member self.now }
    {
        self.role.is_member() && !self.conflicted
    }

    /// Returns whether the caller is an unconflicted chair.
    pub fn is_clear_chair(&self) -> bool
        ensures { result ≡ is_clear_chair self.now }
    {
        self.role.is_chair() && !self.conflicted
    }

    /// Returns whether the caller is a member of the committee, or an external of the paper.
    pub fn is_admitted(&self) -> bool
        ensures { result ≡ is_admitted self.now }
    {
        self.role.is_member() || self.external
    }

    /// Returns whether the caller is an unconflicted external of the paper.
    pub fn is_clear_external(&self) -> bool
        ensures { result ≡ is_clear_external self.now }
    {
        self.external && !self.conflicted
    }

    /// Returns whether the caller, no author of the paper, is shown it from the bidding on: as an unconflicted member
    /// or external.
    pub fn reads_paper(&self) -> bool
        ensures { result ≡ reads_paper self.now }
    {
        self.is_clear_member() || self.is_clear_external()
    }

    /// Returns whether the caller, unconflicted, reads all forms of the paper's reviews that the committee discusses.
    pub fn reads_all_forms(&self) -> bool
        ensures { result ≡ reads_all_forms self.now }
    {
        self.role.is_member() && self.phase.members_read_reviews()
    }

    /// Returns whether the caller, unconflicted, reads their own forms of the paper's reviews: a member who reviews it
    /// from the reviewing until the discussion, an external who does from the reviewing on.
    pub fn reads_own_forms(&self) -> bool
        ensures { result ≡ reads_own_forms self.now }
    {
        self.reviewer
            && (self.phase.reviewers_read_own()
                || (self.external && self.phase.externals_read_own()))
    }

    /// Checks whether the caller may do to the paper, which is there, what unconflicted members do with it.
    ///
    /// # Errors
    ///
    /// The first broken rule: `NotMember`, `Conflict`.
    pub fn check_eligible(&self) -> Result<(), Rule>
        ensures { result ≡ judged (member_checks self.now (of_there true)) tt }
    {
        if !self.role.is_member() {
            return Err(Rule::NotMember);
        }
        if self.conflicted {
            return Err(Rule::Conflict);
        }
        Ok(())
    }

    /// Checks whether the caller may do to the paper, `withdrawn` or not, what chairs do from bidding to discussion.
    ///
    /// # Errors
    ///
    /// The first broken rule: `NotChair`, `Conflict` if the caller is in conflict with it, `WrongPhase`, `Withdrawn`.
    pub fn may_chair(&self, withdrawn: bool) -> Result<(), Rule>
        ensures { result ≡ judged (chair_checks self.now withdrawn) tt }
    {
        if !self.role.is_chair() {
            return Err(Rule::NotChair);
        }
        if self.conflicted {
            return Err(Rule::Conflict);
        }
        if !self.phase.committee_works() {
            return Err(Rule::WrongPhase);
        }
        if withdrawn {
            return Err(Rule::Withdrawn);
        }
        Ok(())
    }
}
