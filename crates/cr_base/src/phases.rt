// SPDX-License-Identifier: Apache-2.0 OR MIT
//! The order of phases, and what each opens and ends.
ghost use Rattle.std.specs.Prelude.{◌≡◌, ◌≤◌};
ghost use Rattle.cr_base.specs.Decisions.{is_published};
ghost use Rattle.cr_base.specs.Phases.{phase_rank, is_from, is_phase, skips_response, is_next};
ghost use Rattle.cr_base.specs.Phases.{may_have_deadline, mode_may_be_set, accepts_submissions, papers_may_change};
ghost use Rattle.cr_base.specs.Phases.{authors_have_declared, conflicts_are_final, roles_are_final};
ghost use Rattle.cr_base.specs.Phases.{committee_works, bids_are_taken, reviews_are_written};
ghost use Rattle.cr_base.specs.Phases.{comments_are_written, decisions_are_made, members_see_papers};
ghost use Rattle.cr_base.specs.Phases.{committee_sees_authors, chairs_see_conflicts, members_see_own_bids};
ghost use Rattle.cr_base.specs.Phases.{chairs_see_bids, committee_sees_tags, chairs_see_reviewers};
ghost use Rattle.cr_base.specs.Phases.{members_see_reviewers, reviewers_read_own, externals_read_own};
ghost use Rattle.cr_base.specs.Phases.{members_read_reviews, responses_are_written, members_read_responses};
ghost use Rattle.cr_base.specs.Phases.{authors_read_early_reviews};
ghost use Rattle.cr_base.specs.Phases.{members_read_comments, members_read_decisions, authors_read_reviews};
ghost use Rattle.cr_base.specs.Phases.{authors_see_reviewers, authors_read_decisions, letters_are_sent};
ghost use Rattle.cr_base.specs.Phases.{papers_may_be_accepted, papers_are_published};

use crate::words::Phase;

/// The phase from which members read each other's reviews, the discussion: of the forms under a label that were written
/// before it they read the last, and all that are written from it on.
pub const COMMITTEE_READS_FROM: Phase = Phase::Discussion;

/// The order.
impl Phase {
    /// Returns its rank in the order of phases, from 0.
    fn rank(self) -> u64
        ensures value { result ≡ phase_rank self }
        ensures low { result ≤ 7 }
    {
        match self {
            Phase::Setup => 0,
            Phase::Submission => 1,
            Phase::Bidding => 2,
            Phase::Reviewing => 3,
            Phase::Response => 4,
            Phase::Discussion => 5,
            Phase::Notification => 6,
            Phase::Closed => 7,
        }
    }

    /// Returns whether this is the phase told.
    pub fn is(self, phase: Phase) -> bool
        ensures { result ≡ is_phase self phase }
    {
        self.rank() == phase.rank()
    }

    /// Returns whether this is the first phase told, or a later one.
    pub fn is_from(self, first: Phase) -> bool
        ensures { result ≡ is_from first self }
    {
        first.rank() <= self.rank()
    }

    /// Returns whether the phase told may follow this one: it is the next in the order, or the discussion where this
    /// is the reviewing, so that the response between them is skipped.
    pub fn is_before(self, next: Phase) -> bool
        ensures { result ≡ is_next self next }
    {
        next.rank() == self.rank() + 1 || self.skips_response(next)
    }

    /// Returns whether the response is skipped where the phase told follows this one.
    fn skips_response(self, next: Phase) -> bool
        ensures { result ≡ skips_response self next }
    {
        self.is(Phase::Reviewing) && next.is(Phase::Discussion)
    }
}

/// What is done.
impl Phase {
    /// Returns whether chairs may set a deadline of it: one until which what it opens may be done.
    pub fn may_have_deadline(self) -> bool
        ensures { result ≡ may_have_deadline self }
    {
        self.is_from(Phase::Submission) && !self.is_from(Phase::Notification)
    }

    /// Returns whether chairs may choose who sees whose names.
    pub fn mode_may_be_set(self) -> bool
        ensures { result ≡ mode_may_be_set self }
    {
        self.is(Phase::Setup)
    }

    /// Returns whether papers are submitted.
    pub fn accepts_submissions(self) -> bool
        ensures { result ≡ accepts_submissions self }
    {
        self.is(Phase::Submission)
    }

    /// Returns whether authors revise their papers, upload to them and withdraw them.
    pub fn papers_may_change(self) -> bool
        ensures { result ≡ papers_may_change self }
    {
        self.is(Phase::Submission)
    }

    /// Returns whether authors declare conflicts no more: the committee does.
    pub fn authors_have_declared(self) -> bool
        ensures { result ≡ authors_have_declared self }
    {
        self.is_from(Phase::Bidding)
    }

    /// Returns whether no user turns a conflict on or off any more.
    pub fn conflicts_are_final(self) -> bool
        ensures { result ≡ conflicts_are_final self }
    {
        self.is_from(Phase::Notification)
    }

    /// Returns whether no user is appointed or dismissed any more.
    pub fn roles_are_final(self) -> bool
        ensures { result ≡ roles_are_final self }
    {
        self.is_from(Phase::Notification)
    }

    /// Returns whether the committee works on the papers: chairs take conflicts back, assign and unassign reviewers,
    /// invite externals and take that back, and send bulks; and members tag.
    pub fn committee_works(self) -> bool
        ensures { result ≡ committee_works self }
    {
        self.is_from(Phase::Bidding) && !self.is_from(Phase::Notification)
    }

    /// Returns whether members bid for papers.
    pub fn bids_are_taken(self) -> bool
        ensures { result ≡ bids_are_taken self }
    {
        self.is(Phase::Bidding)
    }

    /// Returns whether reviewers write their forms.
    pub fn reviews_are_written(self) -> bool
        ensures { result ≡ reviews_are_written self }
    {
        self.is(Phase::Reviewing) || self.is(Phase::Discussion)
    }

    /// Returns whether authors respond to the reviews of their papers.
    pub fn responses_are_written(self) -> bool
        ensures { result ≡ responses_are_written self }
    {
        self.is(Phase::Response)
    }

    /// Returns whether members comment on papers.
    pub fn comments_are_written(self) -> bool
        ensures { result ≡ comments_are_written self }
    {
        self.is(Phase::Discussion)
    }

    /// Returns whether chairs decide what becomes of papers.
    pub fn decisions_are_made(self) -> bool
        ensures { result ≡ decisions_are_made self }
    {
        self.is(Phase::Discussion)
    }
}

/// What the committee sees.
impl Phase {
    /// Returns whether members and externals see the papers: titles and what is withdrawn, and without a conflict
    /// abstracts and contents; externals nothing of those that they are in conflict with.
    pub fn members_see_papers(self) -> bool
        ensures { result ≡ members_see_papers self }
    {
        self.is_from(Phase::Bidding)
    }

    /// Returns whether chairs, and members and externals where the mode lets them, see who wrote a paper.
    pub fn committee_sees_authors(self) -> bool
        ensures { result ≡ committee_sees_authors self }
    {
        self.is_from(Phase::Bidding)
    }

    /// Returns whether chairs see who is in conflict with a paper.
    pub fn chairs_see_conflicts(self) -> bool
        ensures { result ≡ chairs_see_conflicts self }
    {
        self.is_from(Phase::Bidding)
    }

    /// Returns whether a member sees their own bid.
    pub fn members_see_own_bids(self) -> bool
        ensures { result ≡ members_see_own_bids self }
    {
        self.is_from(Phase::Bidding)
    }

    /// Returns whether chairs see what everyone bid.
    pub fn chairs_see_bids(self) -> bool
        ensures { result ≡ chairs_see_bids self }
    {
        self.is_from(Phase::Bidding)
    }

    /// Returns whether members see tags, and chairs those for chairs.
    pub fn committee_sees_tags(self) -> bool
        ensures { result ≡ committee_sees_tags self }
    {
        self.is_from(Phase::Bidding)
    }

    /// Returns whether chairs see who reviews a paper, and how much each member has to review.
    pub fn chairs_see_reviewers(self) -> bool
        ensures { result ≡ chairs_see_reviewers self }
    {
        self.is_from(Phase::Bidding)
    }

    /// Returns whether members see who else reviews a paper, by their names where the mode lets them.
    pub fn members_see_reviewers(self) -> bool
        ensures { result ≡ members_see_reviewers self }
    {
        self.is_from(Phase::Discussion)
    }

    /// Returns whether a reviewer reads their own forms, and no other's yet.
    pub fn reviewers_read_own(self) -> bool
        ensures { result ≡ reviewers_read_own self }
    {
        self.is_from(Phase::Reviewing) && !self.is_from(COMMITTEE_READS_FROM)
    }

    /// Returns whether an external who reviews a paper reads their own forms, and never another's.
    pub fn externals_read_own(self) -> bool
        ensures { result ≡ externals_read_own self }
    {
        self.is_from(Phase::Reviewing)
    }

    /// Returns whether members read each other's reviews.
    pub fn members_read_reviews(self) -> bool
        ensures { result ≡ members_read_reviews self }
    {
        self.is_from(COMMITTEE_READS_FROM)
    }

    /// Returns whether members read comments.
    pub fn members_read_comments(self) -> bool
        ensures { result ≡ members_read_comments self }
    {
        self.is_from(Phase::Discussion)
    }

    /// Returns whether members read what authors responded.
    pub fn members_read_responses(self) -> bool
        ensures { result ≡ members_read_responses self }
    {
        self.is_from(Phase::Discussion)
    }

    /// Returns whether members read what was decided.
    pub fn members_read_decisions(self) -> bool
        ensures { result ≡ members_read_decisions self }
    {
        self.is_from(Phase::Discussion)
    }
}

/// What authors and everyone are told.
impl Phase {
    /// Returns whether authors read of each label the last form that was written before the response, to which they
    /// respond.
    pub fn authors_read_early_reviews(self) -> bool
        ensures { result ≡ authors_read_early_reviews self }
    {
        self.is_from(Phase::Response)
    }

    /// Returns whether authors read the final reviews of their papers.
    pub fn authors_read_reviews(self) -> bool
        ensures { result ≡ authors_read_reviews self }
    {
        self.is_from(Phase::Notification)
    }

    /// Returns whether authors see who reviewed their papers, if the mode lets them.
    pub fn authors_see_reviewers(self) -> bool
        ensures { result ≡ authors_see_reviewers self }
    {
        self.is_from(Phase::Notification)
    }

    /// Returns whether authors read what was decided of their papers.
    pub fn authors_read_decisions(self) -> bool
        ensures { result ≡ authors_read_decisions self }
    {
        self.is_from(Phase::Notification)
    }

    /// Returns whether the letters to the authors may be had.
    pub fn letters_are_sent(self) -> bool
        ensures { result ≡ letters_are_sent self }
    {
        self.is_from(Phase::Notification)
    }

    /// Returns whether a decision to accept counts before everyone.
    pub fn papers_may_be_accepted(self) -> bool
        ensures { result ≡ papers_may_be_accepted self }
    {
        self.is_from(Phase::Notification)
    }

    /// Returns whether everyone is served what is accepted.
    pub fn papers_are_published(self) -> bool
        ensures { result ≡ papers_are_published self }
    {
        self.is_from(Phase::Closed)
    }

    /// Returns whether everyone is served a paper, which is accepted or isn't: where it is, once the conference is
    /// closed.
    pub fn publishes(self, accepted: bool) -> bool
        ensures { result ≡ is_published self accepted }
    {
        accepted && self.papers_are_published()
    }
}
