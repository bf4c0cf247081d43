// SPDX-License-Identifier: Apache-2.0 OR MIT
//! What plans ask of the tables: whether one may be asked for, which papers and members are planned, and who is free
//! for which paper. None takes memory.
ghost use Rattle.std.specs.Prelude.{◌≡◌, ◌≤◌, ◌+◌, ◌&&◌, nat_le, not, length};
ghost use Rattle.cr_base.specs.Answering.{plan_asked};
ghost use Rattle.cr_base.specs.Checks.{judged};
ghost use Rattle.cr_base.specs.Plans.{bid_by, is_free_for, is_too_large};
ghost use Rattle.cr_base.specs.Plans.{planned_members, planned_papers};
ghost use Rattle.cr_base.specs.Sources.{facts_of_tables, shown_in_tables};
ghost use Rattle.cr_base.specs.Ties.{is_conflicted_in};
ghost use Rattle.cr_view.specs.Plans.{is_planned_in, one};

use crate::live::Live;
use cr_base::{Bid, MOST_LABELS, PaperNo, PerPaper, Rule, Steps, UserNo};

/// Returns whether a plan of so many papers and members, with so many places for each paper, has more than 512 places,
/// or papers times members passes 4,096. There are at most 9,999 of each.
fn is_too_large(per_paper: PerPaper, papers: u64, members: u64) -> bool
    requires papers { papers ≤ 9999 }
    requires members { members ≤ 9999 }
    ensures { result ≡ is_too_large per_paper papers members }
{
    per_paper.number() * papers > 512 || papers * members > 4_096
}

/// Returns 1 if it holds, and else 0.
fn one(holds: bool) -> u64
    ensures { result ≡ one holds }
{
    if holds {
        return 1;
    }
    0
}

/// Returns whether so many more labels are left, where so many are drawn.
fn has_labels_left(drawn: u64, per_paper: PerPaper) -> bool
    requires { drawn ≤ 26 }
    ensures { result ≡ nat_le (drawn + per_paper) 26 }
{
    drawn + per_paper.number() <= MOST_LABELS
}

/// Returns whether a paper is planned that has labels left or not, for a user who is in conflict with it or not.
fn is_open_for(conflicted: bool, withdrawn: bool, has_labels: bool) -> bool
    ensures { result ≡ (not conflicted && not withdrawn && has_labels) }
{
    !conflicted && !withdrawn && has_labels
}

/// Returns whether none of these holds.
fn is_none_of(wrote: bool, declared: bool, reviews: bool) -> bool
    ensures { result ≡ (not wrote && not declared && not reviews) }
{
    !wrote && !declared && !reviews
}

/// Who may ask for a plan.
impl Live {
    /// Checks whether a user, or an unauthenticated caller, may ask for a plan with so many places for each paper.
    ///
    /// # Errors
    ///
    /// The first broken rule: `NotChair`, `WrongPhase` and `PlanTooLarge`, but not `NoPlan`, which takes memory to
    /// find.
    ///
    /// # Cost
    ///
    /// A walk over all papers, and one over the accounts.
    pub fn may_plan(&self, user: &Option<UserNo>, per_paper: PerPaper) -> Result<(), Rule>
        ensures { result ≡ judged (plan_asked (facts_of_tables self.now.tables user.now)
            (shown_in_tables self.now.tables) per_paper) tt }
    {
        let by = self.standing(user, &None);
        if !by.role.is_chair() {
            return Err(Rule::NotChair);
        }
        if !by.phase.committee_works() {
            return Err(Rule::WrongPhase);
        }
        if self.is_plan_too_large(user, per_paper) {
            return Err(Rule::PlanTooLarge);
        }
        Ok(())
    }

    /// Returns whether a plan with so many places for each paper is too large for a user, or an unauthenticated
    /// caller, to ask for.
    ///
    /// # Cost
    ///
    /// A walk over all papers, of each what `is_planned` costs, and one over the accounts.
    fn is_plan_too_large(&self, user: &Option<UserNo>, per_paper: PerPaper) -> bool
        ensures { result ≡ is_too_large per_paper
            (length (planned_papers (facts_of_tables self.now.tables user.now)
            (shown_in_tables self.now.tables) per_paper))
            (length (planned_members (facts_of_tables self.now.tables user.now))) }
    {
        let papers = self.planned_count(user, per_paper);
        let members = self.accounts.member_count();
        is_too_large(per_paper, papers, members)
    }

    /// Returns how many papers are planned.
    ///
    /// # Cost
    ///
    /// A walk over all papers, of each what `is_planned` costs.
    fn planned_count(&self, user: &Option<UserNo>, per_paper: PerPaper) -> u64
        ensures count { result ≡ length (planned_papers (facts_of_tables self.now.tables user.now)
            (shown_in_tables self.now.tables) per_paper) }
        ensures few { result ≤ 9999 }
    {
        let mut count = 0;
        for before in 0..self.papers.count() {
            count += one(self.is_planned(user, PaperNo::new(before + 1), per_paper));
        }
        count
    }
}

/// What is planned.
impl Live {
    /// Returns whether the user, or an unauthenticated caller, is in conflict with the paper.
    ///
    /// # Cost
    ///
    /// A walk over its authors, and one look-up.
    fn is_in_conflict(&self, user: &Option<UserNo>, paper: PaperNo) -> bool
        ensures { result ≡ is_conflicted_in self.now.tables.ties user.now paper }
    {
        match user {
            Some(user) => self
                .ties
                .is_conflicted(*user, paper, &[], &mut Steps::uncounted()),
            None => false,
        }
    }

    /// Returns whether so many more reviewers of the paper are planned for the user: the user is unconflicted,
    /// it isn't withdrawn, and there are labels left for so many.
    ///
    /// # Cost
    ///
    /// Two reads by number, and what the conflict costs.
    pub fn is_planned(&self, user: &Option<UserNo>, paper: PaperNo, per_paper: PerPaper) -> bool
        ensures { result ≡ is_planned_in self.now.tables user.now per_paper paper }
    {
        let conflicted = self.is_in_conflict(user, paper);
        let withdrawn = self.papers.is_withdrawn(paper, &mut Steps::uncounted());
        let drawn = self.seats.labels_drawn(paper);
        is_open_for(conflicted, withdrawn, has_labels_left(drawn, per_paper))
    }

    /// Returns whether the user may be assigned to the paper: the user is no author of it, isn't declared in conflict
    /// with it, and doesn't review it.
    ///
    /// # Cost
    ///
    /// A walk over its authors and one over its seats, and one look-up.
    pub fn is_free_for(&self, paper: PaperNo, user: UserNo) -> bool
        ensures { result ≡ is_free_for (shown_in_tables self.now.tables) paper user }
    {
        let wrote = self.ties.is_author(user, paper, &mut Steps::uncounted());
        let declared = self.ties.is_declared(user, paper, &mut Steps::uncounted());
        let reviews = self.seats.is_reviewer(user, paper, &mut Steps::uncounted());
        is_none_of(wrote, declared, reviews)
    }

    /// Returns the user's last bid on the paper, 0 where the user has told none.
    ///
    /// # Cost
    ///
    /// One look-up.
    pub fn bid_by(&self, paper: PaperNo, user: UserNo) -> Bid
        ensures { result ≡ bid_by (shown_in_tables self.now.tables) paper user }
    {
        self.bid_or_zero(user, paper, &mut Steps::uncounted())
    }
}
